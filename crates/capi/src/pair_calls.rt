// Start, the disk choice, and a page's part of a sum.
ghost use Rattle.std.specs.Prelude.{◌≡◌, ◌&&◌, min, eqb, length};
ghost use Rattle.records.specs.Number.{number_in};
ghost use Rattle.rules.specs.Choose.{choice_of};
ghost use Rattle.capi.specs.Word.{most32};
ghost use Rattle.capi.specs.PrimaryWords.{primary_length};
ghost use Rattle.capi.specs.StandbyWords.{standby_length};
ghost use Rattle.capi.specs.StandbyCalls.{as_lent};
ghost use Rattle.capi.specs.PairCalls.{settings_length, settings_of, lent_buffers, StartDone, choice_word, page_sum_refusal, page_sum_word};

use crate::{primary_words, standby_words, word};
use ends::choice::decide;
use ends::start::start;
use records::reading::unit_ok;
use records::refusal::Refusal;
use rules::Disk;
use settings::{MOST_PAGES, Settings};

// How many words the settings have: U M D B S Q L T.
const SETTINGS: usize = 8;

// Whether there are as many words as settings, and room for both states.
fn start_ok(settings: usize, primary: usize, standby: usize) -> bool
    ensures { result ≡ (eqb settings settings_length && eqb primary primary_length && eqb standby standby_length) }
{
    (settings == SETTINGS) & (primary == primary_words::LENGTH) & (standby == standby_words::LENGTH)
}

// T, where it fits its field, else the largest number there.
fn patience(t: u64) -> u32
    ensures { result ≡ min t most32 }
{
    word::field(t.min(word::MOST_32))
}

#[tactic(auto, unfolding(crate::specs::PairCalls::settings_of))]
fn settings_of(w: &[u64]) -> Settings
    requires { length w.now ≡ settings_length }
    ensures { result ≡ settings_of w.now }
{
    Settings {
        u: w[0] as usize,
        m: w[1] as usize,
        d: w[2] as usize,
        b: w[3] as usize,
        s: w[4] as usize,
        q: w[5] as usize,
        l: w[6] as usize,
        t: patience(w[7]),
    }
}

// Start, lent every buffer of both ends, in the order of tests/calls/FORM.md, and room for the two states.
#[tactic(auto, using(crate::proofs::LengthLaws::started), unfolding(crate::specs::PairCalls::start_words_ok))]
pub fn pair_start(
    settings: &[u64],
    first: &[u8; 64],
    memory: &[u8],
    disk: &[u8],
    dirty: &mut [u64],
    held: &[u8],
    stream: &[u8],
    smemory: &mut [u8],
    sdisk: &mut [u8],
    pages: &[u8],
    marks: &mut [u64],
    blocks: &[u8],
    area: &mut [u8],
    primary: &mut [u64],
    standby: &mut [u64],
    pending: &mut [u8; 64],
    processor: &mut [u8; 64],
) -> u64
    ensures { StartDone settings.now first.now (lent_buffers memory.now disk.now dirty.old held.now stream.now smemory.old sdisk.old pages.now marks.old blocks.now area.old) primary.old (as_lent standby.old pending.old processor.old) result dirty.new smemory.new sdisk.new marks.new area.new primary.new (as_lent standby.new pending.new processor.new) }
{
    if !start_ok(settings.len(), primary.len(), standby.len()) {
        return Refusal::OutOfRange.number();
    }
    let r = start(
        settings_of(settings),
        *first,
        memory,
        disk,
        dirty,
        held,
        stream,
        smemory,
        sdisk,
        pages,
        marks,
        blocks,
        area,
    );
    primary_words::store(primary, r.primary);
    standby_words::store(standby, pending, processor, r.standby);
    word::reply_word(r.number, 0)
}

// The disk choice.
pub fn pair_disk_choice(primary: &[u8], standby: &[u8], area: &[u8]) -> u64
    ensures { result ≡ choice_word (choice_of (length primary.now) (length standby.now) area.now) }
{
    match decide(primary.len(), standby.len(), area) {
        Ok(Disk::PrimaryDisk) => word::reply_word(0, 1),
        Ok(Disk::StandbyDisk) => word::reply_word(0, 2),
        Err(refusal) => word::reply_word(refusal.number(), 0),
    }
}

// What a page's part of a sum is refused with: 1 2.
#[tactic(auto, using(crate::proofs::PageSumLaws::units), unfolding(crate::specs::PairCalls::page_sum_refusal))]
fn check_page_sum(u: usize, image: usize, page: usize) -> Result<(), Refusal>
    ensures { number_in result ≡ page_sum_refusal u image page }
{
    if !unit_ok(u) || image % u != 0 {
        return Err(Refusal::OutOfRange);
    }
    let m = image / u;
    if m < 1 || MOST_PAGES < m {
        return Err(Refusal::OutOfRange);
    }
    if m <= page {
        return Err(Refusal::NoSuchUnit);
    }
    Ok(())
}

// A page's own part of a sum.
#[tactic(auto, using(crate::proofs::PageSumLaws::told), unfolding(crate::specs::PairCalls::page_sum_word))]
pub fn pair_page_sum(image: &[u8], u: usize, page: usize) -> u64
    ensures { result ≡ page_sum_word u image.now page }
{
    if let Err(refusal) = check_page_sum(u, image.len(), page) {
        return word::reply_word(refusal.number(), 0);
    }
    word::reply_word(0, sums::page_sum(image, u, page))
}
