// The normal form of a file, written into a destination.
ghost use Rattle.std.specs.Prelude.{◌≡◌, true, ◌+◌, ◌≤◌, ◌<◌, length};
ghost use Rattle.lists.specs.Part.{put, PutDone};
ghost use Rattle.lists.specs.Refusal.{refusal};
ghost use Rattle.records.specs.Kind.{BLOCK, record_length};
ghost use Rattle.records.specs.Number.{number_in};
ghost use Rattle.checkpoints.specs.Scan.{first_of, numbers_of};
ghost use Rattle.checkpoints.specs.Form.{keeps_block, place_of_block, kept_block, kept_blocks, kept_form, pages_length, form_length, marked_all, BlocksFit, MarksKept, FormFits, kept_in};
ghost use Rattle.checkpoints.specs.Saving.{end_tests, saved, saved_destination};

use crate::judge::place_in;
use crate::scan::scan;
use crate::{Counts, FileSettings, KeptBlock};
use records::kinds::{commit_length, is_wide, number_end};
use records::refusal::Refusal;
use records::writing::{write_block, write_commit};
use records::{STATE_RECORD, UNIT_RECORD, Unread};
use settings::MOST_ALLOWANCE;

// The words of marks for the most blocks that there are.
const WORDS: usize = 64;

// What was kept of a file that holds a whole checkpoint.
#[derive(Clone, Copy)]
struct Kept<'a> {
    counts: Counts,
    blocks: &'a [KeptBlock],
    file: &'a [u8],
}

impl Kept<'_> {
    // The epoch of its records: there is one at least.
    fn epoch(self) -> u32
        ensures { result ≡ first_of self.entry.counts }
    {
        self.counts.epoch.unwrap_or(0)
    }
}

// Marks the numbers of these blocks.
fn mark_all(ws: &mut [u64], blocks: &[KeptBlock])
    ensures { ws.new ≡ marked_all ws.old (numbers_of blocks.now) }
{
    for block in blocks {
        marks::mark(ws, block.number);
    }
}

// The BLOCK of block n with its last bytes into out from at on; the position behind it.
fn write_one(out: &mut [u8], at: usize, kept: Kept, u: usize, n: usize) -> usize
    requires { (at + record_length u BLOCK ≤ length out.old) × (u ≤ 4096) × (n < 4096) × (kept.counts.blocks ≤ length kept.blocks.now) × (keeps_block (kept_in kept) n ≡ true) × (place_of_block (kept_in kept) n + u ≤ length kept.file.now) }
    ensures { PutDone (kept_block u (kept_in kept.entry) n) out.old at out.new result }
{
    let slot = place_in(&kept.blocks[..kept.counts.blocks], n);
    let body = lists::part_of(kept.file, kept.blocks[slot].place, u);
    at + write_block(&mut out[at..], kept.epoch(), n, body)
}

// The BLOCKs, in rising order, each block once; the position behind them.
fn write_blocks(out: &mut [u8], ws: &[u64], kept: Kept, u: usize, d: usize) -> usize
    requires { BlocksFit u d (kept_in kept) × MarksKept d ws.now (kept_in kept) × (length (kept_blocks u d (kept_in kept)) ≤ length out.old) }
    ensures { PutDone (kept_blocks u d (kept_in kept.entry)) out.old 0 out.new result }
{
    let mut at = 0;
    for block in marks::marked(ws, d) {
        at = write_one(out, at, kept, u, block);
    }
    at
}

// The bytes of PAGEs and STATE.
fn pages_length(k: Counts, u: usize, wide: bool) -> usize
    requires { (u ≤ 4096) × (k.pages ≤ 65536) }
    ensures { result ≡ pages_length u wide k }
{
    k.pages * (u + number_end(wide)) + STATE_RECORD
}

// The length of the normal form.
fn form_length(k: Counts, u: usize, wide: bool) -> usize
    requires { (u ≤ 4096) × (k.blocks ≤ 64) × (k.pages ≤ 65536) }
    ensures { result ≡ form_length u wide k }
{
    let blocks = k.blocks * (u + UNIT_RECORD);
    let pages = pages_length(k, u, wide);
    blocks + (pages + commit_length(wide))
}

// The normal form at the head of out: BLOCKs, then PAGEs and STATE as they stand in the file, then COMMIT.
fn write_form(out: &mut [u8], kept: Kept, u: usize, d: usize, wide: bool)
    requires { FormFits u d wide (kept_in kept) × (form_length u wide kept.counts ≤ length out.old) × (kept.counts.pages ≤ 65536) × (kept.counts.records ≤ 65535) }
    ensures { out.new ≡ put out.old 0 (kept_form u d wide (kept_in kept.entry)) }
{
    let k = kept.counts;
    let mut ws = [0u64; WORDS];
    mark_all(&mut ws, &kept.blocks[..k.blocks]);
    let at = write_blocks(out, &ws, kept, u, d);
    let from = k.records * (u + UNIT_RECORD);
    let n = pages_length(k, u, wide);
    lists::copy_into(out, at, lists::part_of(kept.file, from, n));
    let end = at + n;
    write_commit(&mut out[end..], wide, kept.epoch(), k.pages, k.blocks);
}

// A file that holds a whole checkpoint, and so many bytes after it: 29 30.
fn check_end(behind: usize, normal: usize, room: usize) -> Result<(), Refusal>
    ensures { number_in result ≡ refusal (end_tests behind normal room) }
{
    if behind != 0 {
        return Err(Refusal::BytesBehind);
    }
    if room < normal {
        return Err(Refusal::DestinationShort);
    }
    Ok(())
}

// A file into its normal form, at the head of the destination, and the form's length; refused or cut short, the
// destination stays.
pub fn normal_form(g: FileSettings, file: &[u8], destination: &mut [u8]) -> Result<usize, Unread>
    ensures { (result ≡ saved g file.now (length destination.old)) × (destination.new ≡ saved_destination g file.now destination.old) }
{
    if !settings::shared_ok(g.u, g.m, g.d, g.b) {
        return Err(Unread::from(Refusal::OutOfRange));
    }
    let mut blocks = [KeptBlock::default(); MOST_ALLOWANCE];
    let scanned = scan(g, file, &mut blocks)?;
    let wide = is_wide(g.m);
    let length = form_length(scanned.counts, g.u, wide);
    check_end(file.len() - scanned.end, length, destination.len())?;
    let kept = Kept {
        counts: scanned.counts,
        blocks: &blocks,
        file,
    };
    write_form(destination, kept, g.u, g.d, wide);
    Ok(length)
}
