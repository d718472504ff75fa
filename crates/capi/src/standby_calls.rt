// The standby's calls, as the primary's. Its two processor states, the staged and the kept one, are lent beside its
// words.
#![tactic(auto, using(crate::proofs::LengthLaws::many))]

ghost use Rattle.std.specs.Prelude.{◌≡◌, true, false, MatchOption};
ghost use Rattle.capi.specs.Word.{reply_word};
ghost use Rattle.capi.specs.StandbyWords.{standby_words_ok, standby_of};
ghost use Rattle.capi.specs.StandbyCalls.{as_lent, StandbyDone, ReadDone, FlushDone, StandbyTickDone, ActivationDone, ActiveMemoryWriteDone, ActiveDiskWriteDone, StandbySumDone};

use crate::{standby_words, word};
use records::refusal::Refusal;
use rules::{Reply, Standby};

// The state that is lent, where the words are one.
fn lent(state: &[u64], pending: &[u8; 64], processor: &[u8; 64]) -> Option<Standby>
    ensures { MatchOption result (standby_words_ok state.now ≡ false) (λ s. (standby_words_ok state.now ≡ true) × (s ≡ standby_of state.now pending.now processor.now)) }
{
    if !standby_words::words_ok(state) {
        return None;
    }
    Some(standby_words::standby_of(state, pending, processor))
}

// Stores the state of a reply, and answers it.
fn replied(
    state: &mut [u64],
    pending: &mut [u8; 64],
    processor: &mut [u8; 64],
    r: Reply<Standby>,
) -> u64
    requires { standby_words_ok state.old ≡ true }
    ensures { StandbyDone true (as_lent state.old pending.old processor.old) r.state (reply_word r.number r.value) result (as_lent state.new pending.new processor.new) }
{
    standby_words::store(state, pending, processor, r.state);
    word::reply_word(r.number, r.value)
}

// Read: at most one record of the stream.
pub fn standby_read(
    state: &mut [u64],
    pending: &mut [u8; 64],
    processor: &mut [u8; 64],
    memory: &mut [u8],
    pages: &mut [u8],
    marks: &mut [u64],
    blocks: &mut [u8],
    bytes: &[u8],
    reply: &mut [u8],
) -> u64
    ensures { ReadDone (as_lent state.old pending.old processor.old) memory.old pages.old marks.old blocks.old bytes.now reply.old result (as_lent state.new pending.new processor.new) memory.new pages.new marks.new blocks.new reply.new }
{
    let Some(s) = lent(state, pending, processor) else {
        return Refusal::OutOfRange.number();
    };
    let r = standby::read::read(s, bytes, memory, pages, marks, blocks, reply);
    standby_words::store(state, pending, processor, r.state);
    word::record_word(r.answer)
}

// Flush: stores blocks that are due.
pub fn standby_flush(
    state: &mut [u64],
    pending: &mut [u8; 64],
    processor: &mut [u8; 64],
    blocks: &mut [u8],
    disk: &mut [u8],
    n: usize,
) -> u64
    ensures { FlushDone (as_lent state.old pending.old processor.old) blocks.old disk.old n result (as_lent state.new pending.new processor.new) blocks.new disk.new }
{
    let Some(s) = lent(state, pending, processor) else {
        return Refusal::OutOfRange.number();
    };
    let r = standby::flush::flush(s, blocks, disk, n);
    replied(state, pending, processor, r)
}

// Tick.
pub fn standby_tick(
    state: &mut [u64],
    pending: &mut [u8; 64],
    processor: &mut [u8; 64],
    marks: &mut [u64],
) -> u64
    ensures { StandbyTickDone (as_lent state.old pending.old processor.old) marks.old result (as_lent state.new pending.new processor.new) marks.new }
{
    let Some(s) = lent(state, pending, processor) else {
        return Refusal::OutOfRange.number();
    };
    let r = standby::takeover::tick(s, marks);
    replied(state, pending, processor, r)
}

// Activation: writes the record, and the standby is active.
pub fn standby_activate(
    state: &mut [u64],
    pending: &mut [u8; 64],
    processor: &mut [u8; 64],
    area: &mut [u8],
) -> u64
    ensures { ActivationDone (as_lent state.old pending.old processor.old) area.old result (as_lent state.new pending.new processor.new) area.new }
{
    let Some(s) = lent(state, pending, processor) else {
        return Refusal::OutOfRange.number();
    };
    let r = standby::takeover::activate(s, area);
    replied(state, pending, processor, r)
}

// Memory write of the guest, once the standby is active.
pub fn standby_memory_write(
    state: &mut [u64],
    pending: &mut [u8; 64],
    processor: &mut [u8; 64],
    memory: &mut [u8],
    page: usize,
    offset: usize,
    bytes: &[u8],
) -> u64
    ensures { ActiveMemoryWriteDone (as_lent state.old pending.old processor.old) memory.old page offset bytes.now result (as_lent state.new pending.new processor.new) memory.new }
{
    let Some(s) = lent(state, pending, processor) else {
        return Refusal::OutOfRange.number();
    };
    let r = standby::takeover::memory_write(s, memory, page, offset, bytes);
    replied(state, pending, processor, r)
}

// Disk write of the guest, once the standby is active.
pub fn standby_disk_write(
    state: &mut [u64],
    pending: &mut [u8; 64],
    processor: &mut [u8; 64],
    disk: &mut [u8],
    block: usize,
    bytes: &[u8],
) -> u64
    ensures { ActiveDiskWriteDone (as_lent state.old pending.old processor.old) disk.old block bytes.now result (as_lent state.new pending.new processor.new) disk.new }
{
    let Some(s) = lent(state, pending, processor) else {
        return Refusal::OutOfRange.number();
    };
    let r = standby::takeover::disk_write(s, disk, block, bytes);
    replied(state, pending, processor, r)
}

// Sum: of the memory, pages in the order that is lent.
pub fn standby_sum(
    state: &[u64],
    pending: &[u8; 64],
    processor: &[u8; 64],
    memory: &[u8],
    order: &[u64],
) -> u64
    ensures { StandbySumDone (as_lent state.now pending.now processor.now) memory.now order.now result }
{
    let Some(s) = lent(state, pending, processor) else {
        return Refusal::OutOfRange.number();
    };
    let r = standby::sum::sum(s, memory, order);
    word::reply_word(r.number, r.value)
}
