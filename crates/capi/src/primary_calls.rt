// The primary's calls: the words are tested and read, the call is made, the words of its state are stored: those of all
// packets after a take, which moves them, else those of one packet and of one block number at most. A sum leaves them.
#![tactic(auto, using(crate::proofs::KeptLaws::kept, crate::proofs::LengthLaws::many))]

ghost use Rattle.std.specs.Prelude.{◌≡◌, true, false, MatchOption};
ghost use Rattle.capi.specs.Word.{reply_word};
ghost use Rattle.capi.specs.PrimaryWords.{primary_words_ok, primary_of};
ghost use Rattle.capi.specs.PrimaryCalls.{PrimaryDone, MemoryWriteDone, DiskWriteDone, PacketDone, CheckpointDone, DrainDone, AckDone, TakeDone, PrimaryTickDone, PrimarySumDone};

use crate::{primary_words, word};
use records::refusal::Refusal;
use rules::{Primary, Reply};
use settings::MOST_ALLOWANCE;

// The state that is lent, where the words are one. Each call stands between this and `replied`, and is no closure that
// one function takes: no plainer, since its clauses would speak of each buffer that a call captures, and of calls not
// made.
fn lent(state: &[u64]) -> Option<Primary>
    ensures { MatchOption result (primary_words_ok state.now ≡ false) (λ p. (primary_words_ok state.now ≡ true) × (p ≡ primary_of state.now)) }
{
    if !primary_words::words_ok(state) {
        return None;
    }
    Some(primary_words::primary_of(state))
}

// Stores the state of a reply whose packets and block numbers are those lent, and answers it.
fn replied(state: &mut [u64], r: Reply<Primary>) -> u64
    requires ok { primary_words_ok state.old ≡ true }
    requires queue { r.state.queue ≡ (primary_of state.old).queue }
    requires numbers { r.state.numbers ≡ (primary_of state.old).numbers }
    ensures { PrimaryDone true state.old r.state (reply_word r.number r.value) result state.new }
{
    primary_words::store_one(state, r.state, 0, 0);
    word::reply_word(r.number, r.value)
}

// Memory write: bytes inside one page, which becomes dirty.
pub fn primary_memory_write(
    state: &mut [u64],
    memory: &mut [u8],
    dirty: &mut [u64],
    page: usize,
    offset: usize,
    bytes: &[u8],
) -> u64
    ensures { MemoryWriteDone state.old memory.old dirty.old page offset bytes.now result state.new memory.new dirty.new }
{
    let Some(p) = lent(state) else {
        return Refusal::OutOfRange.number();
    };
    let r = primary::writes::memory_write(p, memory, dirty, page, offset, bytes);
    replied(state, r)
}

// Disk write: one block.
pub fn primary_disk_write(
    state: &mut [u64],
    disk: &mut [u8],
    stream: &mut [u8],
    block: usize,
    bytes: &[u8],
) -> u64
    ensures { DiskWriteDone state.old disk.old stream.old block bytes.now result state.new disk.new stream.new }
{
    let Some(p) = lent(state) else {
        return Refusal::OutOfRange.number();
    };
    let number = word::if_below(p.blocks, MOST_ALLOWANCE);
    let r = primary::writes::disk_write(p, disk, stream, block, bytes);
    primary_words::store_one(state, r.state, 0, number);
    word::reply_word(r.number, r.value)
}

// Packet: held with the open epoch and a port.
pub fn primary_packet(state: &mut [u64], held: &mut [u8], port: usize, bytes: &[u8]) -> u64
    ensures { PacketDone state.old held.old port bytes.now result state.new held.new }
{
    let Some(p) = lent(state) else {
        return Refusal::OutOfRange.number();
    };
    let r = primary::packets::packet(p, held, port, bytes);
    let packet = word::if_accepted(r.number, p.queue.count);
    primary_words::store_one(state, r.state, packet, 0);
    word::reply_word(r.number, r.value)
}

// Checkpoint: every dirty page, STATE and COMMIT go to the stream, and the next epoch is open.
pub fn primary_checkpoint(
    state: &mut [u64],
    memory: &[u8],
    dirty: &mut [u64],
    stream: &mut [u8],
    processor: &[u8; 64],
) -> u64
    ensures { CheckpointDone state.old memory.now dirty.old stream.old processor.now result state.new dirty.new stream.new }
{
    if !primary_words::words_ok(state) {
        return Refusal::OutOfRange.number();
    }
    let at_checkpoint = *processor;
    let p = primary_words::primary_of(state);
    let r = primary::checkpoint::checkpoint(p, memory, dirty, stream, at_checkpoint);
    replied(state, r)
}

// Drain: the head of the stream moves to the destination.
pub fn primary_drain(state: &mut [u64], stream: &mut [u8], n: usize, destination: &mut [u8]) -> u64
    ensures { DrainDone state.old stream.old n destination.old result state.new stream.new destination.new }
{
    let Some(p) = lent(state) else {
        return Refusal::OutOfRange.number();
    };
    let r = primary::stream::drain(p, stream, n, destination);
    replied(state, r)
}

// ACK: reads one.
pub fn primary_acknowledge(state: &mut [u64], bytes: &[u8]) -> u64
    ensures { AckDone state.old bytes.now result state.new }
{
    let Some(p) = lent(state) else {
        return Refusal::OutOfRange.number();
    };
    let r = primary::stream::acknowledge(p, bytes);
    primary_words::store_one(state, r.state, 0, 0);
    word::record_word(r.answer)
}

// Take: a port's oldest packet, if it is free to go.
pub fn primary_take(state: &mut [u64], held: &mut [u8], port: usize, destination: &mut [u8]) -> u64
    ensures { TakeDone state.old held.old port destination.old result state.new held.new destination.new }
{
    let Some(p) = lent(state) else {
        return Refusal::OutOfRange.number();
    };
    let r = primary::packets::take(p, held, port, destination);
    primary_words::store(state, r.state);
    word::reply_word(r.number, r.value)
}

// Tick.
pub fn primary_tick(state: &mut [u64]) -> u64
    ensures { PrimaryTickDone state.old result state.new }
{
    let Some(p) = lent(state) else {
        return Refusal::OutOfRange.number();
    };
    let r = primary::tick::tick(p);
    replied(state, r)
}

// Sum: of the memory, pages in rising order.
pub fn primary_sum(state: &[u64], memory: &[u8]) -> u64
    ensures { PrimarySumDone state.now memory.now result }
{
    let Some(p) = lent(state) else {
        return Refusal::OutOfRange.number();
    };
    let r = primary::sum::sum(p, memory);
    word::reply_word(r.number, r.value)
}
