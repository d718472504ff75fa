// What a judged record does to the state and to each lent buffer.
ghost use Rattle.std.specs.Prelude.{◌≡◌, ◌+◌, ◌*◌, ◌^◌, ◌≤◌, ◌<◌, length};
ghost use Rattle.lists.specs.Part.{put};
ghost use Rattle.lists.specs.Page.{with_page};
ghost use Rattle.records.specs.Kind.{processor_bytes};
ghost use Rattle.records.specs.Write.{ack_record};
ghost use Rattle.marks.specs.Mark.{with_mark, cleared};
ghost use Rattle.pages.specs.Dirty.{installed};
ghost use Rattle.staging.specs.Slot.{slot_for};
ghost use Rattle.staging.specs.Fits.{StageFits};
ghost use Rattle.rules.specs.Blocks.{blocks_with};
ghost use Rattle.rules.specs.StandbyState.{with_detector, with_pending_seen, with_pages_next, with_no_records};
ghost use Rattle.rules.specs.Read.{bytes_at, installed_state, staged_state, read_state, memory_after, staged_pages_after, staged_marks_after, staged_blocks_after, reply_after, read_lent};
ghost use Rattle.standby.specs.Fits.{FieldFits, slot_of, SlotFits, StateFits, BuffersFit};

use detector::Detector;
use records::{Cursor, Record, Unread};
use rules::Standby;

// The field of bytes of a record.
#[tactic(auto, unfolding(lists::specs::Part::part))]
fn field(bytes: &[u8], at: Cursor) -> &[u8]
    requires { (at.start ≤ at.end) × (at.end ≤ length bytes.now) }
    ensures value { result.now ≡ bytes_at at bytes.now }
    ensures size { at.start + length result.now ≡ at.end }
{
    &bytes[at.start..at.end]
}

// The processor state that a STATE brings.
#[tactic(auto, using(lists::proofs::PartLaws::put_whole))]
fn processor(bytes: &[u8], at: Cursor) -> [u8; 64]
    requires { FieldFits (length bytes.now) processor_bytes at }
    ensures { result ≡ bytes_at at bytes.now }
{
    let mut out = [0u8; 64];
    lists::copy_front(&mut out, field(bytes, at));
    out
}

// The parts of the state below are stored into a copy of it, and not replaced by struct update (`..s`): by that the
// compiler made one or two copies more of the two processor states at each record, and a read of a PAGE of 64 bytes
// took 1.7 times as long in a caller in Rattle (docs/BENCHMARKS.md).

// One page more of the epoch.
fn with_page(s: Standby, page: usize) -> Standby
    requires { (s.pages + 1 < 2 ^ 64) × (page + 1 < 2 ^ 64) }
    ensures { result ≡ with_pages_next s (s.pages + 1) (page + 1) }
{
    let mut t = s;
    t.pages = s.pages + 1;
    t.next = page + 1;
    t
}

// The different blocks of the epoch with one more, unless it has that one already.
fn blocks_with(again: bool, blocks: usize) -> usize
    requires { blocks + 1 < 2 ^ 64 }
    ensures { result ≡ blocks_with again blocks }
{
    if again { blocks } else { blocks + 1 }
}

// One BLOCK more of the epoch, staged in its slot and not due.
fn with_block(s: Standby, block: usize, slot: usize) -> Standby
    requires { StageFits s.slots block × (s.blocks + 1 < 2 ^ 64) × (s.records + 1 < 2 ^ 64) × (slot ≡ slot_for s.slots block) }
    ensures { result ≡ staged_state s block }
{
    let slots = staging::with_block(s.slots, block, slot);
    let mut t = s;
    t.slots = slots;
    t.blocks = blocks_with(slot < s.slots.staged, s.blocks);
    t.records = s.records + 1;
    t
}

// The slot of a judged BLOCK; 0 for all others, which need none.
pub(crate) fn slot_of(s: Standby, r: Result<Record, Unread>) -> usize
    requires { SlotFits s r }
    ensures { result ≡ slot_of s r }
{
    match r {
        Ok(Record::Block { block, .. }) => staging::slot_for(s.slots, block),
        _ => 0,
    }
}

// The state without the records of an epoch: its counts, next page and STATE seen are as before the first of them.
pub(crate) fn with_no_records(s: Standby) -> Standby
    ensures { result ≡ with_no_records s }
{
    let mut t = s;
    t.blocks = 0;
    t.records = 0;
    t.pages = 0;
    t.next = 0;
    t.seen = false;
    t
}

// A checkpoint is installed: "keeps the processor state, makes the epoch's staged blocks due"; its epoch is the last
// received.
fn installed_state(s: Standby, epoch: u32) -> Standby
    ensures { result ≡ installed_state s epoch }
{
    let pending = s.pending;
    let due = staging::all_due(s.slots);
    let mut t = s;
    t.received = epoch;
    t.slots = due;
    t.processor = pending;
    t
}

// The state with another detector.
fn with_detector(s: Standby, detector: Detector) -> Standby
    ensures { result ≡ with_detector s detector }
{
    let mut t = s;
    t.detector = detector;
    t
}

// The processor state of a STATE, and that it was seen.
fn with_pending(s: Standby, processor: [u8; 64]) -> Standby
    ensures { result ≡ with_pending_seen s processor }
{
    let mut t = s;
    t.seen = true;
    t.pending = processor;
    t
}

// The state after a record: the count "returns to 0 at each accepted record of kinds 1 to 4", and of 8 and 9. The
// detector is replaced in each arm: where it was replaced before the match, a read of a PAGE of 64 bytes took a third
// longer (docs/BENCHMARKS.md).
pub(crate) fn read_state(
    s: Standby,
    bytes: &[u8],
    r: Result<Record, Unread>,
    slot: usize,
) -> Standby
    requires { StateFits s (length bytes.now) r × (slot ≡ slot_of s r) }
    ensures { result ≡ read_state s bytes.now r }
{
    let detector = detector::reset(s.detector);
    match r {
        Ok(Record::Page { page, .. }) => with_page(with_detector(s, detector), page),
        Ok(Record::Block { block, .. }) => with_block(with_detector(s, detector), block, slot),
        Ok(Record::State { at, .. }) => with_pending(
            with_detector(s, detector),
            processor(bytes, at),
        ),
        Ok(Record::Commit { epoch, .. }) => {
            installed_state(with_no_records(with_detector(s, detector)), epoch)
        }
        Ok(Record::Ack { .. }) | Err(_) => s,
    }
}

// PAGE: the page is staged and marked.
#[tactic(auto, unfolding(lists::specs::Page::with_page))]
fn stage_page(pages: &mut [u8], marks: &mut [u64], u: usize, page: usize, bytes: &[u8])
    requires { (page * u + u ≤ length pages.old) × (length bytes.now ≡ u) }
    ensures pages_after { pages.new ≡ with_page u pages.old page bytes.now }
    ensures marks_after { marks.new ≡ with_mark marks.old page }
{
    lists::copy_into(pages, page * u, bytes);
    marks::mark(marks, page);
}

// COMMIT: "copies the staged pages into memory, clears their marks", "writes the ACK into the first 8 bytes of the
// reply buffer".
fn install(
    memory: &mut [u8],
    pages: &[u8],
    marks: &mut [u64],
    reply: &mut [u8],
    u: usize,
    m: usize,
    epoch: u32,
)
    requires { (length memory.old ≡ m * u) × (length pages.now ≡ m * u) × (8 ≤ length reply.old) }
    ensures memory_after { memory.new ≡ installed memory.old pages.now marks.old u m }
    ensures marks_after { marks.new ≡ cleared marks.old m }
    ensures reply_after { reply.new ≡ put reply.old 0 (ack_record epoch) }
{
    pages::install(memory, pages, marks, u, m);
    marks::clear(marks, m);
    records::writing::write_ack(reply, epoch);
}

// Each lent buffer after a record. They are five parameters, and no struct of them. Tried: lent by &mut, the
// borrow checker has no rule for lending its fields together; by value, the clauses could name its fields by number alone.
#[tactic(auto, unfolding(staging::specs::Slot::with_block_bytes))]
pub(crate) fn apply(
    s: Standby,
    bytes: &[u8],
    memory: &mut [u8],
    pages: &mut [u8],
    marks: &mut [u64],
    blocks: &mut [u8],
    reply: &mut [u8],
    r: Result<Record, Unread>,
    slot: usize,
)
    requires { BuffersFit s (read_lent memory.old pages.old marks.old blocks.old reply.old) (length bytes.now) r × (slot ≡ slot_of s r) }
    ensures memory_after { memory.new ≡ memory_after s memory.old pages.old marks.old r }
    ensures pages_after { pages.new ≡ staged_pages_after s bytes.now pages.old r }
    ensures marks_after { marks.new ≡ staged_marks_after s marks.old r }
    ensures blocks_after { blocks.new ≡ staged_blocks_after s bytes.now blocks.old r }
    ensures reply_after { reply.new ≡ reply_after reply.old r }
{
    let g = s.settings;
    match r {
        Ok(Record::Page { page, at, .. }) => stage_page(pages, marks, g.u, page, field(bytes, at)),
        Ok(Record::Block { at, .. }) => staging::stage_block(blocks, g.u, slot, field(bytes, at)),
        Ok(Record::Commit { epoch, .. }) => {
            install(memory, pages, marks, reply, g.u, g.m, epoch)
        }
        Ok(Record::State { .. }) | Ok(Record::Ack { .. }) | Err(_) => {}
    }
}
