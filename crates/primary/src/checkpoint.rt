// The primary's checkpoint.
ghost use Rattle.std.specs.Prelude.{◌≡◌, ◌+◌, ◌*◌, ◌^◌, ◌≤◌, ◌<◌, length};
ghost use Rattle.lists.specs.Part.{PutDone};
ghost use Rattle.records.specs.Kind.{page_kind, number_width, record_length, counts_end};
ghost use Rattle.records.specs.Write.{state_record, commit_record};
ghost use Rattle.records.specs.Number.{number_in};
ghost use Rattle.marks.specs.Mark.{count_marks};
ghost use Rattle.pages.specs.Dirty.{dirty_records};
ghost use Rattle.rules.specs.PrimaryState.{with_epoch_waiting};
ghost use Rattle.rules.specs.Checkpoint.{dirty_count, checkpoint_length, checkpoint_bytes, checkpoint_refusal, checkpoint_number, checkpoint_reply, checkpoint_dirty, checkpoint_stream};

use crate::ranges::memory_ok;
use records::kinds::{is_wide, number_end};
use records::refusal::Refusal;
use rules::{Primary, Reply};
use settings::{MOST_EPOCH, checkpoint_end};

// The bytes of a checkpoint of this many dirty pages.
fn checkpoint_length(u: usize, wide: bool, pages: usize) -> usize
    requires { (u ≤ 4096) × (pages ≤ 65536) }
    ensures { result ≡ checkpoint_length u wide pages }
{
    pages * (u + number_end(wide)) + checkpoint_end(wide)
}

// Whether a checkpoint of this many dirty pages is refused: 1 13 15 19.
#[tactic(auto, using(crate::proofs::RangeLaws::unit_high, crate::proofs::RangeLaws::pages_high, crate::proofs::RangeLaws::waiting_high, crate::proofs::AppendLaws::checkpoint_length_le), unfolding(rules::specs::Checkpoint::checkpoint_refusal))]
fn check_checkpoint(
    p: Primary,
    memory: usize,
    dirty: usize,
    stream: usize,
    pages: usize,
) -> Result<(), Refusal>
    requires { pages ≤ p.settings.m }
    ensures { number_in result ≡ checkpoint_refusal p memory dirty stream pages }
{
    let g = p.settings;
    if !memory_ok(p, memory, dirty) || stream != g.l {
        return Err(Refusal::OutOfRange);
    }
    if p.alone {
        return Err(Refusal::WrongMode);
    }
    if g.l < p.waiting + checkpoint_length(g.u, is_wide(g.m), pages) {
        return Err(Refusal::StreamFull);
    }
    if MOST_EPOCH <= p.epoch {
        return Err(Refusal::LastEpoch);
    }
    Ok(())
}

// The dirty pages into the free end of the outgoing buffer, from at on; the position behind them.
fn append_pages(
    stream: &mut [u8],
    at: usize,
    memory: &[u8],
    dirty: &[u64],
    wide: bool,
    u: usize,
    epoch: u32,
    m: usize,
) -> usize
    requires { (length memory.now ≡ m * u) × (m ≤ 256 ^ number_width wide) × (u + (4 + number_width wide) < 2 ^ 16) × (at + count_marks dirty.now m * record_length u (page_kind wide) ≤ length stream.old) }
    ensures { PutDone (dirty_records memory.now dirty.now wide u epoch m) stream.old at stream.new result }
{
    let n = pages::write_dirty(&mut stream[at..], memory, dirty, wide, u, epoch, m);
    at + n
}

// STATE, from at on; the position behind it.
fn append_state(stream: &mut [u8], at: usize, epoch: u32, processor: [u8; 64]) -> usize
    requires { at + 72 ≤ length stream.old }
    ensures { PutDone (state_record epoch processor) stream.old at stream.new result }
{
    let n = records::writing::write_state(&mut stream[at..], epoch, &processor);
    at + n
}

// COMMIT with the counts, from at on; the position behind it.
fn append_commit(
    stream: &mut [u8],
    at: usize,
    wide: bool,
    epoch: u32,
    pages: usize,
    blocks: usize,
) -> usize
    requires { (pages < 256 ^ number_width wide) × (blocks < 256 ^ number_width wide) × (at + counts_end wide ≤ length stream.old) }
    ensures { PutDone (commit_record wide epoch pages blocks) stream.old at stream.new result }
{
    let n = records::writing::write_commit(&mut stream[at..], wide, epoch, pages, blocks);
    at + n
}

// The dirty pages, STATE and COMMIT behind what is waiting; the bytes then waiting.
fn append_checkpoint(
    p: Primary,
    memory: &[u8],
    dirty: &[u64],
    stream: &mut [u8],
    pages: usize,
    processor: [u8; 64],
) -> usize
    requires { (checkpoint_number p memory.now dirty.now stream.old ≡ 0) × (pages ≡ dirty_count p dirty.now) }
    ensures { PutDone (checkpoint_bytes p memory.now dirty.now processor) stream.old p.waiting stream.new result }
{
    let g = p.settings;
    let wide = is_wide(g.m);
    let state = append_pages(stream, p.waiting, memory, dirty, wide, g.u, p.epoch, g.m);
    let commit = append_state(stream, state, p.epoch, processor);
    append_commit(stream, commit, wide, p.epoch, pages, p.records)
}

// Another open epoch, of which no block is written yet: of the numbers, which stay, none counts.
fn with_epoch_waiting(p: Primary, epoch: u32, waiting: usize) -> Primary
    ensures { result ≡ with_epoch_waiting p epoch waiting }
{
    Primary {
        epoch,
        blocks: 0,
        records: 0,
        waiting,
        ..p
    }
}

// Appends every dirty page, STATE and COMMIT, clears the marks and opens the next epoch.
pub fn checkpoint(
    p: Primary,
    memory: &[u8],
    dirty: &mut [u64],
    stream: &mut [u8],
    processor: [u8; 64],
) -> Reply<Primary>
    ensures value { result ≡ checkpoint_reply p (length memory.now) (length dirty.old) (length stream.old) (dirty_count p dirty.old) }
    ensures dirty_after { dirty.new ≡ checkpoint_dirty p memory.now dirty.old stream.old }
    ensures stream_after { stream.new ≡ checkpoint_stream p memory.now dirty.old stream.old processor }
{
    let m = p.settings.m;
    let pages = marks::count(dirty, m);
    if let Err(refusal) = check_checkpoint(p, memory.len(), dirty.len(), stream.len(), pages) {
        return replies::refused(p, refusal);
    }
    let waiting = append_checkpoint(p, memory, dirty, stream, pages, processor);
    marks::clear(dirty, m);
    replies::accepted(with_epoch_waiting(p, p.epoch + 1, waiting), p.epoch as u64)
}
