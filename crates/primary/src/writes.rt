// The guest's writes at the primary.
ghost use Rattle.std.specs.Prelude.{◌≡◌, true, false, cond, ◌+◌, ◌*◌, ◌^◌, ◌≤◌, ◌<◌, length, take};
ghost use Rattle.lists.specs.Part.{put};
ghost use Rattle.lists.specs.Select.{is_in};
ghost use Rattle.lists.specs.Page.{with_page};
ghost use Rattle.records.specs.Write.{block_record};
ghost use Rattle.records.specs.Number.{number_in};
ghost use Rattle.settings.specs.Range.{most_allowance};
ghost use Rattle.rules.specs.Blocks.{block_allowed};
ghost use Rattle.rules.specs.PrimaryState.{primary_ok, is_written};
ghost use Rattle.rules.specs.PrimaryWrites.{memory_write_refusal, memory_write_reply, memory_write_memory, memory_write_dirty, disk_write_refusal, with_block_appended, disk_write_state, disk_write_reply, disk_write_disk, disk_write_stream};

use crate::ranges::{memory_ok, primary_ok};
use records::UNIT_RECORD;
use records::refusal::Refusal;
use rules::{Primary, Reply};
use settings::{MOST_ALLOWANCE, MOST_RECORDS};

// Whether a memory write is refused: 1 2 3.
#[tactic(auto, unfolding(rules::specs::PrimaryWrites::memory_write_refusal))]
fn check_memory_write(
    p: Primary,
    memory: usize,
    dirty: usize,
    page: usize,
    offset: usize,
    n: usize,
) -> Result<(), Refusal>
    ensures { number_in result ≡ memory_write_refusal p memory dirty page offset n }
{
    if !memory_ok(p, memory, dirty) {
        return Err(Refusal::OutOfRange);
    }
    if p.settings.m <= page {
        return Err(Refusal::NoSuchUnit);
    }
    if !pages::inside_page(p.settings.u, offset, n) {
        return Err(Refusal::BadSize);
    }
    Ok(())
}

// Writes 1 to U bytes inside one page, which becomes dirty even if its bytes are equal.
pub fn memory_write(
    p: Primary,
    memory: &mut [u8],
    dirty: &mut [u64],
    page: usize,
    offset: usize,
    bytes: &[u8],
) -> Reply<Primary>
    ensures value { result ≡ memory_write_reply p (length memory.old) (length dirty.old) page offset (length bytes.now) }
    ensures memory_after { memory.new ≡ memory_write_memory p memory.old dirty.old page offset bytes.now }
    ensures dirty_after { dirty.new ≡ memory_write_dirty p memory.old dirty.old page offset bytes.now }
{
    if let Err(refusal) = check_memory_write(
        p,
        memory.len(),
        dirty.len(),
        page,
        offset,
        bytes.len(),
    ) {
        return replies::refused(p, refusal);
    }
    pages::write(memory, p.settings.u, page, offset, bytes);
    marks::mark(dirty, page);
    replies::accepted(p, p.epoch as u64)
}

// Whether a block is among the first n of these numbers.
fn is_in(numbers: [u16; MOST_ALLOWANCE], n: usize, block: usize) -> bool
    requires { n ≤ most_allowance }
    ensures { result ≡ is_in block (take n numbers) }
{
    for number in &numbers[..n] {
        if *number as usize == block {
            return true;
        }
    }
    false
}

// Whether the open epoch may have this block: not where it has 65,535 BLOCK records, nor where it has B different
// blocks and this is another one.
#[tactic(auto, using(crate::proofs::RangeLaws::blocks_within))]
fn block_allowed(p: Primary, block: usize) -> bool
    requires { primary_ok p ≡ true }
    ensures { result ≡ block_allowed (is_written p block) p.settings.b p.blocks p.records }
{
    p.records < MOST_RECORDS && (p.blocks < p.settings.b || is_in(p.numbers, p.blocks, block))
}

// Whether a disk write is refused: 1 2 3 14 15; alone neither 14 nor 15.
#[tactic(auto, using(crate::proofs::RangeLaws::disk_fits, crate::proofs::RangeLaws::unit_high, crate::proofs::RangeLaws::waiting_high), unfolding(rules::specs::PrimaryWrites::disk_write_refusal, records::specs::Kind::record_length, records::specs::Kind::body_length))]
fn check_disk_write(
    p: Primary,
    disk: usize,
    stream: usize,
    block: usize,
    n: usize,
) -> Result<(), Refusal>
    ensures { number_in result ≡ disk_write_refusal p disk stream block n }
{
    let g = p.settings;
    if !primary_ok(p) || disk != g.d * g.u || stream != g.l {
        return Err(Refusal::OutOfRange);
    }
    if g.d <= block {
        return Err(Refusal::NoSuchUnit);
    }
    if n != g.u {
        return Err(Refusal::BadSize);
    }
    if p.alone {
        return Ok(());
    }
    if !block_allowed(p, block) {
        return Err(Refusal::AllowanceUsed);
    }
    if g.l < p.waiting + (g.u + UNIT_RECORD) {
        return Err(Refusal::StreamFull);
    }
    Ok(())
}

// The bytes as the block of this number.
fn write_disk(disk: &mut [u8], u: usize, block: usize, bytes: &[u8])
    requires { block * u + length bytes.now ≤ length disk.old }
    ensures { disk.new ≡ with_page u disk.old block bytes.now }
{
    lists::copy_into(disk, block * u, bytes);
}

// A BLOCK into the free end of the outgoing buffer; alone nothing.
fn append_block(
    stream: &mut [u8],
    alone: bool,
    waiting: usize,
    epoch: u32,
    block: usize,
    bytes: &[u8],
)
    requires { (block < 2 ^ 16) × (length bytes.now + 6 < 2 ^ 16) × (alone ≡ false → waiting + (length bytes.now + 10) ≤ length stream.old) }
    ensures { stream.new ≡ cond alone stream.old (put stream.old waiting (block_record epoch block bytes.now)) }
{
    if alone {
        return;
    }
    records::writing::write_block(&mut stream[waiting..], epoch, block, bytes);
}

// One BLOCK more of the open epoch, and its bytes waiting; the number of a block that the epoch did not have is
// remembered.
fn with_block_appended(p: Primary, block: usize) -> Primary
    requires { (primary_ok p ≡ true) × (block < 2 ^ 16) × (block_allowed (is_written p block) p.settings.b p.blocks p.records ≡ true) }
    ensures { result ≡ with_block_appended p block }
{
    let mut next = p;
    next.records += 1;
    next.waiting += p.settings.u + UNIT_RECORD;
    if is_in(p.numbers, p.blocks, block) {
        return next;
    }
    next.numbers[p.blocks] = block as u16;
    next.blocks += 1;
    next
}

// The state after a disk write; alone it stays.
fn disk_write_state(p: Primary, block: usize) -> Primary
    requires { (primary_ok p ≡ true) × (block < 2 ^ 16) × (p.alone ≡ false → block_allowed (is_written p block) p.settings.b p.blocks p.records ≡ true) }
    ensures { result ≡ disk_write_state p block }
{
    if p.alone {
        return p;
    }
    with_block_appended(p, block)
}

// Stores U bytes as a block of the disk and appends a BLOCK to the stream.
pub fn disk_write(
    p: Primary,
    disk: &mut [u8],
    stream: &mut [u8],
    block: usize,
    bytes: &[u8],
) -> Reply<Primary>
    ensures value { result ≡ disk_write_reply p (length disk.old) (length stream.old) block (length bytes.now) }
    ensures disk_after { disk.new ≡ disk_write_disk p disk.old stream.old block bytes.now }
    ensures stream_after { stream.new ≡ disk_write_stream p disk.old stream.old block bytes.now }
{
    if let Err(refusal) = check_disk_write(p, disk.len(), stream.len(), block, bytes.len()) {
        return replies::refused(p, refusal);
    }
    write_disk(disk, p.settings.u, block, bytes);
    append_block(stream, p.alone, p.waiting, p.epoch, block, bytes);
    replies::accepted(disk_write_state(p, block), p.epoch as u64)
}
