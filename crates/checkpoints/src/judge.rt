// What the next record of a file is refused with, by what is kept of those before it.
ghost use Rattle.std.specs.Prelude.{◌≡◌, [], length, Ok};
ghost use Rattle.lists.specs.Refusal.{refusal};
ghost use Rattle.lists.specs.Select.{place_in, is_in};
ghost use Rattle.records.specs.Number.{number_in};
ghost use Rattle.rules.specs.Blocks.{block_allowed};
ghost use Rattle.checkpoints.specs.Judge.{is_of_epoch, page_tests, block_tests, state_tests, commit_tests};
ghost use Rattle.checkpoints.specs.Scan.{known_as, numbers_of, record_refusal, judged};

use crate::{Counts, FileSettings, KeptBlock};
use records::kinds::is_wide;
use records::refusal::Refusal;
use records::{Reader, Record, Unread};
use settings::MOST_RECORDS;

// The place of block n among these; where none of them is n, how many they are.
pub(crate) fn place_in(blocks: &[KeptBlock], n: usize) -> usize
    ensures { result ≡ place_in n (numbers_of blocks.now) }
{
    blocks
        .iter()
        .position(|block| block.number == n)
        .unwrap_or(blocks.len())
}

// Whether a record has the epoch of the first, or is the first.
fn is_of_epoch(k: Counts, epoch: u32) -> bool
    ensures { result ≡ is_of_epoch (known_as k []) epoch }
{
    k.epoch.is_none_or(|first| epoch == first)
}

// PAGE: 2 8 9.
fn check_page(g: FileSettings, k: Counts, epoch: u32, page: usize) -> Result<(), Refusal>
    ensures { number_in result ≡ refusal (page_tests g (known_as k []) epoch page) }
{
    if g.m <= page {
        return Err(Refusal::NoSuchUnit);
    }
    if !is_of_epoch(k, epoch) {
        return Err(Refusal::BadEpoch);
    }
    if page < k.next || k.seen {
        return Err(Refusal::OutOfOrder);
    }
    Ok(())
}

// Whether block n is one of these.
fn is_in(blocks: &[KeptBlock], n: usize) -> bool
    ensures { result ≡ is_in n (numbers_of blocks.now) }
{
    blocks.iter().any(|block| block.number == n)
}

// Whether the allowance has room for this BLOCK. The blocks are looked at only where another one would be refused.
fn is_allowed(g: FileSettings, k: Counts, blocks: &[KeptBlock], block: usize) -> bool
    ensures { result ≡ block_allowed (is_in block (numbers_of blocks.now)) g.b (length (numbers_of blocks.now)) k.records }
{
    k.records < MOST_RECORDS && (blocks.len() < g.b || is_in(blocks, block))
}

// BLOCK: 2 8 9 14.
fn check_block(
    g: FileSettings,
    k: Counts,
    blocks: &[KeptBlock],
    epoch: u32,
    block: usize,
) -> Result<(), Refusal>
    ensures { number_in result ≡ refusal (block_tests g (known_as k (numbers_of blocks.now)) (is_in block (numbers_of blocks.now)) epoch block) }
{
    if g.d <= block {
        return Err(Refusal::NoSuchUnit);
    }
    if !is_of_epoch(k, epoch) {
        return Err(Refusal::BadEpoch);
    }
    if k.pages != 0 || k.seen {
        return Err(Refusal::OutOfOrder);
    }
    if !is_allowed(g, k, blocks, block) {
        return Err(Refusal::AllowanceUsed);
    }
    Ok(())
}

// STATE: 8 9.
fn check_state(k: Counts, epoch: u32) -> Result<(), Refusal>
    ensures { number_in result ≡ refusal (state_tests (known_as k []) epoch) }
{
    if !is_of_epoch(k, epoch) {
        return Err(Refusal::BadEpoch);
    }
    if k.seen {
        return Err(Refusal::OutOfOrder);
    }
    Ok(())
}

// COMMIT: 8 9 10.
fn check_commit(k: Counts, epoch: u32, pages: usize, blocks: usize) -> Result<(), Refusal>
    ensures { number_in result ≡ refusal (commit_tests (known_as k []) epoch pages blocks) }
{
    if !is_of_epoch(k, epoch) {
        return Err(Refusal::BadEpoch);
    }
    if !k.seen {
        return Err(Refusal::OutOfOrder);
    }
    if pages != k.pages || blocks != k.records {
        return Err(Refusal::BadCounts);
    }
    Ok(())
}

// A record that was read, by its kind: 6 for an ACK, which is not for this reader.
fn check_record(g: FileSettings, k: Counts, blocks: &[KeptBlock], r: Record) -> Result<(), Refusal>
    ensures { number_in result ≡ record_refusal g (known_as k (numbers_of blocks.now)) (Ok r) }
{
    match r {
        Record::Page { epoch, page, .. } => check_page(g, k, epoch, page),
        Record::Block { epoch, block, .. } => check_block(g, k, blocks, epoch, block),
        Record::State { epoch, .. } => check_state(k, epoch),
        Record::Commit {
            epoch,
            pages,
            blocks,
            ..
        } => check_commit(k, epoch, pages, blocks),
        Record::Ack { .. } => Err(Refusal::BadKind),
    }
}

// The record at the head of the rest where it is accepted, else cut short or the number; the blocks are those so far.
pub(crate) fn judged(
    g: FileSettings,
    k: Counts,
    blocks: &[KeptBlock],
    rest: &[u8],
) -> Result<Record, Unread>
    ensures { result ≡ judged g (known_as k (numbers_of blocks.now)) rest.now }
{
    let reader = Reader::Standby { wide: is_wide(g.m) };
    let r = records::reading::read(reader, g.u, rest)?;
    check_record(g, k, blocks, r)?;
    Ok(r)
}
