// Going through the records of a file, in turn, up to its COMMIT.
ghost use Rattle.std.specs.Prelude.{◌≡◌, true, ◌+◌, ◌^◌, ◌≤◌, ◌<◌, ltb, length, set, Ok, Some};
ghost use Rattle.checkpoints.specs.Scan.{numbers_of, places_of, epoch_with, count_page, count_block, count_state, slot_in, counts_with, numbers_with, places_with, scan_of, scanned_in};
ghost use Rattle.checkpoints.specs.Saving.{file_settings_ok};
ghost use Rattle.checkpoints.specs.ScanFits.{TurnFits};

use crate::judge::{judged, place_in};
use crate::{Counts, FileSettings, KeptBlock, Scanned};
use records::reading::used_of;
use records::{Record, Unread};

// The epoch of the first record.
fn epoch_with(k: Counts, epoch: u32) -> Option<u32>
    ensures { result ≡ Some (epoch_with k epoch) }
{
    k.epoch.or(Some(epoch))
}

// One page more.
fn count_page(k: Counts, epoch: u32, page: usize) -> Counts
    requires { (k.pages + 1 < 2 ^ 64) × (page + 1 < 2 ^ 64) }
    ensures { result ≡ count_page k epoch page }
{
    Counts {
        epoch: epoch_with(k, epoch),
        pages: k.pages + 1,
        next: page + 1,
        ..k
    }
}

// One BLOCK more, of another block unless it is `again` one that came before.
fn count_block(k: Counts, again: bool, epoch: u32) -> Counts
    requires { (k.blocks + 1 < 2 ^ 64) × (k.records + 1 < 2 ^ 64) }
    ensures { result ≡ count_block k again epoch }
{
    Counts {
        epoch: epoch_with(k, epoch),
        blocks: if again { k.blocks } else { k.blocks + 1 },
        records: k.records + 1,
        ..k
    }
}

// STATE.
fn count_state(k: Counts, epoch: u32) -> Counts
    ensures { result ≡ count_state k epoch }
{
    Counts {
        epoch: epoch_with(k, epoch),
        seen: true,
        ..k
    }
}

// Keeps a block's number, and where its bytes begin, in the slot of its number; whether the block came before.
fn keep_block(blocks: &mut [KeptBlock], count: usize, number: usize, place: usize) -> bool
    requires { (count ≤ length blocks.old) × (slot_in count (numbers_of blocks.old) number < length blocks.old) }
    ensures { (result ≡ ltb (slot_in count (numbers_of blocks.old) number) count) × (numbers_of blocks.new ≡ set (numbers_of blocks.old) (slot_in count (numbers_of blocks.old) number) number) × (places_of blocks.new ≡ set (places_of blocks.old) (slot_in count (numbers_of blocks.old) number) place) }
{
    let slot = place_in(&blocks[..count], number);
    blocks[slot] = KeptBlock { number, place };
    slot < count
}

// What is kept with a record that another has to follow; a COMMIT is counted nowhere.
fn kept_with(k: Counts, blocks: &mut [KeptBlock], at: usize, r: Record) -> Counts
    requires { TurnFits k (numbers_of blocks.old) (places_of blocks.old) at (Ok r) }
    ensures { (result ≡ counts_with k (numbers_of blocks.old) (Ok r)) × (numbers_of blocks.new ≡ numbers_with k.blocks (numbers_of blocks.old) (Ok r)) × (places_of blocks.new ≡ places_with k.blocks (numbers_of blocks.old) (places_of blocks.old) at (Ok r)) }
{
    match r {
        Record::Page { epoch, page, .. } => count_page(k, epoch, page),
        Record::Block {
            epoch,
            block,
            at: field,
        } => {
            let again = keep_block(blocks, k.blocks, block, at + field.start);
            count_block(k, again, epoch)
        }
        Record::State { epoch, .. } => count_state(k, epoch),
        Record::Commit { .. } | Record::Ack { .. } => k,
    }
}

// The records in turn, up to the COMMIT or what is cut short or refused.
pub(crate) fn scan(
    g: FileSettings,
    file: &[u8],
    blocks: &mut [KeptBlock],
) -> Result<Scanned, Unread>
    requires { (file_settings_ok g ≡ true) × (length blocks.old ≡ 64) }
    ensures { (result ≡ scanned_in (scan_of g file.now (numbers_of blocks.old) (places_of blocks.old))) × (numbers_of blocks.new ≡ (scan_of g file.now (numbers_of blocks.old) (places_of blocks.old)).numbers) × (places_of blocks.new ≡ (scan_of g file.now (numbers_of blocks.old) (places_of blocks.old)).places) }
{
    let mut k = Counts::default();
    let mut at = 0;
    loop {
        let r = judged(g, k, &blocks[..k.blocks], &file[at..])?;
        let end = at + used_of(Ok(r));
        if let Record::Commit { .. } = r {
            return Ok(Scanned { counts: k, end });
        }
        k = kept_with(k, blocks, at, r);
        at = end;
    }
}
