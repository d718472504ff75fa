// What a record is refused with: the record that an accepted read finds, else cut short or the number. That the state
// is in its ranges is a clause of three private functions, and no struct of its own: they are called behind that test alone, and
// would make one for each to take apart.
ghost use Rattle.std.specs.Prelude.{◌≡◌, true, ◌≤◌, Ok};
ghost use Rattle.records.specs.Number.{number_in};
ghost use Rattle.settings.specs.Range.{most_slots};
ghost use Rattle.staging.specs.Slot.{is_staged};
ghost use Rattle.rules.specs.StandbyState.{standby_ok};
ghost use Rattle.rules.specs.Judge.{read_lent_ok, free_for, page_refusal, block_refusal, state_refusal, commit_refusal, record_refusal, judged};

use crate::ranges;
use records::kinds::is_wide;
use records::refusal::Refusal;
use records::{EPOCH_RECORD, Reader, Record, Unread};
use rules::{ReadLent, Standby};
use settings::MOST_RECORDS;
use staging::Slots;

// PAGE: 2 8 9. The epoch is compared in 64 bits, so that the last received epoch may be the last that there is.
#[tactic(auto, unfolding(rules::specs::Judge::page_refusal))]
fn check_page(s: Standby, epoch: u32, page: usize) -> Result<(), Refusal>
    ensures { number_in result ≡ page_refusal s epoch page }
{
    if s.settings.m <= page {
        return Err(Refusal::NoSuchUnit);
    }
    if epoch as u64 != s.received as u64 + 1 {
        return Err(Refusal::BadEpoch);
    }
    if page < s.next || page < s.pages || s.seen {
        return Err(Refusal::OutOfOrder);
    }
    Ok(())
}

// Whether the epoch that is being received has this block already.
fn is_staged(k: Slots, block: usize) -> bool
    requires { (k.due ≤ k.staged) × (k.staged ≤ most_slots) }
    ensures { result ≡ is_staged k block }
{
    staging::slot_for(k, block) < k.staged
}

// BLOCK: 2 8 9 14 17.
#[tactic(auto, using(crate::proofs::FitsLaws::slots_within), unfolding(rules::specs::Judge::block_refusal))]
fn check_block(s: Standby, epoch: u32, block: usize) -> Result<(), Refusal>
    requires { standby_ok s ≡ true }
    ensures { number_in result ≡ block_refusal s (free_for s) epoch block }
{
    let g = s.settings;
    let free = staging::free_slots(s.slots, g.s);
    if g.d <= block {
        return Err(Refusal::NoSuchUnit);
    }
    if epoch as u64 != s.received as u64 + 1 {
        return Err(Refusal::BadEpoch);
    }
    if s.next != 0 || s.pages != 0 || s.seen {
        return Err(Refusal::OutOfOrder);
    }
    if MOST_RECORDS <= s.records {
        return Err(Refusal::AllowanceUsed);
    }
    // the slots are looked at only where another block would be refused
    if (s.blocks < g.b && free != 0) || is_staged(s.slots, block) {
        return Ok(());
    }
    if g.b <= s.blocks {
        return Err(Refusal::AllowanceUsed);
    }
    Err(Refusal::SlotsFull)
}

// STATE: 8 9.
#[tactic(auto, unfolding(rules::specs::Judge::state_refusal))]
fn check_state(s: Standby, epoch: u32) -> Result<(), Refusal>
    ensures { number_in result ≡ state_refusal s epoch }
{
    if epoch as u64 != s.received as u64 + 1 {
        return Err(Refusal::BadEpoch);
    }
    if s.seen {
        return Err(Refusal::OutOfOrder);
    }
    Ok(())
}

// COMMIT: 5 8 9 10.
#[tactic(auto, unfolding(rules::specs::Judge::commit_refusal, records::specs::Kind::record_length, records::specs::Kind::body_length))]
fn check_commit(
    s: Standby,
    reply: usize,
    epoch: u32,
    pages: usize,
    blocks: usize,
) -> Result<(), Refusal>
    ensures { number_in result ≡ commit_refusal s reply epoch pages blocks }
{
    if reply < EPOCH_RECORD {
        return Err(Refusal::NoRoom);
    }
    if epoch as u64 != s.received as u64 + 1 {
        return Err(Refusal::BadEpoch);
    }
    if !s.seen {
        return Err(Refusal::OutOfOrder);
    }
    if pages != s.pages || blocks != s.records {
        return Err(Refusal::BadCounts);
    }
    Ok(())
}

// Whether a record that was read is refused, by its kind: 6 for other kinds.
fn check_record(s: Standby, reply: usize, r: Record) -> Result<(), Refusal>
    requires { standby_ok s ≡ true }
    ensures { number_in result ≡ record_refusal s reply (Ok r) }
{
    match r {
        Record::Page { epoch, page, .. } => check_page(s, epoch, page),
        Record::Block { epoch, block, .. } => check_block(s, epoch, block),
        Record::State { epoch, .. } => check_state(s, epoch),
        Record::Commit {
            epoch,
            pages,
            blocks,
            ..
        } => check_commit(s, reply, epoch, pages, blocks),
        Record::Ack { .. } => Err(Refusal::BadKind),
    }
}

// "Lent lengths are exact", of a state in its ranges, so that no product wraps. The reply buffer may be of any length.
#[tactic(auto, using(crate::proofs::FitsLaws::memory_fits, crate::proofs::FitsLaws::slots_fit), unfolding(rules::specs::Judge::read_lent_ok))]
fn lent_ok(s: Standby, l: ReadLent) -> bool
    requires { standby_ok s ≡ true }
    ensures { result ≡ read_lent_ok s l }
{
    let g = s.settings;
    let memory = g.m * g.u;
    (l.memory == memory)
        & (l.pages == memory)
        & (l.marks == g.m.div_ceil(64))
        & (l.blocks == g.s * g.u)
}

// The record at the head of the bytes where it is accepted, else cut short or the number.
#[tactic(auto, unfolding(rules::specs::Judge::judged))]
pub(crate) fn judged(s: Standby, l: ReadLent, bytes: &[u8]) -> Result<Record, Unread>
    ensures { result ≡ judged s l bytes.now }
{
    if !ranges::standby_ok(s) || !lent_ok(s, l) {
        return Err(Refusal::OutOfRange.into());
    }
    if !ranges::is_receiving(s.mode) {
        return Err(Refusal::WrongMode.into());
    }
    let reader = Reader::Standby {
        wide: is_wide(s.settings.m),
    };
    // What was read is handed back whole: by `?` it was taken apart and made again, 20 instructions more at each read.
    let r = records::reading::read(reader, s.settings.u, bytes);
    if let Ok(record) = r {
        if let Err(refusal) = check_record(s, l.reply, record) {
            return Err(refusal.into());
        }
    }
    r
}
