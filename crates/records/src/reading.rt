// Reading one record: what stands at the head of some bytes, for a reader.
ghost use Rattle.std.specs.Prelude.{◌≡◌, ◌+◌, ◌≤◌, true, length, Ok};
ghost use Rattle.lists.specs.LittleEndian.{le_at};
ghost use Rattle.records.specs.Kind.{unit_ok, page_kind, commit_kind, number_width, body_length, record_length, is_for};
ghost use Rattle.records.specs.Read.{page_at, commit_at, fields_of, read_record, number_of, other_refusal, kind_of, value_of, used_of};

use crate::kinds::{commit_kind, commit_length, is_for, number_end, page_kind};
use crate::refusal::Refusal;
use crate::{
    ACK, BLOCK, COMMIT, COMMIT_BODY, CUT_SHORT, Cursor, EPOCH_BODY, EPOCH_RECORD, HEADER_LENGTH,
    LEAST_UNIT, MOST_UNIT, PAGE, Reader, Record, STATE, STATE_BODY, STATE_RECORD, UNIT_BODY,
    UNIT_RECORD, Unread, WIDE_COMMIT, WIDE_COMMIT_BODY, WIDE_PAGE, WIDE_PAGE_BODY,
};
use lists::field::get;

// Whether U is in its range.
#[tactic(auto, unfolding(crate::specs::Kind::unit_ok))]
pub fn unit_ok(u: usize) -> bool
    ensures { result ≡ unit_ok u }
{
    LEAST_UNIT <= u && u <= MOST_UNIT && u % LEAST_UNIT == 0
}

// The length of the body of a kind that the record test passes.
fn body_length(u: usize, kind: u32) -> usize
    requires { (u ≤ 4096) × (is_for Reader.Test kind ≡ true) }
    ensures { result ≡ body_length u kind }
{
    let unit = u + UNIT_BODY;
    match kind {
        PAGE => unit,
        BLOCK => unit,
        STATE => STATE_BODY,
        COMMIT => COMMIT_BODY,
        WIDE_PAGE => u + WIDE_PAGE_BODY,
        WIDE_COMMIT => WIDE_COMMIT_BODY,
        _ => EPOCH_BODY,
    }
}

// A page number, or a count.
fn number_at(s: &[u8], at: usize, wide: bool) -> usize
    requires { at + number_width wide ≤ length s.now }
    ensures { result ≡ le_at (number_width wide) s.now at }
{
    if wide {
        get::<4>(s, at) as usize
    } else {
        get::<2>(s, at) as usize
    }
}

fn page_at(u: usize, wide: bool, s: &[u8]) -> Record
    requires { (u ≤ 4096) × (record_length u (page_kind wide) ≤ length s.now) }
    ensures { Ok result ≡ page_at u wide s.now }
{
    let start = number_end(wide);
    Record::Page {
        wide,
        epoch: get::<4>(s, 4),
        page: number_at(s, EPOCH_RECORD, wide),
        at: Cursor {
            start,
            end: u + start,
        },
    }
}

fn commit_at(u: usize, wide: bool, s: &[u8]) -> Record
    requires { record_length u (commit_kind wide) ≤ length s.now }
    ensures { Ok result ≡ commit_at u wide s.now }
{
    let end = commit_length(wide);
    Record::Commit {
        wide,
        epoch: get::<4>(s, 4),
        pages: number_at(s, EPOCH_RECORD, wide),
        blocks: number_at(s, number_end(wide), wide),
        at: Cursor { start: end, end },
    }
}

// The record of a kind whose bytes are all there.
fn fields(u: usize, kind: u32, s: &[u8]) -> Record
    requires { (u ≤ 4096) × (is_for Reader.Test kind ≡ true) × (record_length u kind ≤ length s.now) }
    ensures { Ok result ≡ fields_of u kind s.now }
{
    let epoch = get::<4>(s, 4);
    match kind {
        PAGE => page_at(u, false, s),
        BLOCK => Record::Block {
            epoch,
            block: get::<2>(s, 8) as usize,
            at: Cursor {
                start: UNIT_RECORD,
                end: u + UNIT_RECORD,
            },
        },
        STATE => Record::State {
            epoch,
            at: Cursor {
                start: EPOCH_RECORD,
                end: STATE_RECORD,
            },
        },
        COMMIT => commit_at(u, false, s),
        WIDE_PAGE => page_at(u, true, s),
        WIDE_COMMIT => commit_at(u, true, s),
        _ => Record::Ack {
            epoch,
            at: Cursor {
                start: EPOCH_RECORD,
                end: EPOCH_RECORD,
            },
        },
    }
}

// What stands at the head of s. In this order: 1, header incomplete, 6 for this reader, 7, body incomplete, the record.
// What is incomplete says how many bytes are missing of it.
pub fn read(reader: Reader, u: usize, s: &[u8]) -> Result<Record, Unread>
    ensures { result ≡ read_record reader u s.now }
{
    if !unit_ok(u) {
        return Err(Unread::from(Refusal::OutOfRange));
    }
    if s.len() < HEADER_LENGTH {
        return Err(Unread::Short {
            missing: HEADER_LENGTH - s.len(),
        });
    }
    let length = get::<2>(s, 0) as usize;
    let kind = get::<2>(s, 2);
    if !is_for(reader, kind) {
        return Err(Unread::from(Refusal::BadKind));
    }
    let n = body_length(u, kind);
    if length != n {
        return Err(Unread::from(Refusal::BadLength));
    }
    let whole = HEADER_LENGTH + n;
    if s.len() < whole {
        return Err(Unread::Short {
            missing: whole - s.len(),
        });
    }
    Ok(fields(u, kind, s))
}

// The paper's number of an answer: 0 accepted, the named number of cut short, or the refusal's.
pub fn number_of(r: Result<Record, Unread>) -> u64
    ensures { result ≡ number_of r }
{
    match r {
        Ok(_) => 0,
        Err(Unread::Short { .. }) => CUT_SHORT,
        Err(Unread::Refused { number }) => number,
    }
}

// The number of a record of another kind than its reader takes: 6; what is cut short has nothing more to be refused for.
pub fn other_refusal(r: Result<Record, Unread>) -> u64
    ensures { result ≡ other_refusal r }
{
    match r {
        Ok(_) => Refusal::BadKind.number(),
        Err(Unread::Short { .. }) => 0,
        Err(Unread::Refused { number }) => number,
    }
}

pub fn kind_of(r: Result<Record, Unread>) -> u64
    ensures { result ≡ kind_of r }
{
    match r {
        Ok(Record::Page { wide, .. }) => page_kind(wide) as u64,
        Ok(Record::Block { .. }) => BLOCK as u64,
        Ok(Record::State { .. }) => STATE as u64,
        Ok(Record::Commit { wide, .. }) => commit_kind(wide) as u64,
        Ok(Record::Ack { .. }) => ACK as u64,
        Err(_) => 0,
    }
}

// The value of a read: the record's own kind, and for an ACK its epoch; 0 where there is no record.
pub fn value_of(r: Result<Record, Unread>) -> u64
    ensures { result ≡ value_of r }
{
    match r {
        Ok(Record::Ack { epoch, .. }) => epoch as u64,
        _ => kind_of(r),
    }
}

// The bytes that an answer used.
pub fn used_of(r: Result<Record, Unread>) -> usize
    ensures { result ≡ used_of r }
{
    match r {
        Ok(Record::Page { at, .. })
        | Ok(Record::Block { at, .. })
        | Ok(Record::State { at, .. })
        | Ok(Record::Commit { at, .. })
        | Ok(Record::Ack { at, .. }) => at.end,
        Err(_) => 0,
    }
}
