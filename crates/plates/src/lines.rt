// A record in words, as its plate says.
ghost use Rattle.std.specs.Prelude.{◌≡◌, ◌++◌, ◌+◌, ◌≤◌, length};
ghost use Rattle.lists.specs.Part.{PutDone};
ghost use Rattle.text.specs.Ascii.{ascii};
ghost use Rattle.text.specs.Decimal.{decimal};
ghost use Rattle.records.specs.Read.{kind_of};
ghost use Rattle.plates.specs.Words.{name_of, fields_of, record_line};

use records::reading::{kind_of, used_of};
use records::{Record, Unread};
use text::printing::{put_byte, put_number, put_text};

// The place that each line of some bytes begins with.
pub(crate) fn put_place(out: &mut [u8], at: usize, place: usize) -> usize
    requires { at + 25 ≤ length out.old }
    ensures put_done { PutDone (ascii "at " ++ decimal place ++ ascii ": ") out.old at out.new result }
    ensures upper_bound { result ≤ at + 25 }
{
    let a = put_text(out, at, b"at ");
    let b = put_number(out, a, place as u64);
    put_text(out, b, b": ")
}

fn put_name(out: &mut [u8], at: usize, r: Result<Record, Unread>) -> usize
    requires { at + 6 ≤ length out.old }
    ensures put_done { PutDone (name_of r) out.old at out.new result }
    ensures upper_bound { result ≤ at + 6 }
{
    match r {
        Ok(Record::Page { .. }) => put_text(out, at, b"PAGE"),
        Ok(Record::Block { .. }) => put_text(out, at, b"BLOCK"),
        Ok(Record::State { .. }) => put_text(out, at, b"STATE"),
        Ok(Record::Commit { .. }) => put_text(out, at, b"COMMIT"),
        Ok(Record::Ack { .. }) => put_text(out, at, b"ACK"),
        Err(_) => at,
    }
}

fn put_epoch(out: &mut [u8], at: usize, epoch: u32) -> usize
    requires { at + 28 ≤ length out.old }
    ensures put_done { PutDone (ascii ", epoch " ++ decimal epoch) out.old at out.new result }
    ensures upper_bound { result ≤ at + 28 }
{
    let a = put_text(out, at, b", epoch ");
    put_number(out, a, epoch as u64)
}

// The epoch and a number behind a word: a page's or a block's.
fn put_numbered(out: &mut [u8], at: usize, epoch: u32, word: &[u8], number: usize) -> usize
    requires { (length word.now ≤ 9) × (at + 85 ≤ length out.old) }
    ensures put_done { PutDone (ascii ", epoch " ++ decimal epoch ++ word.now ++ decimal number) out.old at out.new result }
    ensures upper_bound { result ≤ at + 85 }
{
    let a = put_epoch(out, at, epoch);
    let b = put_text(out, a, word);
    put_number(out, b, number as u64)
}

fn put_commit(out: &mut [u8], at: usize, epoch: u32, pages: usize, blocks: usize) -> usize
    requires { at + 85 ≤ length out.old }
    ensures put_done { PutDone (ascii ", epoch " ++ decimal epoch ++ ascii ", pages " ++ decimal pages ++ ascii ", blocks " ++ decimal blocks) out.old at out.new result }
    ensures upper_bound { result ≤ at + 85 }
{
    let a = put_epoch(out, at, epoch);
    let b = put_text(out, a, b", pages ");
    let c = put_number(out, b, pages as u64);
    let d = put_text(out, c, b", blocks ");
    put_number(out, d, blocks as u64)
}

fn put_fields(out: &mut [u8], at: usize, r: Result<Record, Unread>) -> usize
    requires { at + 85 ≤ length out.old }
    ensures put_done { PutDone (fields_of r) out.old at out.new result }
    ensures upper_bound { result ≤ at + 85 }
{
    match r {
        Ok(Record::Page { epoch, page, .. }) => put_numbered(out, at, epoch, b", page ", page),
        Ok(Record::Block { epoch, block, .. }) => put_numbered(out, at, epoch, b", block ", block),
        Ok(Record::State { epoch, .. }) => put_epoch(out, at, epoch),
        Ok(
            Record::Commit {
                epoch,
                pages,
                blocks,
                ..
            },
        ) => put_commit(out, at, epoch, pages, blocks),
        Ok(Record::Ack { epoch, .. }) => put_epoch(out, at, epoch),
        Err(_) => at,
    }
}

// Its name and kind.
fn put_kind(out: &mut [u8], at: usize, r: Result<Record, Unread>) -> usize
    requires { at + 34 ≤ length out.old }
    ensures put_done { PutDone (name_of r ++ ascii " (kind " ++ decimal (kind_of r) ++ ascii ")") out.old at out.new result }
    ensures upper_bound { result ≤ at + 34 }
{
    let kind = kind_of(r);
    let a = put_name(out, at, r);
    let b = put_text(out, a, b" (kind ");
    let c = put_number(out, b, kind);
    put_text(out, c, b")")
}

// The line of a record at a place, at most 173 bytes.
pub(crate) fn put_record(
    out: &mut [u8],
    at: usize,
    place: usize,
    r: Result<Record, Unread>,
) -> usize
    requires { at + 176 ≤ length out.old }
    ensures put_done { PutDone (record_line place r) out.old at out.new result }
    ensures upper_bound { result ≤ at + 176 }
{
    let used = used_of(r);
    let a = put_place(out, at, place);
    let b = put_kind(out, a, r);
    let c = put_fields(out, b, r);
    let d = put_text(out, c, b", ");
    let e = put_number(out, d, used as u64);
    let f = put_text(out, e, b" bytes");
    put_byte(out, f, b'\n')
}
