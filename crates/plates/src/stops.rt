// What stops the reading of records, in words.
ghost use Rattle.std.specs.Prelude.{◌≡◌, true, cond, ◌++◌, ◌+◌, ◌≤◌, leb, eqb, length};
ghost use Rattle.lists.specs.Part.{PutDone};
ghost use Rattle.text.specs.Ascii.{ascii};
ghost use Rattle.text.specs.Decimal.{decimal};
ghost use Rattle.records.specs.Number.{bad_length};
ghost use Rattle.records.specs.Kind.{unit_ok, header_length};
ghost use Rattle.records.specs.Read.{read_record, used_of};
ghost use Rattle.plates.specs.Words.{end_line, short_line, refused_line};
ghost use Rattle.plates.specs.Plate.{plates_from};

use crate::lines::put_place;
use lists::field::get;
use records::reading::read;
use records::refusal::Refusal;
use records::{HEADER_LENGTH, Reader, Unread};
use text::printing::{put_byte, put_number, put_text};

// No bytes are left.
fn put_end(out: &mut [u8], at: usize, place: usize) -> usize
    requires { at + 176 ≤ length out.old }
    ensures put_done { PutDone (end_line place) out.old at out.new result }
    ensures upper_bound { result ≤ at + 176 }
{
    let a = put_place(out, at, place);
    let b = put_text(out, a, b"end");
    put_byte(out, b, b'\n')
}

// Of what bytes are missing, where so many are there.
fn missing_words(there: usize) -> &'static [u8]
    ensures value { result.now ≡ cond (leb header_length there) (ascii "cut short (256), bytes of its body missing: ") (ascii "cut short (256), bytes of its header missing: ") }
    ensures bound { length result.now ≤ 46 }
{
    if there < HEADER_LENGTH {
        b"cut short (256), bytes of its header missing: "
    } else {
        b"cut short (256), bytes of its body missing: "
    }
}

// The record is cut short by n bytes.
fn put_short(out: &mut [u8], at: usize, place: usize, bytes: &[u8], n: usize) -> usize
    requires { at + 176 ≤ length out.old }
    ensures put_done { PutDone (short_line place bytes.now n) out.old at out.new result }
    ensures upper_bound { result ≤ at + 176 }
{
    let a = put_place(out, at, place);
    let b = put_text(out, a, missing_words(bytes.len()));
    let c = put_number(out, b, n as u64);
    put_byte(out, c, b'\n')
}

// The length that a header says, which is not that of its kind.
fn put_bad_length(out: &mut [u8], at: usize, said: u32, kind: u32) -> usize
    requires { at + 98 ≤ length out.old }
    ensures put_done { PutDone (ascii ", length " ++ decimal said ++ ascii " is not that of kind " ++ decimal kind) out.old at out.new result }
    ensures upper_bound { result ≤ at + 98 }
{
    let a = put_text(out, at, b", length ");
    let b = put_number(out, a, said as u64);
    let c = put_text(out, b, b" is not that of kind ");
    put_number(out, c, kind as u64)
}

fn put_bad_kind(out: &mut [u8], at: usize, kind: u32) -> usize
    requires { at + 98 ≤ length out.old }
    ensures put_done { PutDone (ascii ", kind " ++ decimal kind ++ ascii " is not known on the link") out.old at out.new result }
    ensures upper_bound { result ≤ at + 98 }
{
    let a = put_text(out, at, b", kind ");
    let b = put_number(out, a, kind as u64);
    put_text(out, b, b" is not known on the link")
}

// Why it is refused: with 7 its length, else its kind.
fn put_why(out: &mut [u8], at: usize, number: u64, said: u32, kind: u32) -> usize
    requires { at + 98 ≤ length out.old }
    ensures put_done { PutDone (cond (eqb number bad_length) (ascii ", length " ++ decimal said ++ ascii " is not that of kind " ++ decimal kind) (ascii ", kind " ++ decimal kind ++ ascii " is not known on the link")) out.old at out.new result }
    ensures upper_bound { result ≤ at + 98 }
{
    if number == Refusal::BadLength.number() {
        return put_bad_length(out, at, said, kind);
    }
    put_bad_kind(out, at, kind)
}

// The record is refused, with 6 or with 7.
fn put_refused(out: &mut [u8], at: usize, place: usize, bytes: &[u8], number: u64) -> usize
    requires { (at + 176 ≤ length out.old) × (header_length ≤ length bytes.now) }
    ensures put_done { PutDone (refused_line place bytes.now number) out.old at out.new result }
    ensures upper_bound { result ≤ at + 176 }
{
    let said = get::<2>(bytes, 0);
    let kind = get::<2>(bytes, 2);
    let a = put_place(out, at, place);
    let b = put_text(out, a, b"refused with ");
    let c = put_number(out, b, number);
    let d = put_why(out, c, number, said, kind);
    put_byte(out, d, b'\n')
}

// What stops the reading at bytes that no record stands at the head of.
pub(crate) fn put_stop(out: &mut [u8], at: usize, u: usize, place: usize, bytes: &[u8]) -> usize
    requires { (at + 176 ≤ length out.old) × (unit_ok u ≡ true) × (used_of (read_record Reader.Test u bytes.now) ≡ 0) }
    ensures put_done { PutDone (plates_from 1 u place bytes.now) out.old at out.new result }
    ensures upper_bound { result ≤ at + 176 }
{
    if bytes.len() == 0 {
        return put_end(out, at, place);
    }
    match read(Reader::Test, u, bytes) {
        Err(Unread::Short { missing }) => put_short(out, at, place, bytes, missing),
        Err(Unread::Refused { number }) => put_refused(out, at, place, bytes, number),
        Ok(_) => at,
    }
}
