// The records of some bytes in turn, up to what stops the reading.
ghost use Rattle.std.specs.Prelude.{◌≡◌, true, ◌+◌, ◌≤◌, length, drop};
ghost use Rattle.lists.specs.Part.{PutDone};
ghost use Rattle.records.specs.Kind.{unit_ok};
ghost use Rattle.records.specs.Read.{read_record, used_of};
ghost use Rattle.plates.specs.Plate.{plates_from, plates_of};

use crate::lines::put_record;
use crate::stops::put_stop;
use records::reading::{read, used_of};
use records::{Reader, Record, Unread};

// What stands at a place.
fn record_at(u: usize, bytes: &[u8], place: usize) -> Result<Record, Unread>
    requires { place ≤ length bytes.now }
    ensures { result ≡ read_record Reader.Test u (drop place bytes.now) }
{
    read(Reader::Test, u, &bytes[place..])
}

// What stops the reading at a place.
fn put_stop_at(out: &mut [u8], at: usize, u: usize, bytes: &[u8], place: usize) -> usize
    requires { (at + 176 ≤ length out.old) × (unit_ok u ≡ true) × (place ≤ length bytes.now) × (used_of (read_record Reader.Test u (drop place bytes.now)) ≡ 0) }
    ensures put_done { PutDone (plates_from 1 u place (drop place bytes.now)) out.old at out.new result }
    ensures upper_bound { result ≤ at + 176 }
{
    put_stop(out, at, u, place, &bytes[place..])
}

// Their lines: 176 bytes for each record, of at least 8 bytes, and as many for what stops it.
pub(crate) fn put_plates(out: &mut [u8], at: usize, u: usize, bytes: &[u8]) -> usize
    requires { (length bytes.now ≤ 32768) × (at + 721072 ≤ length out.old) × (unit_ok u ≡ true) }
    ensures put_done { PutDone (plates_of u bytes.now) out.old at out.new result }
    ensures upper_bound { result ≤ at + 721072 }
{
    let mut next = at;
    let mut place: usize = 0;
    let first = record_at(u, bytes, 0);
    let mut used = used_of(first);
    while used != 0 {
        let r = record_at(u, bytes, place);
        next = put_record(out, next, place, r);
        place += used;
        let s = record_at(u, bytes, place);
        used = used_of(s);
    }
    put_stop_at(out, next, u, bytes, place)
}
