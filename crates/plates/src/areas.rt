// The record area in words.
ghost use Rattle.std.specs.Prelude.{◌≡◌, ◌++◌, ◌+◌, ◌≤◌, length};
ghost use Rattle.lists.specs.Part.{PutDone};
ghost use Rattle.text.specs.Ascii.{ascii};
ghost use Rattle.text.specs.Decimal.{decimal};
ghost use Rattle.plates.specs.Words.{area_words, disk_words, area_line, area_length_line};
ghost use Rattle.plates.specs.Plate.{area_output};

use ends::choice::decide;
use records::disk_area::read_area;
use records::refusal::Refusal;
use records::{AREA_LENGTH, Area};
use rules::Disk;
use text::printing::{put_byte, put_number, put_text};

fn put_activation(out: &mut [u8], at: usize, epoch: u32) -> usize
    requires { at + 50 ≤ length out.old }
    ensures put_done { PutDone (ascii "ACTIVATION (kind 6), epoch " ++ decimal epoch) out.old at out.new result }
    ensures upper_bound { result ≤ at + 50 }
{
    let a = put_text(out, at, b"ACTIVATION (kind 6), epoch ");
    put_number(out, a, epoch as u64)
}

// What it holds.
fn put_area(out: &mut [u8], at: usize, area: Area) -> usize
    requires { at + 50 ≤ length out.old }
    ensures put_done { PutDone (area_words area) out.old at out.new result }
    ensures upper_bound { result ≤ at + 50 }
{
    match area {
        Area::Zero => put_text(out, at, b"all zeros"),
        Area::Activation { epoch } => put_activation(out, at, epoch),
        Area::Neither => put_text(out, at, b"neither zeros nor an activation"),
    }
}

fn put_no_disk(out: &mut [u8], at: usize, number: u64) -> usize
    requires { at + 60 ≤ length out.old }
    ensures put_done { PutDone (ascii "refused with " ++ decimal number ++ ascii ", no disk is chosen") out.old at out.new result }
    ensures upper_bound { result ≤ at + 60 }
{
    let a = put_text(out, at, b"refused with ");
    let b = put_number(out, a, number);
    put_text(out, b, b", no disk is chosen")
}

// Which disk is valid.
fn put_disk(out: &mut [u8], at: usize, choice: Result<Disk, Refusal>) -> usize
    requires { at + 60 ≤ length out.old }
    ensures put_done { PutDone (disk_words choice) out.old at out.new result }
    ensures upper_bound { result ≤ at + 60 }
{
    match choice {
        Ok(Disk::PrimaryDisk) => put_text(out, at, b"the primary's disk is valid"),
        Ok(Disk::StandbyDisk) => put_text(out, at, b"the standby's disk is valid"),
        Err(refusal) => put_no_disk(out, at, refusal.number()),
    }
}

fn put_area_line(out: &mut [u8], at: usize, area: Area, choice: Result<Disk, Refusal>) -> usize
    requires { at + 176 ≤ length out.old }
    ensures put_done { PutDone (area_line area choice) out.old at out.new result }
    ensures upper_bound { result ≤ at + 176 }
{
    let a = put_text(out, at, b"record area: ");
    let b = put_area(out, a, area);
    let c = put_text(out, b, b"; ");
    let d = put_disk(out, c, choice);
    put_byte(out, d, b'\n')
}

// An area of another length.
fn put_area_length(out: &mut [u8], at: usize, n: usize) -> usize
    requires { at + 176 ≤ length out.old }
    ensures put_done { PutDone (area_length_line n) out.old at out.new result }
    ensures upper_bound { result ≤ at + 176 }
{
    let a = put_text(out, at, b"record area: not 8 bytes but ");
    let b = put_number(out, a, n as u64);
    let c = put_text(out, b, b"; refused with ");
    let d = put_number(out, c, Refusal::OutOfRange.number());
    put_byte(out, d, b'\n')
}

// What is printed of the bytes of an area.
pub(crate) fn put_area_output(out: &mut [u8], at: usize, bytes: &[u8]) -> usize
    requires { at + 176 ≤ length out.old }
    ensures put_done { PutDone (area_output bytes.now) out.old at out.new result }
    ensures upper_bound { result ≤ at + 176 }
{
    if bytes.len() != AREA_LENGTH {
        return put_area_length(out, at, bytes.len());
    }
    let area = read_area(bytes);
    let choice = decide(0, 0, bytes);
    put_area_line(out, at, area, choice)
}
