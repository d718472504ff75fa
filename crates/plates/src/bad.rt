// A bad line in words.
ghost use Rattle.std.specs.Prelude.{◌≡◌, ◌+◌, ◌≤◌, length};
ghost use Rattle.lists.specs.Part.{PutDone};
ghost use Rattle.plates.specs.Words.{fault_words, bad_line};

use crate::{BadLine, Fault};
use text::printing::{put_byte, put_number, put_text};

// What is wrong, in words, at most 37 bytes.
fn fault_words(fault: Fault) -> &'static [u8]
    ensures value { result.now ≡ fault_words fault }
    ensures bound { length result.now ≤ 37 }
{
    match fault {
        Fault::Empty => b"the line is empty",
        Fault::Long => b"the line is longer than 65536 bytes",
        Fault::Return => b"the line ends with a carriage return",
        Fault::NoHead => b"neither U nor the word area",
        Fault::BadUnit => b"U is not 64 to 4096 in steps of 64",
        Fault::NotHex => b"not a hexadecimal digit",
        Fault::Half => b"the second digit of a byte is missing",
    }
}

// The line of a bad line: its first fault, with the place.
pub(crate) fn put_bad(out: &mut [u8], at: usize, bad: BadLine) -> usize
    requires { at + 176 ≤ length out.old }
    ensures put_done { PutDone (bad_line bad.fault bad.place) out.old at out.new result }
    ensures upper_bound { result ≤ at + 176 }
{
    let a = put_text(out, at, b"bad line, place ");
    let b = put_number(out, a, bad.place as u64);
    let c = put_text(out, b, b": ");
    let d = put_text(out, c, fault_words(bad.fault));
    put_byte(out, d, b'\n')
}
