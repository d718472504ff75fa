// Numbers, flags and answers as 64-bit words.
ghost use Rattle.std.specs.Prelude.{◌≡◌, cond, ◌<◌, ◌≤◌, ◌+◌, ltb, length};
ghost use Rattle.lists.specs.Part.{put};
ghost use Rattle.lists.specs.Refusal.{pick};
ghost use Rattle.capi.specs.Word.{reply_word, record_word, answer_word, all_fit32, between, flag_of};

use records::{CUT_SHORT, Unread};
use rules::Accepted;

// The largest number of a field of 32 bits, and of one of 16.
pub(crate) const MOST_32: u64 = u32::MAX as u64;

pub(crate) const MOST_16: u64 = u16::MAX as u64;

// Whether the words from one place on, up to another, all fit a field of 32 bits. All are looked at, whatever the first
// ones say: so the compiler can look at several at once.
pub(crate) fn all_fit32(w: &[u64], from: usize, to: usize) -> bool
    requires { (from ≤ to) × (to ≤ length w.now) }
    ensures { result ≡ all_fit32 (between from to w.now) }
{
    let mut low = true;
    for i in from..to {
        low &= w[i] <= MOST_32;
    }
    low
}

// A word that fits a field of 32 bits, as that field.
pub(crate) fn field(n: u64) -> u32
    requires { n < 4294967296 }
    ensures { result ≡ n }
{
    n as u32
}

// The same of 16 bits.
pub(crate) fn field16(n: u64) -> u16
    requires { n < 65536 }
    ensures { result ≡ n }
{
    n as u16
}

pub(crate) fn flag_of(n: u64) -> bool
    ensures { result ≡ flag_of n }
{
    n == 1
}

fn answer(number: u64, count: u64, value: u64) -> u64
    ensures { result ≡ answer_word number count value }
{
    number % 65536 + 65536 * (count % 65536) + 4294967296 * (value % 4294967296)
}

// A place that matters where a call is accepted, else the first.
pub(crate) fn if_accepted(number: u64, at: usize) -> usize
    ensures { result ≡ pick number at 0 }
{
    if number == 0 { at } else { 0 }
}

// A place among so many, else the first.
pub(crate) fn if_below(at: usize, many: usize) -> usize
    ensures { result ≡ cond (ltb at many) at 0 }
{
    if at < many { at } else { 0 }
}

// The answer of a call that reads no record.
pub(crate) fn reply_word(number: u64, value: u64) -> u64
    ensures { result ≡ reply_word number value }
{
    answer(number, 0, value)
}

// The answer of a call that reads a record.
pub fn record_word(a: Result<Accepted, Unread>) -> u64
    ensures { result ≡ record_word a }
{
    match a {
        Ok(accepted) => answer(0, accepted.used as u64, accepted.value),
        Err(Unread::Short { missing }) => answer(CUT_SHORT, missing as u64, 0),
        Err(Unread::Refused { number }) => answer(number, 0, 0),
    }
}

// Copies words in at a place.
pub(crate) fn store_at(w: &mut [u64], at: usize, src: &[u64])
    requires { at + length src.now ≤ length w.old }
    ensures { w.new ≡ put w.old at src.now }
{
    w[at..at + src.len()].copy_from_slice(src);
}
