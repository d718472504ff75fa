// Printing into a slice, at a position: bytes, texts, numbers, and columns of a row. Each gives the position behind it.
ghost use Rattle.std.specs.Prelude.{◌≡◌, [], ◌∷◌, ◌+◌, ◌-◌, ◌≤◌, ◌<◌, length, replicate};
ghost use Rattle.lists.specs.Part.{PutDone};
ghost use Rattle.text.specs.Line.{space};
ghost use Rattle.text.specs.Decimal.{decimal};
ghost use Rattle.text.specs.Column.{right};

use crate::decimal::digits_of;

// One byte at at; the position behind it.
pub fn put_byte(out: &mut [u8], at: usize, b: u8) -> usize
    requires { at < length out.old }
    ensures { PutDone (b ∷ []) out.old at out.new result }
{
    out[at] = b;
    at + 1
}

// Some bytes from at on; the position behind them.
pub fn put_text(out: &mut [u8], at: usize, text: &[u8]) -> usize
    requires { at + length text.now ≤ length out.old }
    ensures { PutDone text.now out.old at out.new result }
{
    let n = text.len();
    lists::copy_into(out, at, text);
    at + n
}

// The digits of n from at on; the position behind them.
pub fn put_number(out: &mut [u8], at: usize, n: u64) -> usize
    requires { at + 20 ≤ length out.old }
    ensures put_done { PutDone (decimal n) out.old at out.new result }
    ensures lower_bound { (at < result) × (result ≤ at + 20) }
{
    put_text(out, at, digits_of(n).as_slice())
}

// n spaces from at on; the position behind them.
pub fn put_spaces(out: &mut [u8], at: usize, n: usize) -> usize
    requires { at + n ≤ length out.old }
    ensures put_done { PutDone (replicate n space) out.old at out.new result }
    ensures value { result ≡ at + n }
{
    out[at..at + n].fill(b' ');
    at + n
}

// Spaces behind what stands from `from` to at, so that a column of this width is full; the position behind them.
pub fn pad(out: &mut [u8], from: usize, at: usize, width: usize) -> usize
    requires { (from ≤ at) × (at ≤ length out.old) × (from + width ≤ length out.old) }
    ensures put_done { PutDone (replicate (width - (at - from)) space) out.old at out.new result }
    ensures value { result ≡ at + (width - (at - from)) }
{
    put_spaces(out, at, width.saturating_sub(at - from))
}

// A number at the right of a column; the position behind it.
pub fn put_right(out: &mut [u8], at: usize, width: usize, n: u64) -> usize
    requires { (width ≤ 20) × (at + 20 ≤ length out.old) }
    ensures put_done { PutDone (right width (decimal n)) out.old at out.new result }
    ensures lower_bound { (at ≤ result) × (result ≤ at + 20) }
{
    let d = digits_of(n);
    let digits = d.as_slice();
    let behind = put_spaces(out, at, width.saturating_sub(digits.len()));
    put_text(out, behind, digits)
}
