// Printing a number.
ghost use Rattle.std.specs.Prelude.{◌≡◌, ◌+◌, ◌%◌, ◌≤◌, ◌<◌, length};
ghost use Rattle.text.specs.Decimal.{decimal, zero_digit};

use std::marker::Model;

// A number's decimal digits: the bytes from start on; those in front of it are 0, so that the digits give the fields
// back, which a copy needs. A contract sees them as a list.
#[derive(Clone, Copy)]
pub struct Digits {
    pub bytes: [u8; 20],
    pub start: usize,
}

impl Model for Digits {
    ghost use Rattle.std.specs.Prelude.{ℕ, List, drop};
    ghost use Rattle.text.specs.Digits.{BehindZeros, start_of, array_of, start-back, array-back};

    ghost Value = { List ℕ };

    ghost view = { λ d. drop d.start d.bytes };

    ghost invariant = { λ d. BehindZeros d.start d.bytes };

    ghost inverse = { λ digits. record { bytes = array_of digits; start = start_of digits } };

    ghost inverse_ok = { λ d h i. record { bytes = array-back d.start d.bytes h i; start = start-back d.start d.bytes h i } };
}

impl Digits {
    pub fn as_slice(&self) -> &[u8]
        ensures digits { result.now ≡ self.now }
        ensures count { (0 < length result.now) × (length result.now ≤ 20) }
    {
        &self.bytes[self.start..]
    }
}

// The byte of the last digit of n.
fn last_digit(n: u64) -> u8
    ensures { result ≡ zero_digit + n % 10 }
{
    let digit = n % 10;
    b'0' + digit as u8
}

// The decimal digits of n, without leading zeros.
pub fn digits_of(n: u64) -> Digits
    ensures { result ≡ decimal n }
{
    // The last digit comes first, and how many there are shows at the end: an iterator over the places is no plainer.
    let mut bytes = [0; 20];
    let mut start: usize = 20;
    let mut rest = n;
    while 10 <= rest {
        start -= 1;
        bytes[start] = last_digit(rest);
        rest /= 10;
    }
    start -= 1;
    bytes[start] = last_digit(rest);
    Digits { bytes, start }
}
