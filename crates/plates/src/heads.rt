// The first word of a line.
ghost use Rattle.std.specs.Prelude.{◌≡◌, ◌&&◌};
ghost use Rattle.text.specs.Kept.{kept_all, no_number, number_is, number_with};
ghost use Rattle.records.specs.Kind.{most_unit, unit_ok};
ghost use Rattle.plates.specs.Read.{head_of};

use crate::{Fault, PlateHead};
use records::MOST_UNIT;
use records::reading::unit_ok;
use text::Number;
use text::kept::{number_is, number_with};

// What is kept of the word as a number.
fn number_of(word: &[u8]) -> Number
    ensures { result ≡ kept_all number_with no_number word.now }
{
    let mut number = Number {
        some: false,
        digits: true,
        value: 0,
    };
    for byte in word {
        number = number_with(number, *byte);
    }
    number
}

// Whether the number is a U in its range.
fn is_unit(n: Number) -> bool
    ensures { result ≡ (number_is most_unit n && unit_ok n.value) }
{
    number_is(MOST_UNIT as u64, n) && unit_ok(n.value as usize)
}

// What the first word of a line is; a number that is no U is another fault than a word that is none.
pub fn head_of(word: &[u8]) -> Result<PlateHead, Fault>
    ensures { result ≡ head_of word.now }
{
    if word == b"area".as_slice() {
        return Ok(PlateHead::Area);
    }
    let n = number_of(word);
    if is_unit(n) {
        return Ok(PlateHead::Unit {
            u: n.value as usize,
        });
    }
    if n.some && n.digits {
        return Err(Fault::BadUnit);
    }
    Err(Fault::NoHead)
}
