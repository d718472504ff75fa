// Why a line is no command.
ghost use Rattle.std.specs.Prelude.{◌≡◌, ◌≤◌, cond, not, ltb, Some, None, IfSome};
ghost use Rattle.script.specs.Command.{most_byte};
ghost use Rattle.traces.specs.declared.LineFault.TheVariants.{Digits, Large};
ghost use Rattle.traces.specs.Fault.{has_letter, wanted_of, most_first, in_digits, fault_of};

use crate::{LineFault, TraceLine};
use script::commands::{MOST_BYTE, MOST_NUMBER};
use text::kept::is_empty_line;
use text::{Line, Number};

// How many numbers follow the letter of a line, if it is the letter of a command.
#[tactic(auto, unfolding(crate::specs::Fault::wanted_of, crate::specs::Fault::is_letter))]
fn wanted_of(l: Line) -> Option<usize>
    ensures value { result ≡ cond (has_letter l) (Some (wanted_of l.letter)) None }
    ensures bound { IfSome result (λ n. n ≤ 2) }
{
    if l.letters != 1 {
        return None;
    }
    match l.letter {
        b'w' | b'd' | b'x' => Some(2),
        b's' | b'c' => Some(1),
        b'm' | b'a' | b't' | b'f' | b'k' | b'p' => Some(0),
        _ => None,
    }
}

// The largest first number.
fn most_first(letter: u8) -> u64
    ensures { result ≡ most_first letter }
{
    if letter == b'c' {
        MOST_BYTE
    } else {
        MOST_NUMBER
    }
}

// Whether a word is of digits, one or more.
fn in_digits(n: Number) -> bool
    ensures { result ≡ in_digits n }
{
    n.some & n.digits
}

// What is wrong with the numbers of a line that has as many as its letter wants.
fn number_fault(letter: u8, first: Number, second: Number) -> LineFault
    ensures { result ≡ cond (not (in_digits first)) (Digits 1) (cond (ltb (most_first letter) first.value) (Large 1 (most_first letter)) (cond (not (in_digits second)) (Digits 2) (Large 2 most_byte))) }
{
    if !in_digits(first) {
        return LineFault::Digits { which: 1 };
    }
    let most = most_first(letter);
    if most < first.value {
        return LineFault::Large { which: 1, most };
    }
    if !in_digits(second) {
        return LineFault::Digits { which: 2 };
    }
    LineFault::Large {
        which: 2,
        most: MOST_BYTE,
    }
}

// The first that is wrong with a line that is no command.
#[tactic(auto, unfolding(crate::specs::Fault::fault_of))]
pub fn fault_of(k: TraceLine) -> LineFault
    ensures { result ≡ fault_of k }
{
    let l = k.line;
    if is_empty_line(l) {
        return LineFault::Empty;
    }
    if k.last == b'\r' {
        return LineFault::Return;
    }
    let Some(wanted) = wanted_of(l) else {
        return LineFault::Letter;
    };
    if l.words != wanted + 1 {
        return LineFault::Count {
            wanted: wanted as u64,
        };
    }
    number_fault(l.letter, l.first, l.second)
}
