// A line, a byte at a time.
ghost use Rattle.std.specs.Prelude.{◌≡◌};
ghost use Rattle.text.specs.Kept.{no_line, number_with, next_word, with_letter, line_with, line_with_all, number_is, is_empty_line};

use crate::{Line, Number};

// Above every limit of a command's or a row's numbers.
const TOO_LARGE: u64 = 4294967296;

// The line before its first byte.
pub fn no_line() -> Line
    ensures { result ≡ no_line }
{
    let none = Number {
        some: false,
        digits: true,
        value: 0,
    };
    Line {
        words: 1,
        letters: 0,
        letter: 0,
        lead: none,
        first: none,
        second: none,
    }
}

// One byte more of a word.
pub fn number_with(n: Number, b: u8) -> Number
    ensures { result ≡ number_with n b }
{
    if !b.is_ascii_digit() {
        return Number {
            some: true,
            digits: false,
            ..n
        };
    }
    let value = 10 * TOO_LARGE.min(n.value) + (b - b'0') as u64;
    Number {
        some: true,
        value: TOO_LARGE.min(value),
        ..n
    }
}

// A space: the next word begins.
fn next_word(l: Line) -> Line
    ensures { result ≡ next_word l }
{
    Line {
        words: l.words.min(3) + 1,
        ..l
    }
}

// A byte of the first word.
fn with_letter(l: Line, b: u8) -> Line
    ensures { result ≡ with_letter l b }
{
    Line {
        letters: l.letters.min(1) + 1,
        letter: if l.letters == 0 { b } else { l.letter },
        lead: number_with(l.lead, b),
        ..l
    }
}

// One byte more of a line.
pub fn line_with(l: Line, b: u8) -> Line
    ensures { result ≡ line_with l b }
{
    if b == b' ' {
        return next_word(l);
    }
    match l.words {
        1 => with_letter(l, b),
        2 => Line {
            first: number_with(l.first, b),
            ..l
        },
        3 => Line {
            second: number_with(l.second, b),
            ..l
        },
        _ => l,
    }
}

// The bytes of a part, one after another.
pub fn line_with_all(l: Line, bytes: &[u8]) -> Line
    ensures { result ≡ line_with_all l bytes.now }
{
    bytes.iter().fold(l, |line, b| line_with(line, *b))
}

// Whether the word is a number of at most this.
pub fn number_is(most: u64, n: Number) -> bool
    ensures { result ≡ number_is most n }
{
    n.some && n.digits && n.value <= most
}

// Whether no byte of the line has come.
pub fn is_empty_line(l: Line) -> bool
    ensures { result ≡ is_empty_line l }
{
    l.words == 1 && l.letters == 0
}
