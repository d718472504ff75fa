// Decimal numbers and lines, a byte at a time: nothing is kept of a line but what its command depends on, so it may be
// of any length.
#![tactic(auto)]

pub mod decimal;
pub mod kept;
pub mod lines;
pub mod printing;
pub mod rows;

pub use decimal::Digits;

// What is kept of a word that may be a number: three facts, which the laws kept-some, kept-digits and kept-number
// (proofs/NumberLaws.antt) tie to the whole word one by one, and of which `traces` names the one that fails.
#[derive(Clone, Copy)]
pub struct Number {
    // whether the word has a byte, and whether all its bytes are digits
    pub some: bool,
    pub digits: bool,
    // the value of the digits, or 4,294,967,296 where it is larger
    pub value: u64,
}

// What is kept of a line under way.
#[derive(Clone, Copy)]
pub struct Line {
    // how many words, at most 4
    pub words: usize,
    // how many bytes the first word has, at most 2, and the first of them: no Option, since one byte and more differ
    pub letters: usize,
    pub letter: u8,
    // the first word, as a number
    pub lead: Number,
    // the second word and the third
    pub first: Number,
    pub second: Number,
}
