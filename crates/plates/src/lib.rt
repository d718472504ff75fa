// The program `plate`: the bytes of a line, record by record, in words.
#![tactic(auto)]

pub mod answer;
pub mod areas;
pub mod bad;
pub mod heads;
pub mod hex;
pub mod kept;
pub mod lines;
pub mod stops;
pub mod turns;

// The most bytes of a line, and as many as two digits each can stand for in it.
pub const MOST_LINE: usize = 65536;

pub const MOST_BYTES: usize = MOST_LINE / 2;

// What is wrong with a line.
#[derive(Clone, Copy)]
pub enum Fault {
    Empty,
    Long,
    Return,
    NoHead,
    BadUnit,
    NotHex,
    Half,
}

// A bad line: its first fault, and the place of it in the line, from 1.
#[derive(Clone, Copy)]
pub struct BadLine {
    pub fault: Fault,
    pub place: usize,
}

// A line under way: its bytes, at the head of the array, up to one more than the longest line has. An array with its
// length, and no Vec: a program's memory is fixed (docs/DECISIONS.md).
#[derive(Clone, Copy)]
pub struct KeptLine {
    pub bytes: [u8; MOST_LINE + 1],
    pub length: usize,
}

// What one character of bytes in hexadecimal is: a space between two bytes, the first digit of a byte, or the second,
// with which the byte is whole.
#[derive(Clone, Copy)]
pub enum HexStep {
    Between,
    First { digit: u8 },
    Whole { byte: u8 },
}

// The first word of a line: the word area, or U in its range.
#[derive(Clone, Copy)]
pub enum PlateHead {
    Area,
    Unit { u: usize },
}
