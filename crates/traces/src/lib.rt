// The program `trace`: the commands of `pair` and two more, one row of a table for each.
#![tactic(auto)]

use script::{Command, Site};
use text::Line;

pub mod answer;
pub mod commands;
pub mod faults;
pub mod kept;
pub mod rows;
pub mod words;

// A command of `trace`: one of `pair`'s; a byte of what is on the link set; a tick of the primary.
#[derive(Clone, Copy)]
pub enum TraceCommand {
    Pair { command: Command },
    Set { at: u64, byte: u8 },
    Tick,
}

// What is kept of a line under way: as `pair` keeps it, and its last byte.
#[derive(Clone, Copy)]
pub struct TraceLine {
    pub line: Line,
    pub last: u8,
}

// Why a line is no command: it is empty, ends with a carriage return, its letter is not known, it has not so many
// numbers, its first or second number is not in digits, or is larger than the most.
// No Result of the command: a line that is none is performed as by `pair` (`EveryPairLine`, traces/specs/Runs.antt).
#[derive(Clone, Copy)]
pub enum LineFault {
    Empty,
    Return,
    Letter,
    Count { wanted: u64 },
    Digits { which: u64 },
    Large { which: u64, most: u64 },
}

// What is kept between two lines.
#[derive(Clone, Copy)]
pub struct TraceSite {
    pub site: Site,
    // whether a byte on the link was changed
    pub damaged: bool,
    // whether the header line is printed
    pub headed: bool,
}

// The most bytes of a row, and of a line's answer: the header line and a row.
pub const ROW_BYTES: usize = 1000;

pub const ANSWER_BYTES: usize = 1200;

// A line's answer: what is kept after it, the bytes printed, at the head of an array, and whether it is the last.
// An array with its length, and no Vec: a program's memory is fixed (docs/DECISIONS.md).
#[derive(Clone, Copy)]
pub struct TraceAnswer {
    pub after: TraceSite,
    pub bytes: [u8; ANSWER_BYTES],
    pub length: usize,
    pub last: bool,
}
