// A command and its answer in words.
ghost use Rattle.std.specs.Prelude.{◌≡◌, cond, ◌∷◌, ◌++◌, ◌+◌, ◌≤◌, eqb, length};
ghost use Rattle.lists.specs.Part.{PutDone};
ghost use Rattle.text.specs.Line.{space};
ghost use Rattle.text.specs.Decimal.{decimal};
ghost use Rattle.text.specs.Ascii.{ascii};
ghost use Rattle.script.specs.Command.{question_mark};
ghost use Rattle.traces.specs.Words.{numbers_in, trace_numbers_in, command_words, nothing_words, number_words, fault_words, answer_words};

use crate::commands::trace_letter_of;
use crate::{LineFault, TraceCommand};
use script::Command;
use text::printing::{put_byte, put_number, put_text};

// A space and a number.
fn put_one(out: &mut [u8], at: usize, n: u64) -> usize
    requires { at + 21 ≤ length out.old }
    ensures put_done { PutDone (space ∷ decimal n) out.old at out.new result }
    ensures upper_bound { result ≤ at + 21 }
{
    let a = put_byte(out, at, b' ');
    put_number(out, a, n)
}

// Two numbers, a space before each.
fn put_two(out: &mut [u8], at: usize, m: u64, n: u64) -> usize
    requires { at + 42 ≤ length out.old }
    ensures put_done { PutDone ((space ∷ decimal m) ++ (space ∷ decimal n)) out.old at out.new result }
    ensures upper_bound { result ≤ at + 42 }
{
    let a = put_one(out, at, m);
    put_one(out, a, n)
}

// The numbers of a command of `pair`.
fn put_numbers(out: &mut [u8], at: usize, c: Command) -> usize
    requires { at + 42 ≤ length out.old }
    ensures put_done { PutDone (numbers_in c) out.old at out.new result }
    ensures upper_bound { result ≤ at + 42 }
{
    match c {
        Command::Write { page, byte } => put_two(out, at, page, byte as u64),
        Command::Disk { block, byte } => put_two(out, at, block, byte as u64),
        Command::Send { length } => put_one(out, at, length),
        Command::Close { byte } => put_one(out, at, byte as u64),
        Command::Move => at,
        Command::Acknowledge => at,
        Command::Take => at,
        Command::Flush => at,
        Command::Takeover => at,
        Command::Other => at,
    }
}

// The numbers of a command.
fn put_trace_numbers(out: &mut [u8], at: usize, c: TraceCommand) -> usize
    requires { at + 42 ≤ length out.old }
    ensures put_done { PutDone (trace_numbers_in c) out.old at out.new result }
    ensures upper_bound { result ≤ at + 42 }
{
    match c {
        TraceCommand::Pair { command } => put_numbers(out, at, command),
        TraceCommand::Set { at: place, byte } => put_two(out, at, place, byte as u64),
        TraceCommand::Tick => at,
    }
}

// A command as it is written: its letter and its numbers.
pub(crate) fn put_command(out: &mut [u8], at: usize, c: TraceCommand) -> usize
    requires { at + 43 ≤ length out.old }
    ensures put_done { PutDone (command_words c) out.old at out.new result }
    ensures upper_bound { result ≤ at + 43 }
{
    let a = put_byte(out, at, trace_letter_of(c));
    put_trace_numbers(out, a, c)
}

// 18, of a command with this letter.
#[tactic(auto, unfolding(crate::specs::Words::nothing_words))]
fn nothing_words(letter: u8) -> &'static [u8]
    ensures value { result.now ≡ nothing_words letter }
    ensures bound { length result.now ≤ 32 }
{
    match letter {
        b'm' | b'x' => b"no record on its way",
        b'a' => b"no ACK to read",
        _ => b"nothing may be handed out yet",
    }
}

// What a number says, of a command with this letter.
#[tactic(auto, unfolding(crate::specs::Words::number_words))]
fn number_words(letter: u8, number: u64) -> &'static [u8]
    ensures value { result.now ≡ number_words letter number }
    ensures bound { length result.now ≤ 32 }
{
    match number {
        0 => b"accepted",
        1 => b"no such byte on the link",
        2 => b"no such page or block",
        3 => b"not within a page, or no block",
        4 => b"packet not of 1 to 1514 bytes",
        5 => b"reply or destination too short",
        6 => b"kind not for this end",
        7 => b"length not its kind's",
        8 => b"epoch not the next one",
        9 => b"out of order in its checkpoint",
        10 => b"counts not those received",
        11 => b"ACK old, or of an open epoch",
        12 => b"record area not valid",
        13 => b"not in this mode",
        14 => b"the epoch has all its blocks",
        15 => b"no space in the stream",
        16 => b"no space for the packet",
        17 => b"slots for blocks are full",
        18 => nothing_words(letter),
        19 => b"the last epoch is open",
        20 => b"blocks are still due",
        23 => b"no such port",
        256 => b"cut short",
        _ => b"refused",
    }
}

// It has not so many numbers.
fn put_count_fault(out: &mut [u8], at: usize, wanted: u64) -> usize
    requires { at + 36 ≤ length out.old }
    ensures put_done { PutDone (ascii "numbers wanted: " ++ decimal wanted) out.old at out.new result }
    ensures upper_bound { result ≤ at + 36 }
{
    let a = put_text(out, at, b"numbers wanted: ");
    put_number(out, a, wanted)
}

// One of its numbers is not in digits.
fn put_digit_fault(out: &mut [u8], at: usize, which: u64) -> usize
    requires { at + 44 ≤ length out.old }
    ensures put_done { PutDone (ascii "number " ++ decimal which ++ ascii " is not in digits") out.old at out.new result }
    ensures upper_bound { result ≤ at + 44 }
{
    let a = put_text(out, at, b"number ");
    let b = put_number(out, a, which);
    put_text(out, b, b" is not in digits")
}

// One of its numbers is larger than the most.
fn put_large_fault(out: &mut [u8], at: usize, which: u64, most: u64) -> usize
    requires { at + 57 ≤ length out.old }
    ensures put_done { PutDone (ascii "number " ++ decimal which ++ ascii " is above " ++ decimal most) out.old at out.new result }
    ensures upper_bound { result ≤ at + 57 }
{
    let a = put_text(out, at, b"number ");
    let b = put_number(out, a, which);
    let c = put_text(out, b, b" is above ");
    put_number(out, c, most)
}

// Why a line is no command.
fn put_fault(out: &mut [u8], at: usize, fault: LineFault) -> usize
    requires { at + 57 ≤ length out.old }
    ensures put_done { PutDone (fault_words fault) out.old at out.new result }
    ensures upper_bound { result ≤ at + 57 }
{
    match fault {
        LineFault::Empty => put_text(out, at, b"the line is empty"),
        LineFault::Return => put_text(out, at, b"ends with a carriage return"),
        LineFault::Letter => put_text(out, at, b"unknown letter"),
        LineFault::Count { wanted } => put_count_fault(out, at, wanted),
        LineFault::Digits { which } => put_digit_fault(out, at, which),
        LineFault::Large { which, most } => put_large_fault(out, at, which, most),
    }
}

// What is said behind the number.
fn put_reason(out: &mut [u8], at: usize, letter: u8, fault: LineFault, number: u64) -> usize
    requires { at + 57 ≤ length out.old }
    ensures put_done { PutDone (cond (eqb letter question_mark) (fault_words fault) (number_words letter number)) out.old at out.new result }
    ensures upper_bound { result ≤ at + 57 }
{
    if letter == b'?' {
        return put_fault(out, at, fault);
    }
    put_text(out, at, number_words(letter, number))
}

// The answer to a command: its number, and in words what it is.
pub(crate) fn put_answer(
    out: &mut [u8],
    at: usize,
    c: TraceCommand,
    fault: LineFault,
    number: u64,
) -> usize
    requires { at + 78 ≤ length out.old }
    ensures put_done { PutDone (answer_words c fault number) out.old at out.new result }
    ensures upper_bound { result ≤ at + 78 }
{
    let a = put_number(out, at, number);
    let b = put_byte(out, a, b' ');
    put_reason(out, b, trace_letter_of(c), fault, number)
}
