// What is printed of a command: letter, number, value.
ghost use Rattle.std.specs.Prelude.{◌≡◌, ◌+◌, ◌≤◌, length};
ghost use Rattle.lists.specs.Part.{PutDone};
ghost use Rattle.rules.specs.Step.{outcome};
ghost use Rattle.script.specs.Command.{letter_of};
ghost use Rattle.script.specs.Output.{printed};

use crate::Command;
use text::printing::{put_byte, put_number};

// The letter that is printed.
pub fn letter_of(c: Command) -> u8
    ensures { result ≡ letter_of c }
{
    match c {
        Command::Write { page, byte } => b'w',
        Command::Disk { block, byte } => b'd',
        Command::Send { length } => b's',
        Command::Close { byte } => b'c',
        Command::Move => b'm',
        Command::Acknowledge => b'a',
        Command::Take => b't',
        Command::Flush => b'f',
        Command::Takeover => b'k',
        Command::Other => b'?',
    }
}

// Letter, number and value with a newline, from at on; the position behind them.
pub fn print(out: &mut [u8], at: usize, letter: u8, number: u64, value: u64) -> usize
    requires { at + 44 ≤ length out.old }
    ensures put_done { PutDone (printed letter (outcome number value)) out.old at out.new result }
    ensures upper_bound { result ≤ at + 44 }
{
    let a = put_byte(out, at, letter);
    let b = put_byte(out, a, b' ');
    let c = put_number(out, b, number);
    let d = put_byte(out, c, b' ');
    let e = put_number(out, d, value);
    put_byte(out, e, b'\n')
}
