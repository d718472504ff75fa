// The command that a line is.
#![tactic(auto, unfolding(crate::specs::Command::command_of_line))]

ghost use Rattle.std.specs.Prelude.{◌≡◌, ◌&&◌};
ghost use Rattle.text.specs.Decimal.{most_number};
ghost use Rattle.text.specs.Kept.{number_is};
ghost use Rattle.script.specs.Command.{command_of_line, most_byte};

use crate::Command;
use text::kept::number_is;
use text::{Line, Number};

// "v is 0 to 255, other numbers at most 4,294,967,295".
pub const MOST_BYTE: u64 = u8::MAX as u64;

pub const MOST_NUMBER: u64 = u32::MAX as u64;

// Whether the second word is a number, and the third a byte.
fn is_pair(l: Line) -> bool
    ensures { result ≡ (number_is most_number l.first && number_is most_byte l.second) }
{
    number_is(MOST_NUMBER, l.first) && number_is(MOST_BYTE, l.second)
}

// The command of what is kept of a line.
pub fn command_of(l: Line) -> Command
    ensures { result ≡ command_of_line l }
{
    if l.letters != 1 {
        return Command::Other;
    }
    match (l.words, l.letter) {
        (3, b'w') if is_pair(l) => Command::Write {
            page: l.first.value,
            byte: l.second.value as u8,
        },
        (3, b'd') if is_pair(l) => Command::Disk {
            block: l.first.value,
            byte: l.second.value as u8,
        },
        (2, b's') if number_is(MOST_NUMBER, l.first) => Command::Send {
            length: l.first.value,
        },
        (2, b'c') if number_is(MOST_BYTE, l.first) => Command::Close {
            byte: l.first.value as u8,
        },
        (1, b'm') => Command::Move,
        (1, b'a') => Command::Acknowledge,
        (1, b't') => Command::Take,
        (1, b'f') => Command::Flush,
        (1, b'k') => Command::Takeover,
        _ => Command::Other,
    }
}
