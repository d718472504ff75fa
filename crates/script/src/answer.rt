// A line's command, performed and printed.
ghost use Rattle.std.specs.Prelude.{◌≡◌, ◌≤◌, length, take};
ghost use Rattle.script.specs.Output.{pair_program};
ghost use Rattle.script.specs.Site.{world_of, done_of};
ghost use Rattle.script.specs.Pair.{perform as performed};

use crate::commands::command_of;
use crate::{
    Answered, Command, Performed, Site, link, primary_commands, printing, standby_commands,
};
use records::refusal::Refusal;
use text::Line;

// What a command does.
pub fn perform(s: Site, c: Command) -> Performed
    ensures { done_of result ≡ performed (world_of s) c }
{
    match c {
        Command::Write { page, byte } => primary_commands::write(s, page, byte),
        Command::Disk { block, byte } => primary_commands::disk(s, block, byte),
        Command::Send { length } => primary_commands::send(s, length),
        Command::Close { byte } => primary_commands::close(s, byte),
        Command::Move => link::move_record(s),
        Command::Acknowledge => link::acknowledge(s),
        Command::Take => primary_commands::take(s),
        Command::Flush => standby_commands::flush(s),
        Command::Takeover => standby_commands::takeover(s),
        Command::Other => Performed::refused(s, Refusal::OutOfRange),
    }
}

// The answer to a line: the site after it, and what is printed.
pub fn answer(s: Site, l: Line) -> Answered
    ensures site_value { world_of result.site ≡ (pair_program.answer_kept (world_of s) l).next }
    ensures last_value { result.last ≡ (pair_program.answer_kept (world_of s) l).last }
    ensures bytes_value { (take result.length result.bytes ≡ (pair_program.answer_kept (world_of s) l).printed) × (result.length ≤ 44) × (length result.bytes ≡ 44) }
{
    let c = command_of(l);
    let done = perform(s, c);
    let mut bytes = [0u8; 44];
    let length = printing::print(
        &mut bytes,
        0,
        printing::letter_of(c),
        done.number,
        done.value,
    );
    Answered {
        site: done.site,
        bytes,
        length,
        last: done.last,
    }
}
