// The command that a line is, and what it does.
ghost use Rattle.std.specs.Prelude.{◌≡◌, false, cond, [], ◌∷◌, ltb, length, get_or};
ghost use Rattle.lists.specs.Part.{put};
ghost use Rattle.records.specs.Number.{out_of_range};
ghost use Rattle.rules.specs.Step.{outcome};
ghost use Rattle.script.specs.Command.{is_kept_line};
ghost use Rattle.script.specs.Pair.{refused};
ghost use Rattle.script.specs.Site.{world_of, done_of};
ghost use Rattle.traces.specs.Command.{trace_command_of_line, trace_letter_of, with_link, set_done, traced, is_damage};

use crate::TraceCommand;
use records::refusal::Refusal;
use script::commands::{MOST_BYTE, MOST_NUMBER, command_of};
use script::link::{drain_record, in_link, nothing_there};
use script::primary_commands::primary_tick;
use script::printing::letter_of;
use script::{Performed, Site};
use text::Line;
use text::kept::number_is;

// Whether a line is of this letter and this many words.
fn is_kept_line(letter: u8, words: usize, l: Line) -> bool
    ensures { result ≡ is_kept_line letter words l }
{
    (l.words == words) & (l.letters == 1) & (l.letter == letter)
}

// The command of what is kept of a line: `x i v`, `p`, or one of `pair`.
#[tactic(auto, unfolding(crate::specs::Command::trace_command_of_line))]
pub fn trace_command_of(l: Line) -> TraceCommand
    ensures { result ≡ trace_command_of_line l }
{
    let numbers = number_is(MOST_NUMBER, l.first) & number_is(MOST_BYTE, l.second);
    if is_kept_line(b'x', 3, l) & numbers {
        return TraceCommand::Set {
            at: l.first.value,
            byte: l.second.value as u8,
        };
    }
    if is_kept_line(b'p', 1, l) {
        return TraceCommand::Tick;
    }
    TraceCommand::Pair {
        command: command_of(l),
    }
}

// The letter that is printed.
pub fn trace_letter_of(c: TraceCommand) -> u8
    ensures { result ≡ trace_letter_of c }
{
    match c {
        TraceCommand::Pair { command } => letter_of(command),
        TraceCommand::Set { at: _, byte: _ } => b'x',
        TraceCommand::Tick => b'p',
    }
}

// A byte of what is on the link of d, or s as it was where there is none at this place.
fn set_in(s: Site, d: Site, at: u64, byte: u8) -> Performed
    ensures { done_of result ≡ cond (ltb at (length (world_of d).link)) (record { next = with_link (world_of d) (put (world_of d).link at (byte ∷ [])); outcome = outcome 0 (get_or (world_of d).link at 0); last = false }) (refused (world_of s) out_of_range) }
{
    let count = in_link(d.linked);
    let place = at as usize;
    if count <= place {
        return Performed {
            site: s,
            number: Refusal::OutOfRange.number(),
            value: 0,
            last: false,
        };
    }
    let mut link = d.link;
    let old = link[place];
    link[place] = byte;
    Performed {
        site: Site { link, ..d },
        number: 0,
        value: old as u64,
        last: false,
    }
}

// `x i v`: a byte of what the next `m` reads.
pub fn set_byte(s: Site, at: u64, byte: u8) -> Performed
    ensures { done_of result ≡ set_done (world_of s) at byte }
{
    if s.linked == 0 && s.primary.state.waiting == 0 {
        return nothing_there(s);
    }
    set_in(s, drain_record(s), at, byte)
}

// What a command does.
pub fn perform(s: Site, c: TraceCommand) -> Performed
    ensures { done_of result ≡ traced (world_of s) c }
{
    match c {
        TraceCommand::Pair { command } => script::answer::perform(s, command),
        TraceCommand::Set { at, byte } => set_byte(s, at, byte),
        TraceCommand::Tick => primary_tick(s),
    }
}

// Whether it put another byte on the link.
pub fn is_damage(c: TraceCommand, p: Performed) -> bool
    ensures { result ≡ is_damage c (done_of p) }
{
    match c {
        TraceCommand::Set { at: _, byte } => (p.number == 0) & (p.value != byte as u64),
        TraceCommand::Pair { command: _ } | TraceCommand::Tick => false,
    }
}
