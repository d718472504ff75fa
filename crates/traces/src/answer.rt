// A line's command, performed, and its row.
ghost use Rattle.std.specs.Prelude.{◌≡◌, ◌||◌, ◌++◌, ◌+◌, ◌≤◌, length};
ghost use Rattle.lists.specs.Part.{PutDone};
ghost use Rattle.script.specs.Site.{world_of, done_of};
ghost use Rattle.traces.specs.Command.{is_damage};
ghost use Rattle.traces.specs.Words.{command_words, answer_words};
ghost use Rattle.traces.specs.Row.{row_of};
ghost use Rattle.traces.specs.Output.{finished, header_if, trace_program};
ghost use Rattle.traces.specs.Site.{AnswerDone, answer_bytes, trace_of};

use crate::commands::{is_damage, perform, trace_command_of};
use crate::faults::fault_of;
use crate::rows::{put_header, put_row};
use crate::{ANSWER_BYTES, LineFault, TraceAnswer, TraceCommand, TraceLine, TraceSite};
use script::Performed;

// Both ends started, before the first line.
pub fn first_site() -> TraceSite
    ensures { trace_of result ≡ trace_program.start }
{
    let site = script::sites::started();
    TraceSite {
        site,
        damaged: false,
        headed: false,
    }
}

// The header line, where it is not printed yet: of an empty input all that is printed.
pub fn put_finish(out: &mut [u8], at: usize, t: TraceSite) -> usize
    requires { at + 200 ≤ length out.old }
    ensures put_done { PutDone (finished (trace_of t)) out.old at out.new result }
    ensures upper_bound { result ≤ at + 200 }
{
    if t.headed {
        return at;
    }
    put_header(out, at)
}

// What is printed of a command that was performed.
fn put_lines(
    out: &mut [u8],
    t: TraceSite,
    c: TraceCommand,
    fault: LineFault,
    done: Performed,
    damaged: bool,
) -> usize
    requires { answer_bytes ≤ length out.old }
    ensures put_done { PutDone (header_if t.headed ++ row_of (command_words c) (answer_words c fault done.number) done.value (world_of done.site) damaged) out.old 0 out.new result }
    ensures upper_bound { result ≤ answer_bytes }
{
    let a = put_finish(out, 0, t);
    put_row(out, a, c, fault, done, damaged)
}

// Whether a byte on the link was changed, by now.
fn damaged_by(t: TraceSite, c: TraceCommand, done: Performed) -> bool
    ensures { result ≡ (t.damaged || is_damage c (done_of done)) }
{
    t.damaged || is_damage(c, done)
}

// The answer to a line: what is kept after it, and what is printed.
pub fn answer(t: TraceSite, l: TraceLine) -> TraceAnswer
    ensures { AnswerDone (trace_program.answer_kept (trace_of t) l) result }
{
    let c = trace_command_of(l.line);
    let fault = fault_of(l);
    let done = perform(t.site, c);
    let damaged = damaged_by(t, c, done);
    let mut bytes = [0u8; ANSWER_BYTES];
    let length = put_lines(&mut bytes, t, c, fault, done, damaged);
    let after = TraceSite {
        site: done.site,
        damaged,
        headed: true,
    };
    TraceAnswer {
        after,
        bytes,
        length,
        last: done.last,
    }
}
