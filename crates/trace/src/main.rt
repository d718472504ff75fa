// The program `trace`: reads commands on standard input, to its end or to `k`, and prints a header line and a row for
// each.
#![tactic(auto)]

ghost use Rattle.std.specs.Prelude.{◌≡◌, ◌+◌, ◌≤◌, length};
ghost use Rattle.traces.specs.declared.TraceLine.{TraceLine};
ghost use Rattle.traces.specs.Output.{Trace, trace_program};
ghost use Rattle.traces.specs.Site.{trace_of};
ghost use Rattle.traces.proofs.KeptLaws.{kept-right};

use console::LineProgram;
use console::buffers::zeros;
use console::input::Input;
use console::turns::run;
use std::io;
use text::printing::put_text;
use traces::{ANSWER_BYTES, TraceLine, TraceSite};

// What is kept between two lines.
#[derive(Clone, Copy)]
struct TraceProgram(TraceSite);

impl LineProgram for TraceProgram {
    type Line = TraceLine;

    ghost State = { Trace };

    ghost Kept = { TraceLine };

    ghost program = { trace_program };

    ghost state_of = { λ p. trace_of p.0 };

    ghost line_of = { λ l. l };

    ghost ANSWER_BYTES = { 1200 };

    const ANSWER_BYTES: usize = ANSWER_BYTES;

    ghost FINISH_BYTES = { 200 };

    const FINISH_BYTES: usize = 200;

    ghost right = { kept-right };

    fn start() -> Self {
        TraceProgram(traces::answer::first_site())
    }

    fn no_line() -> TraceLine {
        traces::kept::no_trace_line()
    }

    fn line_with_all(line: TraceLine, bytes: &[u8]) -> TraceLine {
        traces::kept::trace_line_with_all(line, bytes)
    }

    fn is_empty_line(line: TraceLine) -> bool {
        text::kept::is_empty_line(line.line)
    }

    fn answer(self, line: TraceLine, out: &mut [u8], at: usize) -> (Self, usize, bool) {
        let answered = traces::answer::answer(self.0, line);
        let end = put_text(out, at, &answered.bytes[..answered.length]);
        (TraceProgram(answered.after), end, answered.last)
    }

    fn put_finish(self, out: &mut [u8], at: usize) -> usize {
        traces::answer::put_finish(out, at, self.0)
    }
}

// What is read at once is at most 512 bytes, and there is room for the answers of as many lines.
fn main(rt: HostRuntime) -> io::Result<()> {
    let mut out = zeros::<614400>();
    run::<TraceProgram, _, _, 512>(
        &mut Input::new(),
        &mut rt.stdin(),
        &mut rt.stdout(),
        &mut out,
    )
}
