// The program `pair`: reads commands on standard input, to its end or to `k`, and prints what each line gives.
#![tactic(auto)]

ghost use Rattle.std.specs.Prelude.{◌≡◌, ◌+◌, ◌≤◌, length};
ghost use Rattle.rules.specs.World.{World};
ghost use Rattle.text.specs.declared.Line.{Line};
ghost use Rattle.script.specs.Site.{world_of};
ghost use Rattle.script.specs.Output.{pair_program};
ghost use Rattle.script.proofs.FeedLaws.{kept-right};

use console::LineProgram;
use console::buffers::zeros;
use console::input::Input;
use console::turns::run;
use script::Site;
use std::io;
use text::Line;
use text::printing::put_text;

// What is kept between two lines.
#[derive(Clone, Copy)]
struct PairProgram(Site);

impl LineProgram for PairProgram {
    type Line = Line;

    ghost State = { World };

    ghost Kept = { Line };

    ghost program = { pair_program };

    ghost state_of = { λ p. world_of p.0 };

    ghost line_of = { λ l. l };

    ghost ANSWER_BYTES = { 44 };

    const ANSWER_BYTES: usize = 44;

    ghost FINISH_BYTES = { 0 };

    const FINISH_BYTES: usize = 0;

    ghost right = { kept-right };

    fn start() -> Self {
        PairProgram(script::sites::started())
    }

    fn no_line() -> Line {
        text::kept::no_line()
    }

    fn line_with_all(line: Line, bytes: &[u8]) -> Line {
        text::kept::line_with_all(line, bytes)
    }

    fn is_empty_line(line: Line) -> bool {
        text::kept::is_empty_line(line)
    }

    fn answer(self, line: Line, out: &mut [u8], at: usize) -> (Self, usize, bool) {
        let answered = script::answer::answer(self.0, line);
        let end = put_text(out, at, &answered.bytes[..answered.length]);
        (PairProgram(answered.site), end, answered.last)
    }

    // Nothing is printed at the end of the input.
    fn put_finish(self, _out: &mut [u8], at: usize) -> usize {
        at
    }
}

// What is read at once is at most 1,024 bytes, and there is room for the answers of as many lines.
fn main(rt: HostRuntime) -> io::Result<()> {
    let mut out = zeros::<45056>();
    run::<PairProgram, _, _, 1024>(
        &mut Input::new(),
        &mut rt.stdin(),
        &mut rt.stdout(),
        &mut out,
    )
}
