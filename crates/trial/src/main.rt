// The program `trial`: reads settings and then ticks on standard input, to its end or to the end of the trial, and
// prints what each line gives and last the most ticks.
#![tactic(auto)]

ghost use Rattle.std.specs.Prelude.{◌≡◌, ◌+◌, ◌≤◌, length};
ghost use Rattle.text.specs.declared.Line.{Line};
ghost use Rattle.trials.specs.Output.{Stage, trial_program};
ghost use Rattle.trials.specs.Site.{stage_of};
ghost use Rattle.trials.proofs.AnswerLaws.{kept-right};

use console::LineProgram;
use console::buffers::zeros;
use console::input::Input;
use console::turns::run;
use std::io;
use text::Line;
use text::printing::put_text;
use trials::TrialStage;

// What is kept between two lines.
#[derive(Clone, Copy)]
struct TrialProgram(TrialStage);

impl LineProgram for TrialProgram {
    type Line = Line;

    ghost State = { Stage };

    ghost Kept = { Line };

    ghost program = { trial_program };

    ghost state_of = { λ p. stage_of p.0 };

    ghost line_of = { λ l. l };

    ghost ANSWER_BYTES = { 65 };

    const ANSWER_BYTES: usize = 65;

    ghost FINISH_BYTES = { 21 };

    const FINISH_BYTES: usize = 21;

    ghost right = { kept-right };

    fn start() -> Self {
        TrialProgram(trials::answer::unbegun_stage())
    }

    fn no_line() -> Line {
        text::kept::no_line()
    }

    fn line_with_all(line: Line, bytes: &[u8]) -> Line {
        text::kept::line_with_all(line, bytes)
    }

    fn is_empty_line(line: Line) -> bool {
        text::kept::is_empty_line(line)
    }

    fn answer(self, line: Line, out: &mut [u8], at: usize) -> (Self, usize, bool) {
        let answered = trials::answer::answer(self.0, line);
        let end = put_text(out, at, &answered.bytes[..answered.length]);
        (TrialProgram(answered.stage), end, answered.last)
    }

    fn put_finish(self, out: &mut [u8], at: usize) -> usize {
        trials::answer::put_finish(out, at, self.0)
    }
}

// What is read at once is at most 512 bytes, and there is room for the answers of as many lines.
fn main(rt: HostRuntime) -> io::Result<()> {
    let mut out = zeros::<33280>();
    run::<TrialProgram, _, _, 512>(
        &mut Input::new(),
        &mut rt.stdin(),
        &mut rt.stdout(),
        &mut out,
    )
}
