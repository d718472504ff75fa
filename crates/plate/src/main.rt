// The program `plate`: reads lines on standard input, to its end, and prints for each what it gives.
#![tactic(auto)]

ghost use Rattle.std.specs.Prelude.{◌≡◌, ℕ, List, ◌+◌, ◌≤◌, length};
ghost use Rattle.plates.specs.Plate.{plate_program};
ghost use Rattle.plates.specs.Read.{kept_of};
ghost use Rattle.plates.proofs.KeptLaws.{kept-right};

use console::LineProgram;
use console::buffers::zeros;
use console::input::Input;
use console::turns::run;
use plates::KeptLine;
use std::io;

// Nothing is kept between two lines.
#[derive(Clone, Copy)]
struct PlateProgram;

impl LineProgram for PlateProgram {
    type Line = KeptLine;

    ghost State = { Unit {0} };

    ghost Kept = { List ℕ };

    ghost program = { plate_program };

    ghost state_of = { λ _. tt };

    ghost line_of = { kept_of };

    ghost ANSWER_BYTES = { 721072 };

    const ANSWER_BYTES: usize = 721072;

    ghost FINISH_BYTES = { 0 };

    const FINISH_BYTES: usize = 0;

    ghost right = { kept-right };

    fn start() -> Self {
        PlateProgram
    }

    fn no_line() -> KeptLine {
        plates::kept::no_kept()
    }

    fn line_with_all(line: KeptLine, bytes: &[u8]) -> KeptLine {
        plates::kept::kept_with_all(line, bytes)
    }

    fn is_empty_line(line: KeptLine) -> bool {
        plates::kept::is_empty_kept(line)
    }

    fn answer(self, line: KeptLine, out: &mut [u8], at: usize) -> (Self, usize, bool) {
        let n = plates::kept::kept_length(line);
        let end = plates::answer::put_answer(out, at, &line.bytes[..n]);
        (PlateProgram, end, false)
    }

    // Nothing is printed at the end of the input.
    fn put_finish(self, _out: &mut [u8], at: usize) -> usize {
        at
    }
}

// What is read at once is at most 512 bytes, and there is room for the answer of one line, which can be long.
fn main(rt: HostRuntime) -> io::Result<()> {
    let mut out = zeros::<721072>();
    run::<PlateProgram, _, _, 512>(
        &mut Input::new(),
        &mut rt.stdin(),
        &mut rt.stdout(),
        &mut out,
    )
}
