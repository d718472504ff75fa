// Turn after turn: the input is read part by part, and what each part gives is written.
ghost use Rattle.std.specs.Prelude.{◌≡◌, ◌+◌, ◌≤◌, length, IfOk};
ghost use Rattle.std.specs.Io.KnownBytes.{prepend_known};
ghost use Rattle.text.specs.Feed.{first_reading};
ghost use Rattle.text.specs.Turns.{TurnsMade};
ghost use Rattle.console.specs.Run.{reading_of};
ghost use Rattle.console.specs.Moved.{TurnDone, TurnsDone, ProgramDone};

use crate::LineProgram;
use crate::feed::Run;
use crate::input::Input;
use std::io;
use std::io::{Read, Write};

// Makes the next turn and writes what it gives; whether more is to be read after it. A read that fails is the end of
// the input. The turn is made too where the write fails, which is the one error.
fn next_turn<P: LineProgram, R: Read, W: Write, const N: usize>(
    run: &mut Run<P>,
    input: &mut Input<N>,
    reader: &mut R,
    writer: &mut W,
    out: &mut [u8],
) -> io::Result<bool>
    requires { P.ANSWER_BYTES + P.FINISH_BYTES ≤ length out.old }
    ensures { TurnDone P.program (reading_of P.state_of P.line_of run.old) (reading_of P.state_of P.line_of run.new) (prepend_known input.old (R.remaining reader.old)) (prepend_known input.new (R.remaining reader.new)) (W.contents writer.old) (W.contents writer.new) result }
{
    let _ = input.refill(reader);
    let turn = run.turn(input.as_slice(), out);
    input.consume(turn.read);
    writer.write_all(&out[..turn.written])?;
    Ok(turn.more)
}

// Turn after turn, while more is to be read and no write fails; the bound on the turns is the largest number, since a
// loop has to end.
pub fn all<P: LineProgram, R: Read, W: Write, const N: usize>(
    run: &mut Run<P>,
    input: &mut Input<N>,
    reader: &mut R,
    writer: &mut W,
    out: &mut [u8],
) -> io::Result<()>
    requires { P.ANSWER_BYTES + P.FINISH_BYTES ≤ length out.old }
    ensures made { TurnsMade P.program (reading_of P.state_of P.line_of run.old) (reading_of P.state_of P.line_of run.new) }
    ensures whole { IfOk result (λ _. TurnsDone P.program (reading_of P.state_of P.line_of run.old) (reading_of P.state_of P.line_of run.new) (prepend_known input.old (R.remaining reader.old)) (prepend_known input.new (R.remaining reader.new)) (W.contents writer.old) (W.contents writer.new)) }
{
    for _ in 0..u64::MAX {
        if !next_turn(run, input, reader, writer, out)? {
            break;
        }
    }
    Ok(())
}

// The program, from before its first line to the end of the input.
pub fn run<P: LineProgram, R: Read, W: Write, const N: usize>(
    input: &mut Input<N>,
    reader: &mut R,
    writer: &mut W,
    out: &mut [u8],
) -> io::Result<()>
    requires { P.ANSWER_BYTES + P.FINISH_BYTES ≤ length out.old }
    ensures { IfOk result (λ _. ProgramDone P.program (prepend_known input.old (R.remaining reader.old)) (prepend_known input.new (R.remaining reader.new)) (W.contents writer.old) (W.contents writer.new)) }
{
    let mut run = Run::<P>::first();
    all(&mut run, input, reader, writer, out)
}
