// A program that answers its input line by line, over any reader and any writer, with no heap.
#![tactic(auto)]

ghost use Rattle.std.specs.Prelude.{◌≡◌, ℕ, ◌+◌, ◌≤◌, length};
ghost use Rattle.lists.specs.Part.{PutDone};
ghost use Rattle.text.specs.Kept.{kept_all};
ghost use Rattle.text.specs.Feed.{Program, KeptRight};

pub mod buffers;
pub mod feed;
pub mod input;
pub mod turns;

// What a program keeps between two lines, and how it answers the next one.
pub trait LineProgram: Copy {
    // What is kept of a line under way.
    type Line: Copy;

    // The program that the laws of text/specs/Feed.antt speak of, and the values of it that states and lines stand for.
    ghost State: { Type 0 };

    ghost Kept: { Type 0 };

    ghost program: { Program State Kept };

    ghost state_of: { Self → State };

    ghost line_of: { Self.Line → Kept };

    // The most bytes of a line's answer, and of what is printed at the end of the input.
    ghost ANSWER_BYTES: { ℕ };

    const ANSWER_BYTES: usize;

    ghost FINISH_BYTES: { ℕ };

    const FINISH_BYTES: usize;

    // Before the first line.
    fn start() -> Self
        ensures { state_of result ≡ program.start };

    // A line before its first byte.
    fn no_line() -> Self::Line
        ensures { line_of result ≡ program.no_line };

    // A line with the bytes of one part more.
    fn line_with_all(line: Self::Line, bytes: &[u8]) -> Self::Line
        ensures { line_of result ≡ kept_all program.line_with (line_of line) bytes.now };

    // Whether no byte of the line has come.
    fn is_empty_line(line: Self::Line) -> bool
        ensures { result ≡ program.is_empty_line (line_of line) };

    // The answer to a line, which goes into out from at on: what is kept after it, the place behind the answer, and
    // whether the line ends the program.
    fn answer(self, line: Self::Line, out: &mut [u8], at: usize) -> (Self, usize, bool)
        requires { at + ANSWER_BYTES ≤ length out.old }
        ensures next { state_of result.0 ≡ (program.answer_kept (state_of self) (line_of line)).next }
        ensures printed { PutDone (program.answer_kept (state_of self) (line_of line)).printed out.old at out.new result.1 }
        ensures bound { result.1 ≤ at + ANSWER_BYTES }
        ensures last { result.2 ≡ (program.answer_kept (state_of self) (line_of line)).last };

    // What is printed at the end of the input, where no line ended the program, from at on; the place behind it.
    fn put_finish(self, out: &mut [u8], at: usize) -> usize
        requires { at + FINISH_BYTES ≤ length out.old }
        ensures printed { PutDone (program.finish (state_of self)) out.old at out.new result }
        ensures bound { result ≤ at + FINISH_BYTES };

    // What is kept of a line is enough: for its answer, and to tell the empty line.
    ghost right: { KeptRight program };
}
