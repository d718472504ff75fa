// A part of the input, line by line.
ghost use Rattle.std.specs.Prelude.{◌≡◌, false, [], ◌∷◌, ◌+◌, ◌*◌, ◌≤◌, ◌<◌, length, take};
ghost use Rattle.lists.specs.Part.{PutDone};
ghost use Rattle.text.specs.Line.{newline};
ghost use Rattle.text.specs.Feed.{fed_all, fed_all_printed, end_printed, first_reading};
ghost use Rattle.text.specs.Turns.{turn_next, turn_printed, turn_more};
ghost use Rattle.console.specs.Run.{reading_of};

use crate::LineProgram;
use text::lines::line_end;

// What is kept between two parts of the input: the program's state, the line under way, and whether a line has ended
// the program, as in `Reading` (text/specs/Feed.antt), by which RunRight is stated: a flag beside what it leaves.
#[derive(Drop)]
pub struct Run<P: LineProgram> {
    pub state: P,
    pub line: P::Line,
    pub over: bool,
}

// How much of a part of the input is read, and how many bytes of the output are to be written.
#[derive(Clone, Copy)]
struct Step {
    read: usize,
    written: usize,
}

// After a turn: the step, and whether more is to be read.
#[derive(Clone, Copy)]
pub struct Turn {
    pub read: usize,
    pub written: usize,
    pub more: bool,
}

impl<P: LineProgram> Run<P> {
    // Before any input: no line begun.
    pub fn first() -> Self
        ensures { reading_of P.state_of P.line_of result ≡ first_reading P.program }
    {
        Run {
            state: P::start(),
            line: P::no_line(),
            over: false,
        }
    }

    // The newline of the line under way: its answer goes into out from at on; the place behind it.
    fn newline(&mut self, out: &mut [u8], at: usize) -> usize
        requires still { self.old.over ≡ false }
        requires room { at + P.ANSWER_BYTES ≤ length out.old }
        ensures run { reading_of P.state_of P.line_of self.new ≡ fed_all P.program (reading_of P.state_of P.line_of self.old) (newline ∷ []) }
        ensures printed { PutDone (fed_all_printed P.program (reading_of P.state_of P.line_of self.old) (newline ∷ [])) out.old at out.new result }
        ensures bound { result ≤ at + P.ANSWER_BYTES }
    {
        let (state, end, over) = self.state.answer(self.line, out, at);
        self.state = state;
        self.line = P::no_line();
        self.over = over;
        end
    }

    // A part of the input up to behind its first newline, or to its end.
    fn feed_line(&mut self, input: &[u8], out: &mut [u8], at: usize) -> Step
        requires still { self.old.over ≡ false }
        requires some { 0 < length input.now }
        requires room { at + P.ANSWER_BYTES ≤ length out.old }
        ensures bounds { (0 < result.read) × (result.read ≤ length input.now) × (result.written ≤ at + P.ANSWER_BYTES) }
        ensures run { reading_of P.state_of P.line_of self.new ≡ fed_all P.program (reading_of P.state_of P.line_of self.old) (take result.read input.now) }
        ensures printed { PutDone (fed_all_printed P.program (reading_of P.state_of P.line_of self.old) (take result.read input.now)) out.old at out.new result.written }
    {
        let end = line_end(input, 0);
        self.line = P::line_with_all(self.line, &input[..end]);
        if end == input.len() {
            return Step {
                read: end,
                written: at,
            };
        }
        let written = self.newline(out, at);
        Step {
            read: end + 1,
            written,
        }
    }

    // A part of the input, line by line, as far as out has room for one more answer; after the line that ended the
    // program nothing of it is looked at. With room for as many answers as it has bytes, all of it is used.
    fn feed(&mut self, input: &[u8], out: &mut [u8]) -> Step
        requires { P.ANSWER_BYTES ≤ length out.old }
        ensures whole { length input.now * P.ANSWER_BYTES ≤ length out.old → result.read ≡ length input.now }
        ensures bounds { (result.read ≤ length input.now) × (0 < length input.now → 0 < result.read) × (result.written ≤ length out.new) }
        ensures run { reading_of P.state_of P.line_of self.new ≡ fed_all P.program (reading_of P.state_of P.line_of self.old) (take result.read input.now) }
        ensures printed { PutDone (fed_all_printed P.program (reading_of P.state_of P.line_of self.old) (take result.read input.now)) out.old 0 out.new result.written }
    {
        // How far the turn came is its result: an iterator over the lines would have to be counted all the same.
        let mut read = 0;
        let mut written = 0;
        while read < input.len() && P::ANSWER_BYTES <= out.len() - written {
            if self.over {
                return Step {
                    read: input.len(),
                    written,
                };
            }
            let step = self.feed_line(&input[read..], out, written);
            read += step.read;
            written = step.written;
        }
        Step { read, written }
    }

    // The end of the input: a last line without its newline is answered too, and what the program prints at its end
    // follows.
    fn finish(&self, out: &mut [u8]) -> usize
        requires { P.ANSWER_BYTES + P.FINISH_BYTES ≤ length out.old }
        ensures printed { PutDone (end_printed P.program (reading_of P.state_of P.line_of self.now)) out.old 0 out.new result }
        ensures bound { result ≤ length out.new }
    {
        if self.over {
            return 0;
        }
        if P::is_empty_line(self.line) {
            return self.state.put_finish(out, 0);
        }
        let (state, end, last) = self.state.answer(self.line, out, 0);
        if last {
            return end;
        }
        state.put_finish(out, end)
    }

    // A turn: a part of the input, as far as out has room for its answers, all of it where there is room for as many as
    // it has bytes, or the end of the input, which is an empty part. What is to be written goes to the head of out; no
    // more is read after the end of the input nor after a line that ended the program.
    pub fn turn(&mut self, input: &[u8], out: &mut [u8]) -> Turn
        requires { P.ANSWER_BYTES + P.FINISH_BYTES ≤ length out.old }
        ensures whole { length input.now * P.ANSWER_BYTES ≤ length out.old → result.read ≡ length input.now }
        ensures bounds { (result.read ≤ length input.now) × (0 < length input.now → 0 < result.read) × (result.written ≤ length out.new) }
        ensures run { reading_of P.state_of P.line_of self.new ≡ turn_next P.program (reading_of P.state_of P.line_of self.old) (take result.read input.now) }
        ensures printed { PutDone (turn_printed P.program (reading_of P.state_of P.line_of self.old) (take result.read input.now)) out.old 0 out.new result.written }
        ensures more { result.more ≡ turn_more P.program (reading_of P.state_of P.line_of self.old) (take result.read input.now) }
    {
        if input.is_empty() {
            let written = self.finish(out);
            return Turn {
                read: 0,
                written,
                more: false,
            };
        }
        let step = self.feed(input, out);
        Turn {
            read: step.read,
            written: step.written,
            more: !self.over,
        }
    }
}
