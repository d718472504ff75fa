// A line's answer, and what is printed at the end of the input.
ghost use Rattle.std.specs.Prelude.{◌≡◌, true, ◌+◌, ◌≤◌, length, replicate};
ghost use Rattle.lists.specs.Part.{PutDone};
ghost use Rattle.lists.specs.Refusal.{refusal};
ghost use Rattle.records.specs.Number.{number_in};
ghost use Rattle.rules.specs.Step.{outcome};
ghost use Rattle.trials.specs.Output.{unbegun, last_answered, plan_tests, plan_refused, answer_plan, tick_course, answer_course, trial_program, finished};
ghost use Rattle.trials.specs.Answer.{AnswerDone};
ghost use Rattle.trials.specs.Trial.{on};
ghost use Rattle.trials.specs.Site.{trial_of, end_of, course_of, stage_of};

use crate::counts::longest_of;
use crate::printing::{put_last, put_tick};
use crate::ticks::tick;
use crate::{TrialAnswer, TrialCourse, TrialEnd, TrialSite, TrialStage};
use records::refusal::Refusal;
use script::Site;
use script::printing::print;
use settings::MOST_PACKETS;
use text::Line;
use text::rows::is_row;

// The largest number of `pair`, and so the last tick.
const LAST_TICK: u64 = 4294967295;

// A trial with this site, before its first tick.
fn first_trial(interval: u64, rate: u64, site: Site) -> TrialSite
    ensures { result ≡ record { interval = interval; rate = rate; site = site; tick = 0; sent = replicate 64 0; most = 0 } }
{
    TrialSite {
        interval,
        rate,
        site,
        tick: 0,
        sent: [0u64; MOST_PACKETS],
        most: 0,
    }
}

// Before the first line.
pub fn unbegun_stage() -> TrialStage
    ensures { stage_of result ≡ unbegun }
{
    None
}

// A step that ends the run, and the last line.
fn last_answer(stage: TrialStage, letter: u8, number: u64, value: u64, most: u64) -> TrialAnswer
    ensures { AnswerDone (last_answered (stage_of stage) letter (outcome number value) most) result }
{
    let mut bytes = [0u8; 65];
    let n = print(&mut bytes, 0, letter, number, value);
    let length = put_last(&mut bytes, n, most);
    TrialAnswer {
        stage,
        bytes,
        length,
        last: true,
    }
}

// Whether the first line's three numbers are refused, by start's number: 1, then 27.
fn check_plan(started: u64, interval: u64, rate: u64) -> Result<(), Refusal>
    ensures { number_in result ≡ refusal (plan_tests started interval rate) }
{
    if started != 0 {
        return Err(Refusal::OutOfRange);
    }
    if interval == 0 || rate == 0 {
        return Err(Refusal::NoPlan);
    }
    Ok(())
}

// A first line that is refused.
fn plan_refused(number: u64) -> TrialAnswer
    ensures { AnswerDone (plan_refused number) result }
{
    last_answer(unbegun_stage(), b'?', number, 0, 0)
}

// A first line of three numbers.
fn answer_plan(interval: u64, rate: u64, t: u32) -> TrialAnswer
    ensures { AnswerDone (answer_plan true interval rate t) result }
{
    let started = script::sites::started_with(t);
    if let Err(refusal) = check_plan(started.number, interval, rate) {
        return plan_refused(refusal.number());
    }
    let stage = Some(first_trial(interval, rate, started.site));
    TrialAnswer {
        stage,
        bytes: [0u8; 65],
        length: 0,
        last: false,
    }
}

// What is printed of a tick that the trial went on after.
fn answer_tick(t: TrialSite) -> TrialAnswer
    ensures { AnswerDone (answer_course (on (trial_of t))) result }
{
    let mut bytes = [0u8; 65];
    let length = put_tick(&mut bytes, 0, t.site);
    TrialAnswer {
        stage: Some(t),
        bytes,
        length,
        last: false,
    }
}

// What is printed of the step that ended the trial.
fn answer_end(e: TrialEnd) -> TrialAnswer
    ensures { AnswerDone (answer_course (end_of e)) result }
{
    last_answer(
        Some(e.trial),
        e.letter,
        e.number,
        e.value,
        longest_of(e.trial),
    )
}

// A tick's line.
fn course_of(t: TrialSite, good: bool, pages: u64, blocks: u64, packets: u64) -> TrialCourse
    ensures { course_of result ≡ tick_course good pages blocks packets (trial_of t) }
{
    if !good || LAST_TICK <= t.tick {
        return Err(TrialEnd {
            trial: t,
            letter: b'?',
            number: Refusal::OutOfRange.number(),
            value: 0,
        });
    }
    tick(t, pages, blocks, packets)
}

// The answer to a line.
pub fn answer(s: TrialStage, l: Line) -> TrialAnswer
    ensures { AnswerDone (trial_program.answer_kept (stage_of s) l) result }
{
    let good = is_row(l);
    let Some(trial) = s else {
        if !good {
            return plan_refused(Refusal::OutOfRange.number());
        }
        return answer_plan(l.lead.value, l.first.value, l.second.value as u32);
    };
    match course_of(trial, good, l.lead.value, l.first.value, l.second.value) {
        Ok(next) => answer_tick(next),
        Err(end) => answer_end(end),
    }
}

// At the end of the input: the last line, from at on; the position behind it.
pub fn put_finish(out: &mut [u8], at: usize, s: TrialStage) -> usize
    requires { at + 21 ≤ length out.old }
    ensures put_done { PutDone (finished (stage_of s)) out.old at out.new result }
    ensures upper_bound { result ≤ at + 21 }
{
    let most = s.map_or(0, longest_of);
    put_last(out, at, most)
}
