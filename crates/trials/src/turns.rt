// The parts of a tick that are repeated: reading, ACKs and takes.
ghost use Rattle.std.specs.Prelude.{◌≡◌, suc, ◌-◌, Bool, max, take, drop, get_or};
ghost use Rattle.trials.specs.Trial.{Trial};
ghost use Rattle.trials.specs.Part.{Part, whilst};
ghost use Rattle.trials.specs.Tick.{reads_on, read_turn, reading, acks_unread, ack_turn, acks, may_take, take_turn, takes};
ghost use Rattle.trials.specs.Site.{trial_of, course_of, kept_with, turn_of, turn, Turns};

use crate::counts::{most_with, without_first};
use crate::courses::{ending, unless_refused};
use crate::{TrialCourse, TrialSite, Turn};
use records::CUT_SHORT;
use records::refusal::Refusal;
use script::link::{acknowledge, in_link, read_link, unread_bytes};
use script::{Site, primary_commands};

// A record is read, where it has wholly come.
fn read_one(t: TrialSite) -> Turn
    ensures { turn_of result ≡ turn reads_on read_turn (trial_of t) }
{
    let step = read_link(t.site);
    if step.number == CUT_SHORT {
        return Ok(None);
    }
    Ok(Some(unless_refused(t, b'm', step)?))
}

// An ACK is read, where one is unread.
fn ack_one(t: TrialSite) -> Turn
    ensures { turn_of result ≡ turn acks_unread ack_turn (trial_of t) }
{
    if unread_bytes(t.site) == 0 {
        return Ok(None);
    }
    Ok(Some(unless_refused(t, b'a', acknowledge(t.site))?))
}

// The trial after a take: the oldest packet's tick leaves.
fn taken(t: TrialSite, site: Site) -> TrialSite
    ensures value { result ≡ kept_with t site result.sent result.most }
    ensures sent_value { take 63 result.sent ≡ drop 1 t.sent }
    ensures most_value { result.most ≡ max t.most (t.tick - get_or t.sent 0 0) }
{
    let sent = without_first(t.sent);
    let most = most_with(t.sent, t.tick, t.most);
    TrialSite {
        site,
        sent,
        most,
        ..t
    }
}

// A packet is taken, where one may leave.
fn take_one(t: TrialSite) -> Turn
    ensures { turn_of result ≡ turn may_take take_turn (trial_of t) }
{
    let step = primary_commands::take(t.site);
    if step.number == Refusal::NothingFree.number() {
        return Ok(None);
    }
    if step.number != 0 {
        let trial = TrialSite {
            site: step.site,
            ..t
        };
        return Err(ending(trial, b't', step));
    }
    Ok(Some(taken(t, step.site)))
}

// A turn, and n more at the most, while there is something to do.
fn repeat<F: Fn(TrialSite) -> Turn>(t: TrialSite, n: u64, turn: F) -> TrialCourse
    requires { F.IsAlwaysCallable turn }
    ensures { (test : Trial → Bool) (part : Part) → Turns (F.post turn) test part → course_of result ≡ (whilst test part (suc n)).course (trial_of t) }
{
    let mut trial = t;
    let mut left = n;
    while let Some(next) = turn(trial)? {
        trial = next;
        if left == 0 {
            return Ok(trial);
        }
        left -= 1;
    }
    Ok(trial)
}

// "reading": all unread bytes, until they are cut short; each turn that goes on reads at least one.
pub(crate) fn reading(t: TrialSite) -> TrialCourse
    ensures { course_of result ≡ reading.course (trial_of t) }
{
    repeat(t, in_link(t.site.linked) as u64, read_one)
}

// "ACKs", until none is unread.
pub(crate) fn acks(t: TrialSite) -> TrialCourse
    ensures { course_of result ≡ acks.course (trial_of t) }
{
    repeat(t, unread_bytes(t.site), ack_one)
}

// "takes", until 18.
pub(crate) fn takes(t: TrialSite) -> TrialCourse
    ensures { course_of result ≡ takes.course (trial_of t) }
{
    repeat(t, t.site.primary.state.queue.count as u64, take_one)
}
