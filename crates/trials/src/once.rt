// The parts of a tick that come once: a checkpoint, the link's bytes, a flush, the detectors and a takeover.
ghost use Rattle.std.specs.Prelude.{◌≡◌};
ghost use Rattle.trials.specs.Trial.{on};
ghost use Rattle.trials.specs.Tick as tick;
ghost use Rattle.trials.specs.Site.{trial_of, course_of};

use crate::courses::{ending, unless_refused, with_site};
use crate::{TrialCourse, TrialSite};
use rules::Mode;
use script::link::drain_bytes;
use script::{primary_commands, standby_commands};

// "a checkpoint at multiples of the interval".
pub(crate) fn checkpoint(t: TrialSite) -> TrialCourse
    ensures { course_of result ≡ (tick.checkpoint).course (trial_of t) }
{
    if !t.tick.is_multiple_of(t.interval) {
        return Ok(t);
    }
    unless_refused(t, b'c', primary_commands::close(t.site, 1))
}

// "the link's bytes".
pub(crate) fn drain_link(t: TrialSite) -> TrialSite
    ensures { on (trial_of result) ≡ (tick.drain_link).course (trial_of t) }
{
    with_site(t, drain_bytes(t.site, t.rate as usize))
}

// "flush of all due".
pub(crate) fn flush(t: TrialSite) -> TrialSite
    ensures { on (trial_of result) ≡ (tick.flush).course (trial_of t) }
{
    with_site(t, standby_commands::flushed_all(t.site))
}

// "both detectors": the primary's, then the standby's.
pub(crate) fn detectors(t: TrialSite) -> TrialSite
    ensures { on (trial_of result) ≡ (tick.detectors).course (trial_of t) }
{
    let first = primary_commands::primary_ticked(t.site);
    with_site(t, standby_commands::ticked(first))
}

// Whether the standby of a trial is no longer receiving.
#[tactic(auto, unfolding(crate::specs::Site::trial_of, script::specs::Site::world_of))]
fn took_over(t: TrialSite) -> bool
    ensures { result ≡ tick.took_over (trial_of t) }
{
    !matches!(t.site.standby.state.mode, Mode::Receiving)
}

// A takeover: a flush of all due and the activation, which ends the run.
pub(crate) fn takeover(t: TrialSite) -> TrialCourse
    ensures { course_of result ≡ (tick.takeover).course (trial_of t) }
{
    if !took_over(t) {
        return Ok(t);
    }
    let stored = standby_commands::flushed_all(t.site);
    let last = standby_commands::activated(stored);
    Err(ending(with_site(t, last.site), b'k', last))
}
