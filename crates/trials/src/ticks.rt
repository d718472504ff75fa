// A whole tick.
ghost use Rattle.std.specs.Prelude.{◌≡◌, ◌<◌};
ghost use Rattle.trials.specs.Trial.{with_tick};
ghost use Rattle.trials.specs.Tick as spec;
ghost use Rattle.trials.specs.Site.{trial_of, course_of};

use crate::{TrialCourse, TrialSite, guest, once, turns};

// The next tick begins.
#[tactic(auto, unfolding(crate::specs::Site::trial_of))]
fn begun(t: TrialSite) -> TrialSite
    requires { t.tick < 4294967295 }
    ensures { trial_of result ≡ with_tick (trial_of t) }
{
    TrialSite {
        tick: t.tick + 1,
        ..t
    }
}

// "Within a tick come pages, blocks, packets, a checkpoint .., the link's bytes, reading, flush of all due, ACKs, both
// detectors, takes".
pub(crate) fn tick(t: TrialSite, pages: u64, blocks: u64, packets: u64) -> TrialCourse
    requires { t.tick < 4294967295 }
    ensures { course_of result ≡ (spec.tick pages blocks packets).course (trial_of t) }
{
    let start = begun(t);
    let written = guest::pages(start, pages)?;
    let stored = guest::blocks(written, blocks)?;
    let sent = guest::packets(stored, packets)?;
    let closed = once::checkpoint(sent)?;
    let drained = once::drain_link(closed);
    let read = turns::reading(drained)?;
    let flushed = once::flush(read);
    let acked = turns::acks(flushed)?;
    let ticked = once::detectors(acked);
    let receiving = once::takeover(ticked)?;
    turns::takes(receiving)
}
