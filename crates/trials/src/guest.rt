// What the guest does in a tick: pages, blocks and packets.
ghost use Rattle.std.specs.Prelude.{◌≡◌, ℕ, ◌<◌};
ghost use Rattle.trials.specs.Part.{Part, each};
ghost use Rattle.trials.specs.Tick.{write_page, write_block, send_packet};
ghost use Rattle.trials.specs.Site.{trial_of, course_of, DoesAt};

use crate::counts::with_last;
use crate::courses::{ending, unless_refused};
use crate::{TrialCourse, TrialSite};
use script::primary_commands;

// "filled as `w` and `d` do with 1".
const FILLED: u8 = 1;

// A page is written.
fn write_page(t: TrialSite, page: u64) -> TrialCourse
    ensures { course_of result ≡ (write_page page).course (trial_of t) }
{
    unless_refused(t, b'w', primary_commands::write(t.site, page, FILLED))
}

// A block is written.
fn write_block(t: TrialSite, block: u64) -> TrialCourse
    ensures { course_of result ≡ (write_block block).course (trial_of t) }
{
    unless_refused(t, b'd', primary_commands::disk(t.site, block, FILLED))
}

// A packet of one byte is sent, whichever of them it is: the tick is kept with it.
fn send_packet(t: TrialSite, _packet: u64) -> TrialCourse
    ensures { course_of result ≡ (send_packet _packet).course (trial_of t) }
{
    let step = primary_commands::send(t.site, 1);
    let trial = TrialSite {
        site: step.site,
        ..t
    };
    if step.number != 0 {
        return Err(ending(trial, b's', step));
    }
    let sent = with_last(t.sent, t.site.primary.state.queue.count, t.tick);
    Ok(TrialSite { sent, ..trial })
}

// "a count n means pages or blocks 0 to n less 1, .. or n packets".
fn each_of<F: Fn(TrialSite, u64) -> TrialCourse>(t: TrialSite, n: u64, work: F) -> TrialCourse
    requires { F.IsAlwaysCallable work }
    ensures { (part : ℕ → Part) → DoesAt n (F.post work) part → course_of result ≡ (each part 0 n).course (trial_of t) }
{
    let mut trial = t;
    for i in 0..n {
        trial = work(trial, i)?;
    }
    Ok(trial)
}

// "pages".
pub(crate) fn pages(t: TrialSite, n: u64) -> TrialCourse
    ensures { course_of result ≡ (each write_page 0 n).course (trial_of t) }
{
    each_of(t, n, write_page)
}

// "blocks".
pub(crate) fn blocks(t: TrialSite, n: u64) -> TrialCourse
    ensures { course_of result ≡ (each write_block 0 n).course (trial_of t) }
{
    each_of(t, n, write_block)
}

// "packets".
pub(crate) fn packets(t: TrialSite, n: u64) -> TrialCourse
    ensures { course_of result ≡ (each send_packet 0 n).course (trial_of t) }
{
    each_of(t, n, send_packet)
}
