// The commands that are calls of the standby: f, and k with its three ticks, flush of all due and activation, each of
// which is a call of its own too.
#![tactic(auto, using(crate::proofs::SiteLaws::received), unfolding(rules::specs::Step::step, crate::specs::Pair::perform, crate::specs::Pair::takeover_done, crate::specs::Site::world_of))]

ghost use Rattle.std.specs.Prelude.{◌≡◌, true};
ghost use Rattle.rules.specs.Step.{step, outcome};
ghost use Rattle.rules.specs.World as call;
ghost use Rattle.script.specs.declared.Command.TheVariants.{Flush, Takeover};
ghost use Rattle.script.specs.Pair.{done, perform};
ghost use Rattle.script.specs.Site.{world_of, done_of};

use crate::sites::with_standby;
use crate::{Performed, Site};

// A flush with budget n.
fn flushed(s: Site, n: usize) -> Performed
    ensures { done_of result ≡ done (step (world_of s) (call.flush n)) }
{
    let mut b = s.standby;
    let r = standby::flush::flush(b.state, &mut b.blocks, &mut b.disk, n);
    b.state = r.state;
    Performed::new(with_standby(s, b), r.number, r.value)
}

// `f`: flush 1.
pub fn flush(s: Site) -> Performed
    ensures { done_of result ≡ perform (world_of s) Flush }
{
    flushed(s, 1)
}

// A flush of all due.
pub fn flushed_all(s: Site) -> Site
    ensures { world_of result ≡ (step (world_of s) (call.flush (world_of s).standby.state.slots.due)).next }
{
    flushed(s, s.standby.state.slots.due).site
}

// One tick of the standby.
pub fn ticked(s: Site) -> Site
    ensures { world_of result ≡ (step (world_of s) call.standby_tick).next }
{
    let mut b = s.standby;
    b.state = standby::takeover::tick(b.state, &mut b.marks).state;
    with_standby(s, b)
}

// Activation, the last call.
pub fn activated(s: Site) -> Performed
    ensures site_value { world_of result.site ≡ (step (world_of s) call.activation).next }
    ensures value_value { outcome result.number result.value ≡ (step (world_of s) call.activation).outcome }
    ensures last_value { result.last ≡ true }
{
    let mut b = s.standby;
    let r = standby::takeover::activate(b.state, &mut b.area);
    b.state = r.state;
    Performed {
        last: true,
        ..Performed::new(with_standby(s, b), r.number, r.value)
    }
}

// `k`: three ticks, a flush of all due, activation; the end.
pub fn takeover(s: Site) -> Performed
    ensures { done_of result ≡ perform (world_of s) Takeover }
{
    let expired = ticked(ticked(ticked(s)));
    activated(flushed_all(expired))
}
