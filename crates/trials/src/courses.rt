// A trial's course: the trial with another site, and what a step's outcome makes of it.
ghost use Rattle.std.specs.Prelude.{◌≡◌};
ghost use Rattle.rules.specs.Step.{outcome};
ghost use Rattle.script.specs.Site.{world_of};
ghost use Rattle.trials.specs.Trial.{with_world};
ghost use Rattle.trials.specs.Part.{unless_refused};
ghost use Rattle.trials.specs.Site.{trial_of, course_of};

use crate::{TrialCourse, TrialEnd, TrialSite};
use script::{Performed, Site};

// The trial with another site, which holds as many packets.
#[tactic(auto, unfolding(crate::specs::Site::trial_of))]
pub(crate) fn with_site(t: TrialSite, site: Site) -> TrialSite
    requires { site.primary.state.queue.count ≡ t.site.primary.state.queue.count }
    ensures { trial_of result ≡ with_world (trial_of t) (world_of site) }
{
    TrialSite { site, ..t }
}

// A step ends the trial.
pub(crate) fn ending(trial: TrialSite, letter: u8, step: Performed) -> TrialEnd
    ensures { result ≡ record { trial = trial; letter = letter; number = step.number; value = step.value } }
{
    TrialEnd {
        trial,
        letter,
        number: step.number,
        value: step.value,
    }
}

// The trial after a step that neither sends nor takes a packet: "A step refused .. ends the run".
pub(crate) fn unless_refused(t: TrialSite, letter: u8, step: Performed) -> TrialCourse
    requires { step.site.primary.state.queue.count ≡ t.site.primary.state.queue.count }
    ensures { course_of result ≡ unless_refused letter (λ u. u) (with_world (trial_of t) (world_of step.site)) (outcome step.number step.value) }
{
    let trial = with_site(t, step.site);
    if step.number != 0 {
        return Err(ending(trial, letter, step));
    }
    Ok(trial)
}
