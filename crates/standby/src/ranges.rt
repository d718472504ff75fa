// Number 1: whether the standby's state is in its ranges, and its mode.
ghost use Rattle.std.specs.Prelude.{◌≡◌};
ghost use Rattle.rules.specs.StandbyState.{is_receiving, is_taking_over, is_active, standby_ok};

use rules::{Mode, Standby};
use settings::MOST_RECORDS;

pub fn is_receiving(mode: Mode) -> bool
    ensures { result ≡ is_receiving mode }
{
    matches!(mode, Mode::Receiving)
}

pub fn is_taking_over(mode: Mode) -> bool
    ensures { result ≡ is_taking_over mode }
{
    matches!(mode, Mode::TakingOver)
}

pub fn is_active(mode: Mode) -> bool
    ensures { result ≡ is_active mode }
{
    matches!(mode, Mode::Active)
}

// Whether the state is in its ranges. The settings come first, by a return: with an S known to be at most 64 the slots'
// numbers are looked at where they lie, and not in a copy.
#[tactic(auto, unfolding(rules::specs::StandbyState::standby_ok))]
pub fn standby_ok(s: Standby) -> bool
    ensures { result ≡ standby_ok s }
{
    let g = s.settings;
    if !settings::standby_settings_ok(g) {
        return false;
    }
    staging::slots_ok(s.slots, g.s, g.d)
        & (s.blocks <= g.b)
        & (s.records <= MOST_RECORDS)
        & (s.pages <= g.m)
        & detector::detector_ok(s.detector, is_receiving(s.mode))
}
