// The primary's tick.
ghost use Rattle.std.specs.Prelude.{◌≡◌};
ghost use Rattle.records.specs.Number.{number_in};
ghost use Rattle.rules.specs.PrimaryTick.{primary_tick_refusal, outstanding, alone_at, primary_tick_state, primary_tick_reply};

use crate::ranges::primary_ok;
use detector::Detector;
use records::refusal::Refusal;
use rules::{Primary, Reply};

// Whether a tick is refused: 1.
#[tactic(auto, unfolding(rules::specs::PrimaryTick::primary_tick_refusal))]
fn check_tick(p: Primary) -> Result<(), Refusal>
    ensures { number_in result ≡ primary_tick_refusal p }
{
    if !primary_ok(p) {
        return Err(Refusal::OutOfRange);
    }
    Ok(())
}

// Whether a closed epoch is unacknowledged.
fn outstanding(p: Primary) -> bool
    ensures { result ≡ outstanding p }
{
    (p.acknowledged as u64) + 1 < p.epoch as u64
}

// The state once the detector has ticked: at T the primary is alone, and the waiting stream is dropped.
fn alone_at(p: Primary, detector: Detector) -> Primary
    ensures { result ≡ alone_at p detector }
{
    let alone = detector::expired(detector);
    Primary {
        detector,
        alone,
        waiting: if alone { 0 } else { p.waiting },
        ..p
    }
}

// Once alone, a tick changes nothing.
fn tick_state(p: Primary) -> Primary
    ensures { result ≡ primary_tick_state p }
{
    if p.alone {
        return p;
    }
    let next = detector::ticked_in_place(p.detector, outstanding(p));
    alone_at(p, next)
}

// Counts while a closed epoch is unacknowledged; at T the primary is alone.
pub fn tick(p: Primary) -> Reply<Primary>
    ensures { result ≡ primary_tick_reply p }
{
    if let Err(refusal) = check_tick(p) {
        return replies::refused(p, refusal);
    }
    replies::accepted(tick_state(p), 0)
}
