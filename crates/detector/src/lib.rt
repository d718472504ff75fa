// The detector of each end: its patience, and the ticks that it has counted.
#![tactic(auto)]

ghost use Rattle.std.specs.Prelude.{◌≡◌};
ghost use Rattle.detector.specs.Range.{detector_ok};
ghost use Rattle.detector.specs.Tick.{expired, reset, ticked};

#[derive(Clone, Copy)]
pub struct Detector {
    pub patience: u32,
    pub count: u32,
}

// The count has reached the patience.
pub fn expired(d: Detector) -> bool
    ensures { result ≡ expired d }
{
    d.count >= d.patience
}

// Whether a detector is in its ranges; watching is whether its ticks count.
#[tactic(auto, unfolding(crate::specs::Range::detector_ok))]
pub fn detector_ok(d: Detector, watching: bool) -> bool
    ensures { result ≡ detector_ok d watching }
{
    settings::patience_ok(d.patience) & (d.count <= d.patience) & !(watching & expired(d))
}

// The count returns to 0.
pub fn reset(d: Detector) -> Detector
    ensures { result ≡ reset d }
{
    Detector { count: 0, ..d }
}

// A tick by value.
#[tactic(auto, unfolding(crate::specs::Tick::ticked))]
pub fn ticked(d: Detector, outstanding: bool) -> Detector
    ensures { result ≡ ticked d outstanding }
{
    if expired(d) {
        return d;
    }
    let count = if outstanding { d.count + 1 } else { 0 };
    Detector { count, ..d }
}

// The tick in place.
pub fn tick(d: &mut Detector, outstanding: bool)
    ensures { d.new ≡ ticked d.old outstanding }
{
    *d = ticked(*d, outstanding);
}

// The tick by value through the tick in place, so that the ends need no walk of a lent struct.
pub fn ticked_in_place(mut d: Detector, outstanding: bool) -> Detector
    ensures { result ≡ ticked d outstanding }
{
    tick(&mut d, outstanding);
    d
}
