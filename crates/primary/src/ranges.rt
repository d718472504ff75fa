// Number 1: whether the primary's state, and what is lent, is in its ranges.
ghost use Rattle.std.specs.Prelude.{◌≡◌, ◌&&◌, not, leb, ltb, eqb};
ghost use Rattle.settings.specs.Range.{primary_settings_ok, most_records};
ghost use Rattle.detector.specs.Range.{detector_ok};
ghost use Rattle.rules.specs.PrimaryState.{primary_ok, memory_length, marks_length};

use rules::Primary;
use settings::MOST_RECORDS;

// Whether all of a state but its queue is in its ranges. Packet, take and drain ask this, and test the queue, apart: the
// state is lent, since by value its packets would go too.
pub(crate) fn numbers_ok(p: &Primary) -> bool
    ensures { result ≡ (primary_settings_ok p.now.settings && ltb p.now.acknowledged p.now.epoch && leb p.now.waiting p.now.settings.l && leb p.now.blocks p.now.settings.b && leb p.now.records most_records && detector_ok p.now.detector (not p.now.alone)) }
{
    settings::primary_settings_ok(p.settings)
        && p.acknowledged < p.epoch
        && p.waiting <= p.settings.l
        && p.blocks <= p.settings.b
        && p.records <= MOST_RECORDS
        && detector::detector_ok(p.detector, !p.alone)
}

// Whether the state is in its ranges; the queue, whose packets are looked at one by one, comes last.
#[tactic(auto, using(crate::proofs::RangeLaws::parts))]
pub fn primary_ok(p: Primary) -> bool
    ensures { result ≡ primary_ok p }
{
    numbers_ok(&p) && queue::queue_ok(p.queue, p.epoch, p.settings.q)
}

// Number 1 of a call that is lent the memory and the dirty marks.
#[tactic(auto, using(crate::proofs::RangeLaws::memory_fits))]
pub(crate) fn memory_ok(p: Primary, memory: usize, dirty: usize) -> bool
    ensures { result ≡ (primary_ok p && eqb memory (memory_length p) && eqb dirty (marks_length p)) }
{
    let g = p.settings;
    primary_ok(p) && memory == g.m * g.u && dirty == g.m.div_ceil(64)
}
