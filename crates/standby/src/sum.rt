// The sum of the standby's memory (document 02, Job 11).
ghost use Rattle.std.specs.Prelude.{◌≡◌};
ghost use Rattle.records.specs.Number.{number_in};
ghost use Rattle.rules.specs.Sums.{standby_sum_refusal, standby_sum_reply};

use crate::ranges::standby_ok;
use records::refusal::Refusal;
use rules::{Reply, Standby};

// Whether a sum is refused: 1, also where the order does not name each page once.
#[tactic(auto, using(crate::proofs::FitsLaws::memory_fits, crate::proofs::FitsLaws::pages_few), unfolding(rules::specs::Sums::standby_sum_refusal))]
fn check_sum(s: Standby, memory: usize, order: &[u64]) -> Result<(), Refusal>
    ensures { number_in result ≡ standby_sum_refusal s memory order.now }
{
    let g = s.settings;
    if !standby_ok(s) || memory != g.m * g.u || !sums::names_each(order, g.m) {
        return Err(Refusal::OutOfRange);
    }
    Ok(())
}

// The pages added in this order; in any mode, and the state stays.
#[tactic(auto, unfolding(rules::specs::Sums::standby_sum_reply))]
pub fn sum(s: Standby, memory: &[u8], order: &[u64]) -> Reply<Standby>
    ensures { result ≡ standby_sum_reply s memory.now order.now }
{
    let g = s.settings;
    if let Err(refusal) = check_sum(s, memory.len(), order) {
        return replies::refused(s, refusal);
    }
    replies::accepted(s, sums::order_sum(memory, order, g.u, g.m))
}
