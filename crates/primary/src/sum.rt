// The sum of the primary's memory (document 02, Job 11).
ghost use Rattle.std.specs.Prelude.{◌≡◌};
ghost use Rattle.records.specs.Number.{number_in};
ghost use Rattle.rules.specs.Sums.{primary_sum_refusal, primary_sum_reply};

use crate::ranges::primary_ok;
use records::refusal::Refusal;
use rules::{Primary, Reply};

// Whether a sum is refused: 1.
#[tactic(auto, using(crate::proofs::RangeLaws::memory_fits), unfolding(rules::specs::Sums::primary_sum_refusal))]
fn check_sum(p: Primary, memory: usize) -> Result<(), Refusal>
    ensures { number_in result ≡ primary_sum_refusal p memory }
{
    if !primary_ok(p) || memory != p.settings.m * p.settings.u {
        return Err(Refusal::OutOfRange);
    }
    Ok(())
}

// The pages added in rising order; in any mode, and the state stays.
pub fn sum(p: Primary, memory: &[u8]) -> Reply<Primary>
    ensures { result ≡ primary_sum_reply p memory.now }
{
    if let Err(refusal) = check_sum(p, memory.len()) {
        return replies::refused(p, refusal);
    }
    let g = p.settings;
    replies::accepted(p, sums::rising_sum(memory, g.u, g.m))
}
