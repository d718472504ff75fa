// Flush: blocks that are due go to the disk.
ghost use Rattle.std.specs.Prelude.{◌≡◌, length};
ghost use Rattle.records.specs.Number.{number_in};
ghost use Rattle.rules.specs.Flush.{flush_refusal, flush_reply, flush_staged_blocks, flush_disk};

use crate::ranges::standby_ok;
use records::refusal::Refusal;
use rules::{Reply, Standby};

// Whether a flush is refused, from the lengths of the staged blocks and the disk.
#[tactic(auto, using(crate::proofs::FitsLaws::slots_fit, crate::proofs::FitsLaws::disk_fits), unfolding(rules::specs::Flush::flush_refusal))]
fn check_flush(s: Standby, slots: usize, disk: usize) -> Result<(), Refusal>
    ensures { number_in result ≡ flush_refusal s slots disk }
{
    let g = s.settings;
    if !standby_ok(s) || slots != g.s * g.u || disk != g.d * g.u {
        return Err(Refusal::OutOfRange);
    }
    Ok(())
}

// Flush with budget n: stores at most n of the blocks that are due, in order of arrival.
#[tactic(auto, unfolding(rules::specs::Flush::flush_reply, rules::specs::Flush::flush_staged_blocks, rules::specs::Flush::flush_disk))]
pub fn flush(s: Standby, slots: &mut [u8], disk: &mut [u8], n: usize) -> Reply<Standby>
    ensures value { result ≡ flush_reply s (length slots.old) (length disk.old) n }
    ensures slots_after { slots.new ≡ flush_staged_blocks s slots.old disk.old n }
    ensures disk_after { disk.new ≡ flush_disk s slots.old disk.old n }
{
    if let Err(refusal) = check_flush(s, slots.len(), disk.len()) {
        return replies::refused(s, refusal);
    }
    let count = staging::flush(slots, disk, s.slots, s.settings.u, n);
    let state = Standby {
        slots: staging::flushed(s.slots, count),
        ..s
    };
    replies::accepted(state, count as u64)
}
