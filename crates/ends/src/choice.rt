// The choice of disk after both boxes fail.
ghost use Rattle.std.specs.Prelude.{◌≡◌, length};
ghost use Rattle.rules.specs.Choose.{choice_number, choice_of, chosen, chosen_disk};

use records::disk_area::read_area;
use records::refusal::Refusal;
use records::{AREA_LENGTH, Area};
use rules::Disk;

// From the lengths of the two disks and the record area: 1 where the disks differ in length or the area is not 8 bytes,
// else what the area says.
#[tactic(auto, unfolding(rules::specs::Choose::choice_of))]
pub fn decide(primary: usize, standby: usize, area: &[u8]) -> Result<Disk, Refusal>
    ensures { result ≡ choice_of primary standby area.now }
{
    if primary != standby || area.len() != AREA_LENGTH {
        return Err(Refusal::OutOfRange);
    }
    match read_area(area) {
        Area::Zero => Ok(Disk::PrimaryDisk),
        Area::Activation { .. } => Ok(Disk::StandbyDisk),
        Area::Neither => Err(Refusal::BadArea),
    }
}

// The chosen one of the two lent disks, itself; on 1 or 12 an empty part of the primary's. The number goes to `number`,
// and is no Result: on a refusal too the place of what is handed back is promised (clause `place`), as C has it.
pub fn choose<'a>(primary: &'a [u8], standby: &'a [u8], area: &[u8], number: &mut u64) -> &'a [u8]
    ensures bytes { result.now ≡ chosen_disk primary.now standby.now area.now }
    ensures place { result.ref_ptr ≡ chosen (choice_of (length primary.now) (length standby.now) area.now) primary.entry.ref_ptr standby.entry.ref_ptr primary.entry.ref_ptr }
    ensures number { number.new ≡ choice_number (choice_of (length primary.now) (length standby.now) area.now) }
{
    match decide(primary.len(), standby.len(), area) {
        Ok(Disk::PrimaryDisk) => {
            *number = 0;
            primary
        }
        Ok(Disk::StandbyDisk) => {
            *number = 0;
            standby
        }
        Err(refusal) => {
            *number = refusal.number();
            &primary[0..0]
        }
    }
}
