// Reading the record area of the standby's disk.
ghost use Rattle.std.specs.Prelude.{◌≡◌};
ghost use Rattle.records.specs.Area.{all_zero, area_of};

use crate::{ACTIVATION, AREA_LENGTH, Area, EPOCH_FIELD};
use lists::field::get;

// Whether each byte is 0.
fn all_zero(s: &[u8]) -> bool
    ensures { result ≡ all_zero s.now }
{
    s.iter().all(|byte| *byte == 0)
}

// What the record area holds: all zero, an activation with its epoch, or neither, which is also what another length than 8 is.
pub fn read_area(s: &[u8]) -> Area
    ensures { result ≡ area_of s.now }
{
    if s.len() != AREA_LENGTH {
        return Area::Neither;
    }
    if all_zero(s) {
        return Area::Zero;
    }
    if get::<2>(s, 0) != EPOCH_FIELD {
        return Area::Neither;
    }
    if get::<2>(s, 2) != ACTIVATION {
        return Area::Neither;
    }
    Area::Activation {
        epoch: get::<4>(s, 4),
    }
}
