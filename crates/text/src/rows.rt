// A line of three numbers.
ghost use Rattle.std.specs.Prelude.{◌≡◌};
ghost use Rattle.text.specs.Row.{is_row_kept};

use crate::Line;
use crate::kept::number_is;

// "Other numbers at most 4,294,967,295".
const MOST_NUMBER: u64 = 4294967295;

// Whether the line is a row.
pub fn is_row(l: Line) -> bool
    ensures { result ≡ is_row_kept l }
{
    (l.words == 3)
        & number_is(MOST_NUMBER, l.lead)
        & number_is(MOST_NUMBER, l.first)
        & number_is(MOST_NUMBER, l.second)
}
