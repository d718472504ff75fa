// What `plate` prints of a line.
ghost use Rattle.std.specs.Prelude.{◌≡◌, ◌+◌, ◌≤◌, length, IfOk};
ghost use Rattle.lists.specs.Part.{PutDone};
ghost use Rattle.plates.specs.Plate.{plate_of};
ghost use Rattle.plates.specs.Read.{most_bytes, output_of, ReadBound};

use crate::areas::put_area_output;
use crate::bad::put_bad;
use crate::heads::head_of;
use crate::hex::read_hex;
use crate::turns::put_plates;
use crate::{BadLine, Fault, MOST_BYTES, MOST_LINE, PlateHead};
use text::lines::part_end;

// A line: its first word, and the bytes behind it, which go to the head of bytes, with their count.
fn read_line(line: &[u8], bytes: &mut [u8]) -> Result<(PlateHead, usize), BadLine>
    requires { (length line.now ≤ 65537) × (length bytes.old ≡ most_bytes) }
    ensures value { output_of result bytes.new ≡ plate_of line.now }
    ensures bound { IfOk result ReadBound }
    ensures len { length bytes.new ≡ most_bytes }
{
    let n = line.len();
    if n == 0 {
        return Err(BadLine {
            fault: Fault::Empty,
            place: 1,
        });
    }
    if MOST_LINE < n {
        return Err(BadLine {
            fault: Fault::Long,
            place: MOST_LINE + 1,
        });
    }
    if line[n - 1] == b'\r' {
        return Err(BadLine {
            fault: Fault::Return,
            place: n,
        });
    }
    let end = part_end(line, 0, b' ');
    let head = head_of(&line[..end]).map_err(|fault| BadLine { fault, place: 1 })?;
    let count = read_hex(line, end, bytes)?;
    Ok((head, count))
}

// What is printed of a line.
pub fn put_answer(out: &mut [u8], at: usize, line: &[u8]) -> usize
    requires { (length line.now ≤ 65537) × (at + 721072 ≤ length out.old) }
    ensures put_done { PutDone (plate_of line.now) out.old at out.new result }
    ensures upper_bound { result ≤ at + 721072 }
{
    let mut bytes = [0u8; MOST_BYTES];
    match read_line(line, &mut bytes) {
        Ok((PlateHead::Area, count)) => put_area_output(out, at, &bytes[..count]),
        Ok((PlateHead::Unit { u }, count)) => put_plates(out, at, u, &bytes[..count]),
        Err(bad) => put_bad(out, at, bad),
    }
}
