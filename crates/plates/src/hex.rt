// Reading bytes in hexadecimal.
ghost use Rattle.std.specs.Prelude.{◌≡◌, ◌≤◌, ◌<◌, length, drop, IfSome, IfOk};
ghost use Rattle.plates.specs.Hex.{digit_of, hex_behind};
ghost use Rattle.plates.specs.Plate.{most_line};
ghost use Rattle.plates.specs.Read.{digit_or_none, hex_of, hex_step, most_bytes};

use crate::{BadLine, Fault, HexStep};

// The value of a digit, of either case.
fn digit_of(c: u8) -> Option<u8>
    ensures value { digit_or_none result ≡ digit_of c }
    ensures bound { IfSome result (λ d. d < 16) }
{
    match c {
        b'0'..=b'9' => Some(c - b'0'),
        b'A'..=b'F' => Some(c - b'A' + 10),
        b'a'..=b'f' => Some(c - b'a' + 10),
        _ => None,
    }
}

// One character, where half is the first digit of the byte under way.
fn hex_step(half: Option<u8>, c: u8) -> Result<HexStep, Fault>
    requires { IfSome half (λ d. d < 16) }
    ensures { result ≡ hex_step (digit_or_none half) c }
{
    if c == b' ' {
        return if half.is_some() {
            Err(Fault::Half)
        } else {
            Ok(HexStep::Between)
        };
    }
    let Some(digit) = digit_of(c) else {
        return Err(Fault::NotHex);
    };
    match half {
        None => Ok(HexStep::First { digit }),
        Some(first) => Ok(HexStep::Whole {
            byte: 16 * first + digit,
        }),
    }
}

// The bytes of a line behind its first `from` characters, to the head of bytes; their count.
pub(crate) fn read_hex(line: &[u8], from: usize, bytes: &mut [u8]) -> Result<usize, BadLine>
    requires { (from ≤ length line.now) × (length line.now ≤ most_line) × (length bytes.old ≡ most_bytes) }
    ensures value { hex_of result bytes.new ≡ hex_behind from (drop from line.now) }
    ensures count_bound { IfOk result (λ n. n ≤ most_bytes) }
    ensures len { length bytes.new ≡ most_bytes }
{
    let mut count: usize = 0;
    let mut half: Option<u8> = None;
    for i in from..line.len() {
        let step = hex_step(half, line[i]).map_err(|fault| BadLine {
            fault,
            place: i + 1,
        })?;
        half = match step {
            HexStep::Between => None,
            HexStep::First { digit } => Some(digit),
            HexStep::Whole { byte } => {
                bytes[count] = byte;
                count += 1;
                None
            }
        };
    }
    if half.is_some() {
        return Err(BadLine {
            fault: Fault::Half,
            place: line.len() + 1,
        });
    }
    Ok(count)
}
