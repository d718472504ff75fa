// What is kept of a line under way: its first bytes, up to one more than the longest line has.
ghost use Rattle.std.specs.Prelude.{◌≡◌, [], ◌≤◌, length};
ghost use Rattle.text.specs.Kept.{kept_all};
ghost use Rattle.text.specs.Line.{is_empty};
ghost use Rattle.plates.specs.Plate.{kept_with};
ghost use Rattle.plates.specs.Read.{kept_of};

use crate::{KeptLine, MOST_LINE};

// The line before its first byte.
pub fn no_kept() -> KeptLine
    ensures { kept_of result ≡ [] }
{
    KeptLine {
        bytes: [0u8; MOST_LINE + 1],
        length: 0,
    }
}

// The count of its bytes: a length above that of the array stands for the whole array.
pub fn kept_length(l: KeptLine) -> usize
    ensures { (result ≡ length (kept_of l)) × (result ≤ 65537) }
{
    l.length.min(MOST_LINE + 1)
}

// Whether no byte of the line has come.
pub fn is_empty_kept(l: KeptLine) -> bool
    ensures { result ≡ is_empty (kept_of l) }
{
    kept_length(l) == 0
}

// The bytes of a part, as far as there is room.
pub fn kept_with_all(l: KeptLine, bytes: &[u8]) -> KeptLine
    ensures { kept_of result ≡ kept_all kept_with (kept_of l) bytes.now }
{
    let length = kept_length(l);
    let n = bytes.len().min(MOST_LINE + 1 - length);
    let mut line = l.bytes;
    lists::copy_into(&mut line, length, lists::part_of(bytes, 0, n));
    KeptLine {
        bytes: line,
        length: length + n,
    }
}
