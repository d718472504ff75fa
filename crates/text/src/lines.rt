// Where lines and words end.
ghost use Rattle.std.specs.Prelude.{◌≡◌, ◌+◌, length, drop};
ghost use Rattle.text.specs.Line.{first_part, first_line};

// The place of the first separator at or behind from, or the end.
pub fn part_end(s: &[u8], from: usize, separator: u8) -> usize
    ensures { result ≡ from + length (first_part separator (drop from s.now)) }
{
    let Some(behind) = s.get(from..) else {
        return from;
    };
    let found = behind.iter().position(|b| *b == separator);
    from + found.unwrap_or(behind.len())
}

// The place of the first newline at or behind from, or the end.
pub fn line_end(s: &[u8], from: usize) -> usize
    ensures { result ≡ from + length (first_line (drop from s.now)) }
{
    part_end(s, from, b'\n')
}
