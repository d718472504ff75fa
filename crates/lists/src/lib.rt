// Copies and moves inside lent slices, and a part of one, on which every layer above rests. Numbers in bytes are in
// `field`.
#![tactic(auto)]

pub mod field;

ghost use Rattle.std.specs.Prelude.{◌≡◌, ◌+◌, ◌≤◌, length};
ghost use Rattle.lists.specs.Part.{part, put, removed};

// The bytes that are moved at once within one slice.
const CHUNK: usize = 4096;

// Copies src to the head of dst, byte by byte: for so few bytes a call of a block move takes longer.
fn copy_few(dst: &mut [u8], src: &[u8])
    requires { length src.now ≤ length dst.old }
    ensures { dst.new ≡ put dst.old 0 src.now }
{
    for (i, byte) in src.iter().enumerate() {
        dst[i] = *byte;
    }
}

// Copies 64 bytes to the head of dst. By way of an array, which overlaps no slice, these are a few moves and no loop.
fn copy_64(dst: &mut [u8], src: &[u8])
    requires { (length src.now ≡ 64) × (64 ≤ length dst.old) }
    ensures { dst.new ≡ put dst.old 0 src.now }
{
    let mut bytes = [0u8; 64];
    bytes.copy_from_slice(src);
    dst[..64].copy_from_slice(&bytes);
}

// Copies src to the head of dst; the bytes behind stay.
pub fn copy_front(dst: &mut [u8], src: &[u8])
    requires { length src.now ≤ length dst.old }
    ensures { dst.new ≡ put dst.old 0 src.now }
{
    match src.len() {
        // the least page, and a processor state
        64 => copy_64(dst, src),
        n if n < 1024 => copy_few(dst, src),
        n => dst[..n].copy_from_slice(src),
    }
}

// Copies src into dst from at on; all other bytes stay.
pub fn copy_into(dst: &mut [u8], at: usize, src: &[u8])
    requires { at + length src.now ≤ length dst.old }
    ensures { dst.new ≡ put dst.old at src.now }
{
    copy_front(&mut dst[at..], src);
}

// The n bytes of s from at on.
pub fn part_of(s: &[u8], at: usize, n: usize) -> &[u8]
    requires { at + n ≤ length s.now }
    ensures { result.now ≡ part at n s.now }
{
    &s[at..at + n]
}

// Moves n bytes from from on to the place to, which is not behind them, by way of an array: it overlaps no slice, so that
// this is one block move.
fn move_chunk(s: &mut [u8], to: usize, from: usize, n: usize)
    requires { (n ≤ 4096) × (to ≤ from) × (from + n ≤ length s.old) }
    ensures { s.new ≡ put s.old to (part from n s.old) }
{
    let mut chunk = [0u8; CHUNK];
    let bytes = &mut chunk[..n];
    bytes.copy_from_slice(&s[from..from + n]);
    s[to..to + n].copy_from_slice(bytes);
}

// Removes n of the first total bytes, from at on: the rest of them closes up, and the bytes behind stay. `copy_within`
// takes 1.2 to 1.4 times as long from 4 KiB on.
pub fn remove(s: &mut [u8], at: usize, n: usize, total: usize)
    requires { (at + n ≤ total) × (total ≤ length s.old) }
    ensures { s.new ≡ removed at n total s.old }
{
    let from = at + n;
    let count = total - from;
    for i in (0..count).step_by(CHUNK) {
        move_chunk(s, at + i, from + i, CHUNK.min(count - i));
    }
}
