// Numbers in little-endian bytes, read from a slice and made as bytes.
ghost use Rattle.std.specs.Prelude.{◌≡◌, ◌+◌, ◌≤◌, length};
ghost use Rattle.lists.specs.LittleEndian.{le_at, le_bytes};

// The number in the N bytes from at on.
pub fn get<const N: usize>(s: &[u8], at: usize) -> u32
    requires { (N ≤ 4) × (at + N ≤ length s.now) }
    ensures { result ≡ le_at N s.now at }
{
    let mut number = 0;
    for i in (at..at + N).rev() {
        number = 256 * number + u32::from(s[i]);
    }
    number
}

// The lowest N bytes of a number.
pub fn bytes<const N: usize>(v: u32) -> [u8; N]
    ensures { result ≡ le_bytes N v }
{
    let mut bytes = [0; N];
    let mut rest = v;
    for byte in bytes.iter_mut() {
        *byte = (rest % 256) as u8;
        rest /= 256;
    }
    bytes
}
