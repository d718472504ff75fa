// Buffers of any size.
ghost use Rattle.std.specs.Prelude.{◌≡◌, length};

// Zeros. The `ensures` gives only the length, which lending the array as a slice needs.
pub fn zeros<const N: usize>() -> [u8; N]
    ensures { length result ≡ N }
{
    [0; N]
}
