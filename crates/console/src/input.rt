// What was read of the input and is not used yet, in fixed memory.
ghost use Rattle.std.specs.Prelude.{◌≡◌, ℕ, List, [], ◌-◌, ◌≤◌, ◌<◌, OnOk, length, take, drop};
ghost use Rattle.std.specs.Io.KnownBytes.{IsAtEnd, Keeps, prepend_known};

use std::io;
use std::io::Read;
use std::marker::Model;

// The bytes of the array from `from` to `to`. A contract sees them as a list.
#[derive(Drop)]
pub struct Input<const N: usize> {
    bytes: [u8; N],
    from: usize,
    to: usize,
}

impl<const N: usize> Model for Input<N> {
    ghost Value = { List ℕ };

    ghost view = { λ i. take (i.to - i.from) (drop i.from i.bytes) };

    ghost invariant = { λ i. (i.from ≤ i.to) × (i.to ≤ N) };
}

impl<const N: usize> Input<N> {
    // Nothing read.
    pub fn new() -> Self
        ensures { result ≡ [] }
    {
        Input {
            bytes: [0; N],
            from: 0,
            to: 0,
        }
    }

    pub fn as_slice(&self) -> &[u8]
        ensures { result.now ≡ self.now }
    {
        let bytes = &self.bytes[..];
        &bytes[self.from..self.to]
    }

    // The first n bytes are used.
    pub fn consume(&mut self, n: usize)
        requires { n ≤ length self.old }
        ensures { self.new ≡ drop n self.old }
    {
        self.from += n;
    }

    // Reads where all that was read is used. Where nothing is left after it, the input is at its end or the read
    // failed.
    pub fn refill<R: Read>(&mut self, reader: &mut R) -> io::Result<()>
        ensures kept { Keeps (prepend_known self.old (R.remaining reader.old)) (prepend_known self.new (R.remaining reader.new)) }
        ensures ended { OnOk result (length self.new ≡ 0 → 0 < N → IsAtEnd (R.remaining reader.new)) }
    {
        if self.from == self.to {
            self.from = 0;
            self.to = 0;
            self.to = reader.read(&mut self.bytes)?;
        }
        Ok(())
    }
}
