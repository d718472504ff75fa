// What is kept of a line, a byte at a time.
ghost use Rattle.std.specs.Prelude.{◌≡◌};
ghost use Rattle.text.specs.Kept.{kept_all};
ghost use Rattle.traces.specs.Fault.{no_trace_line, trace_line_with};

use crate::TraceLine;

// The line before its first byte.
pub fn no_trace_line() -> TraceLine
    ensures { result ≡ no_trace_line }
{
    TraceLine {
        line: text::kept::no_line(),
        last: 0,
    }
}

// The bytes of a part, one after another.
pub fn trace_line_with_all(l: TraceLine, bytes: &[u8]) -> TraceLine
    ensures { result ≡ kept_all trace_line_with l bytes.now }
{
    let n = bytes.len();
    if n == 0 {
        return l;
    }
    TraceLine {
        line: text::kept::line_with_all(l.line, bytes),
        last: bytes[n - 1],
    }
}
