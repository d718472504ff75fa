// What is printed of a tick, and last.
ghost use Rattle.std.specs.Prelude.{◌+◌, ◌≤◌, length};
ghost use Rattle.lists.specs.Part.{PutDone};
ghost use Rattle.script.specs.Site.{world_of};
ghost use Rattle.trials.specs.Output.{tick_line, last_line};

use script::Site;
use text::printing::{put_byte, put_number};

// "the open epoch, packets held and stream bytes waiting", with a newline, from at on; the position behind them.
pub(crate) fn put_tick(out: &mut [u8], at: usize, s: Site) -> usize
    requires { at + 63 ≤ length out.old }
    ensures put_done { PutDone (tick_line (world_of s)) out.old at out.new result }
    ensures upper_bound { result ≤ at + 63 }
{
    let state = s.primary.state;
    let a = put_number(out, at, state.epoch as u64);
    let b = put_byte(out, a, b' ');
    let c = put_number(out, b, state.queue.count as u64);
    let d = put_byte(out, c, b' ');
    let e = put_number(out, d, state.waiting as u64);
    put_byte(out, e, b'\n')
}

// "and last, however it ends, the most ticks".
pub fn put_last(out: &mut [u8], at: usize, most: u64) -> usize
    requires { at + 21 ≤ length out.old }
    ensures put_done { PutDone (last_line most) out.old at out.new result }
    ensures upper_bound { result ≤ at + 21 }
{
    let a = put_number(out, at, most);
    put_byte(out, a, b'\n')
}
