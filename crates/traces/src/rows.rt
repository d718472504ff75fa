// A row of the table: a command, its answer, and what is at both ends after it.
ghost use Rattle.std.specs.Prelude.{◌≡◌, cond, [], ◌∷◌, ◌++◌, ◌+◌, ◌*◌, ◌≤◌, length, All};
ghost use Rattle.lists.specs.Part.{PutDone};
ghost use Rattle.text.specs.Line.{space};
ghost use Rattle.text.specs.Decimal.{decimal};
ghost use Rattle.text.specs.Column.{left, right};
ghost use Rattle.script.specs.Site.{world_of};
ghost use Rattle.traces.specs.Words.{command_words, answer_words};
ghost use Rattle.traces.specs.Row.{header_line, in_columns, heads, epoch_columns, head_columns, count_columns, mode_remark, remarks, row_of};
ghost use Rattle.traces.specs.Site.{row_bytes};

use crate::words::{put_answer, put_command};
use crate::{LineFault, TraceCommand};
use rules::Mode;
use script::link::in_link;
use script::{Performed, Site};
use text::printing::{pad, put_byte, put_right, put_text};

// The header line.
pub(crate) fn put_header(out: &mut [u8], at: usize) -> usize
    requires { at + 200 ≤ length out.old }
    ensures put_done { PutDone header_line out.old at out.new result }
    ensures upper_bound { result ≤ at + 200 }
{
    put_text(
        out,
        at,
        b"command  answer                           value  open acked received    primary pages   primary blocks    standby pages   standby blocks held waiting link staged due\n",
    )
}

// Numbers, each at the right of a column of its width.
fn put_columns(out: &mut [u8], at: usize, columns: &[(usize, u64)]) -> usize
    requires { All (λ c. c.0 ≤ 20) columns.now × (at + 20 * length columns.now ≤ length out.old) }
    ensures put_done { PutDone (in_columns columns.now) out.old at out.new result }
    ensures upper_bound { result ≤ at + 20 * length columns.now }
{
    let mut next = at;
    for (width, number) in columns {
        next = put_right(out, next, *width, *number);
    }
    next
}

// The first byte of each of the four pages of a memory, or blocks of a disk.
fn put_heads(out: &mut [u8], at: usize, s: &[u8]) -> usize
    requires { (at + 80 ≤ length out.old) × (length s.now ≡ 256) }
    ensures put_done { PutDone (heads s.now) out.old at out.new result }
    ensures upper_bound { result ≤ at + 80 }
{
    let columns = [
        (5, s[0] as u64),
        (4, s[64] as u64),
        (4, s[128] as u64),
        (4, s[192] as u64),
    ];
    put_columns(out, at, &columns)
}

// The first bytes of both ends.
fn put_head_columns(out: &mut [u8], at: usize, site: Site) -> usize
    requires { at + 320 ≤ length out.old }
    ensures put_done { PutDone (head_columns (world_of site)) out.old at out.new result }
    ensures upper_bound { result ≤ at + 320 }
{
    let a = put_heads(out, at, &site.primary.memory);
    let b = put_heads(out, a, &site.primary.disk);
    let c = put_heads(out, b, &site.standby.memory);
    put_heads(out, c, &site.standby.disk)
}

// The open, the acknowledged and the received epoch.
fn put_epochs(out: &mut [u8], at: usize, site: Site) -> usize
    requires { at + 60 ≤ length out.old }
    ensures put_done { PutDone (epoch_columns (world_of site)) out.old at out.new result }
    ensures upper_bound { result ≤ at + 60 }
{
    let primary = site.primary.state;
    let columns = [
        (6, primary.epoch as u64),
        (6, primary.acknowledged as u64),
        (9, site.standby.state.received as u64),
    ];
    put_columns(out, at, &columns)
}

// Packets held, bytes waiting and on the link, slots staged and due.
fn put_counts(out: &mut [u8], at: usize, site: Site) -> usize
    requires { at + 100 ≤ length out.old }
    ensures put_done { PutDone (count_columns (world_of site)) out.old at out.new result }
    ensures upper_bound { result ≤ at + 100 }
{
    let primary = site.primary.state;
    let slots = site.standby.state.slots;
    let columns = [
        (5, primary.queue.count as u64),
        (8, primary.waiting as u64),
        (5, in_link(site.linked) as u64),
        (7, slots.staged as u64),
        (4, slots.due as u64),
    ];
    put_columns(out, at, &columns)
}

// A text, where it is shown.
fn shown(shown: bool, text: &'static [u8]) -> &'static [u8]
    ensures value { result.now ≡ cond shown text.now [] }
    ensures bound { length result.now ≤ length text.now }
{
    if shown { text } else { b"" }
}

// The standby's mode, where it does not receive.
fn mode_words(mode: Mode) -> &'static [u8]
    ensures value { result.now ≡ mode_remark mode }
    ensures bound { length result.now ≤ 21 }
{
    match mode {
        Mode::Receiving => b"",
        Mode::TakingOver => b"  standby taking over",
        Mode::Active => b"  standby active",
    }
}

// What is not as at the start.
fn put_remarks(out: &mut [u8], at: usize, site: Site, damaged: bool) -> usize
    requires { at + 73 ≤ length out.old }
    ensures put_done { PutDone (remarks (world_of site) damaged) out.old at out.new result }
    ensures upper_bound { result ≤ at + 73 }
{
    let alone = shown(site.primary.state.alone, b"  primary alone");
    let mode = mode_words(site.standby.state.mode);
    let no_run = shown(damaged, b"  no run of document 01: link damaged");
    let a = put_text(out, at, alone);
    let b = put_text(out, a, mode);
    put_text(out, b, no_run)
}

// The command, its answer and the value.
fn put_said(out: &mut [u8], at: usize, c: TraceCommand, fault: LineFault, done: Performed) -> usize
    requires { at + 142 ≤ length out.old }
    ensures put_done { PutDone (left 9 (command_words c ++ (space ∷ [])) ++ left 33 (answer_words c fault done.number) ++ right 5 (decimal done.value)) out.old at out.new result }
    ensures upper_bound { result ≤ at + 142 }
{
    let a = put_command(out, at, c);
    let s = put_byte(out, a, b' ');
    let b = pad(out, at, s, 9);
    let d = put_answer(out, b, c, fault, done.number);
    let e = pad(out, b, d, 33);
    put_right(out, e, 5, done.value)
}

// A row, with its newline: of a command that was performed.
pub(crate) fn put_row(
    out: &mut [u8],
    at: usize,
    c: TraceCommand,
    fault: LineFault,
    done: Performed,
    damaged: bool,
) -> usize
    requires { at + row_bytes ≤ length out.old }
    ensures put_done { PutDone (row_of (command_words c) (answer_words c fault done.number) done.value (world_of done.site) damaged) out.old at out.new result }
    ensures upper_bound { result ≤ at + row_bytes }
{
    let a = put_said(out, at, c, fault, done);
    let b = put_epochs(out, a, done.site);
    let d = put_head_columns(out, b, done.site);
    let e = put_counts(out, d, done.site);
    let f = put_remarks(out, e, done.site, damaged);
    put_byte(out, f, b'\n')
}
