// Writing a record into the part of the outgoing slice that the writer is handed, at its head.
// A part too short, or a number that does not fit its field, writes nothing and reports 0; otherwise the length written is
// reported. 0 and no Option: `Written` (specs/Write.antt), which each writer promises, says 0.
ghost use Rattle.std.specs.Prelude.{◌≡◌, ◌+◌, ◌≤◌, ◌<◌, ◌^◌, true, ◌++◌, length};
ghost use Rattle.lists.specs.LittleEndian.{le_bytes};
ghost use Rattle.lists.specs.Part.{put};
ghost use Rattle.records.specs.Kind.{number_width, number_end};
ghost use Rattle.records.specs.Write.{unit_record, page_record, block_record, state_record, commit_record, epoch_record, ack_record, activation_record, unit_fits, counts_fit, Written};

use crate::kinds::{commit_kind, commit_length, most_number, number_end, page_kind};
use crate::{
    ACK, ACTIVATION, BLOCK, EPOCH_FIELD, EPOCH_RECORD, HEADER_LENGTH, MOST_TWO, STATE, STATE_BODY,
    STATE_RECORD,
};
use lists::field::bytes;

// The length of a STATE's body in the width of its field, and the most bytes of a record whose length fits it.
const STATE_FIELD: u32 = STATE_BODY as u32;

const MOST_RECORD: usize = HEADER_LENGTH + MOST_TWO;

// The head that every record has: the length of its body, its kind and its epoch.
fn put_head(out: &mut [u8], n: u32, kind: u32, epoch: u32)
    requires { 8 ≤ length out.old }
    ensures { out.new ≡ put out.old 0 (le_bytes 2 n ++ le_bytes 2 kind ++ le_bytes 4 epoch) }
{
    lists::copy_front(out, &bytes::<2>(n));
    lists::copy_into(out, 2, &bytes::<2>(kind));
    lists::copy_into(out, 4, &bytes::<4>(epoch));
}

// A page or block number, or a count.
fn put_number(out: &mut [u8], at: usize, wide: bool, number: u32)
    requires { at + number_width wide ≤ length out.old }
    ensures { out.new ≡ put out.old at (le_bytes (number_width wide) number) }
{
    if wide {
        lists::copy_into(out, at, &bytes::<4>(number));
    } else {
        lists::copy_into(out, at, &bytes::<2>(number));
    }
}

fn put_unit(out: &mut [u8], kind: u32, wide: bool, epoch: u32, number: u32, body: &[u8])
    requires { (length body.now + (4 + number_width wide) < 2 ^ 16) × (length body.now + number_end wide ≤ length out.old) }
    ensures { out.new ≡ put out.old 0 (unit_record kind (number_width wide) epoch number body.now) }
{
    let head = number_end(wide);
    let n = (body.len() + (head - HEADER_LENGTH)) as u32;
    put_head(out, n, kind, epoch);
    put_number(out, EPOCH_RECORD, wide, number);
    lists::copy_into(out, head, body);
}

fn write_unit(
    out: &mut [u8],
    kind: u32,
    wide: bool,
    epoch: u32,
    number: usize,
    body: &[u8],
) -> usize
    ensures { Written (unit_fits (number_width wide) number body.now) (unit_record kind (number_width wide) epoch number body.now) out.old out.new result }
{
    let n = body.len();
    let head = number_end(wide);
    if most_number(wide) < number || MOST_RECORD - head < n || out.len() < n + head {
        return 0;
    }
    put_unit(out, kind, wide, epoch, number as u32, body);
    n + head
}

// PAGE, kind 1, or 8 where it is wide.
pub fn write_page(out: &mut [u8], wide: bool, epoch: u32, page: usize, body: &[u8]) -> usize
    ensures { Written (unit_fits (number_width wide) page body.now) (page_record wide epoch page body.now) out.old out.new result }
{
    write_unit(out, page_kind(wide), wide, epoch, page, body)
}

// BLOCK, kind 2.
pub fn write_block(out: &mut [u8], epoch: u32, block: usize, body: &[u8]) -> usize
    ensures { Written (unit_fits 2 block body.now) (block_record epoch block body.now) out.old out.new result }
{
    write_unit(out, BLOCK, false, epoch, block, body)
}

// STATE, kind 3, with a processor state.
pub fn write_state(out: &mut [u8], epoch: u32, processor: &[u8; 64]) -> usize
    ensures { Written true (state_record epoch processor.now) out.old out.new result }
{
    // A slice before the test: there its length is known.
    let bytes: &[u8] = processor;
    if out.len() < STATE_RECORD {
        return 0;
    }
    put_head(out, STATE_FIELD, STATE, epoch);
    lists::copy_into(out, EPOCH_RECORD, bytes);
    STATE_RECORD
}

// COMMIT, kind 4, or 9 where it is wide, with the counts of the checkpoint's PAGE and BLOCK records.
pub fn write_commit(out: &mut [u8], wide: bool, epoch: u32, pages: usize, blocks: usize) -> usize
    ensures { Written (counts_fit wide pages blocks) (commit_record wide epoch pages blocks) out.old out.new result }
{
    let n = commit_length(wide);
    if most_number(wide) < pages || most_number(wide) < blocks || out.len() < n {
        return 0;
    }
    put_head(out, (n - HEADER_LENGTH) as u32, commit_kind(wide), epoch);
    put_number(out, EPOCH_RECORD, wide, pages as u32);
    put_number(out, number_end(wide), wide, blocks as u32);
    n
}

fn write_epoch(out: &mut [u8], kind: u32, epoch: u32) -> usize
    ensures { Written true (epoch_record kind epoch) out.old out.new result }
{
    if out.len() < EPOCH_RECORD {
        return 0;
    }
    put_head(out, EPOCH_FIELD, kind, epoch);
    EPOCH_RECORD
}

// ACK, kind 5.
pub fn write_ack(out: &mut [u8], epoch: u32) -> usize
    ensures { Written true (ack_record epoch) out.old out.new result }
{
    write_epoch(out, ACK, epoch)
}

// The activation record, kind 6.
pub fn write_activation(out: &mut [u8], epoch: u32) -> usize
    ensures { Written true (activation_record epoch) out.old out.new result }
{
    write_epoch(out, ACTIVATION, epoch)
}
