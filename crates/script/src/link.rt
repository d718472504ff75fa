// What travels between the boxes: the commands m and a, and a drain and a read by themselves.
ghost use Rattle.std.specs.Prelude.{◌≡◌, false, cond, ◌+◌, ◌-◌, ◌<◌, ◌≤◌, ◌^◌, min, eqb, length, replicate, take};
ghost use Rattle.lists.specs.LittleEndian.{le_at};
ghost use Rattle.lists.specs.Part.{put};
ghost use Rattle.records.specs.Kind.{header_length};
ghost use Rattle.records.specs.Write.{ack_record};
ghost use Rattle.records.specs.Number.{nothing_free};
ghost use Rattle.rules.specs.Reply.{number_of, value_of, used_of};
ghost use Rattle.rules.specs.Step.{outcome, step};
ghost use Rattle.rules.specs.Stream.{drain_reply, drain_stream};
ghost use Rattle.rules.specs.World as call;
ghost use Rattle.script.specs.declared.Command.TheVariants.{Move, Acknowledge};
ghost use Rattle.script.specs.Pair.{ack_bytes, done, drained, drained_bytes, link_bytes, perform, refused};
ghost use Rattle.records.specs.Kind.{is_commit as is_commit_kind};
ghost use Rattle.script.specs.Site.{done_of, is_commit, standby_read, world_of};

use crate::{LINK_BYTES, Performed, PrimaryBox, Site, StandbyBox, StandbyRead};
use records::refusal::Refusal;
use records::{CUT_SHORT, EPOCH_RECORD, HEADER_LENGTH, Unread};
use rules::{Accepted, Primary, Reply};

// The value of an accepted COMMIT: its kind, of either width.
const COMMIT_VALUE: u64 = records::COMMIT as u64;

const WIDE_COMMIT_VALUE: u64 = records::WIDE_COMMIT as u64;

// The bytes of an ACK, in the width of a count.
const ACK_BYTES: u64 = EPOCH_RECORD as u64;

// The number of an answer.
fn number_of(a: Result<Accepted, Unread>) -> u64
    ensures { result ≡ number_of a }
{
    match a {
        Ok(_) => 0,
        Err(Unread::Short { .. }) => CUT_SHORT,
        Err(Unread::Refused { number }) => number,
    }
}

// The bytes that an answer says are used.
fn used_of(a: Result<Accepted, Unread>) -> usize
    ensures { result ≡ used_of a }
{
    a.map_or(0, |accepted| accepted.used)
}

// The site with nothing changed: a command with nothing there.
pub fn nothing_there(s: Site) -> Performed
    ensures { done_of result ≡ refused (world_of s) nothing_free }
{
    Performed::refused(s, Refusal::NothingFree)
}

// The site after a record was read, and what is printed of the answer.
fn answered(s: Site, a: Result<Accepted, Unread>) -> Performed
    ensures { done_of result ≡ record { next = world_of s; outcome = outcome (number_of a) (value_of a); last = false } }
{
    Performed::new(s, number_of(a), a.map_or(0, |accepted| accepted.value))
}

// The length of the record at the head of the stream.
fn first_length(stream: &[u8]) -> usize
    requires { 2 ≤ length stream.now }
    ensures { result ≡ header_length + le_at 2 stream.now 0 }
{
    HEADER_LENGTH + lists::field::get::<2>(stream, 0) as usize
}

// The bytes in the link.
pub fn in_link(linked: usize) -> usize
    ensures { result ≡ min linked link_bytes }
{
    linked.min(LINK_BYTES)
}

// A drain of up to n bytes into the link behind its first count bytes.
fn drain_behind(
    p: Primary,
    stream: &mut [u8],
    n: usize,
    link: &mut [u8],
    count: usize,
) -> Reply<Primary>
    requires { count ≤ length link.old }
    ensures value { result ≡ drain_reply p (length stream.old) n (length link.old - count) }
    ensures stream_after { stream.new ≡ drain_stream p stream.old n (length link.old - count) }
    ensures link_after { link.new ≡ put link.old count (take result.value stream.old) }
{
    primary::stream::drain(p, stream, n, &mut link[count..])
}

// Drains up to n bytes, no more than are free of the link.
pub fn drain_bytes(s: Site, n: usize) -> Site
    ensures { world_of result ≡ drained_bytes n (world_of s) }
{
    let Site {
        primary: mut end,
        mut link,
        ..
    } = s;
    let count = in_link(s.linked);
    let r = drain_behind(end.state, &mut end.stream, n, &mut link, count);
    end.state = r.state;
    Site {
        primary: end,
        link,
        linked: count + r.value as usize,
        ..s
    }
}

// The link, with a record drained into it where it is empty.
pub fn drain_record(s: Site) -> Site
    ensures { world_of result ≡ drained (world_of s) }
{
    if s.linked != 0 {
        return s;
    }
    drain_bytes(s, first_length(&s.primary.stream))
}

// Whether the value of an accepted read is that of a COMMIT.
fn is_commit(value: u64) -> bool
    ensures { result ≡ is_commit_kind value }
{
    (value == COMMIT_VALUE) | (value == WIDE_COMMIT_VALUE)
}

// The epoch of the first unread ACK after a read, by the last received epoch: a COMMIT's ACK is the last.
fn first_unread(unread: u64, a: Result<Accepted, Unread>, received: u32) -> u64
    ensures { result ≡ cond (is_commit a) (min unread received) unread }
{
    match a {
        Ok(accepted) if is_commit(accepted.value) => unread.min(received as u64),
        _ => unread,
    }
}

// Reads some bytes at the standby. An accepted COMMIT writes the ACK of the epoch that is then the last received: the
// bytes that `ack_bytes` makes of this epoch when the ACK is read.
fn read_reply(b: StandbyBox, bytes: &[u8]) -> StandbyRead
    ensures value { result ≡ standby_read b bytes.now }
    ensures reply_value { result.reply ≡ cond (is_commit result.answer) (ack_record result.standby.state.received) (replicate ack_bytes 0) }
{
    let mut standby = b;
    let mut reply = [0u8; EPOCH_RECORD];
    let r = standby::read::read(
        b.state,
        bytes,
        &mut standby.memory,
        &mut standby.pages,
        &mut standby.marks,
        &mut standby.blocks,
        &mut reply,
    );
    standby.state = r.state;
    StandbyRead {
        standby,
        answer: r.answer,
        reply,
    }
}

// Reads the record in the link: what it used leaves the link.
pub fn read_link(s: Site) -> Performed
    ensures { done_of result ≡ done (step (world_of s) (call.read (length (world_of s).link) (replicate ack_bytes 0))) }
{
    let mut link = s.link;
    let count = in_link(s.linked);
    let r = read_reply(s.standby, lists::part_of(&link, 0, count));
    let used = used_of(r.answer);
    lists::remove(&mut link, 0, used, count);
    let next = Site {
        standby: r.standby,
        link,
        linked: count - used,
        unread: first_unread(s.unread, r.answer, r.standby.state.received),
        ..s
    };
    answered(next, r.answer)
}

// `m`: drains one whole record into an empty link and reads it; a refused one is read again by the next `m`.
pub fn move_record(s: Site) -> Performed
    ensures { done_of result ≡ perform (world_of s) Move }
{
    if s.linked == 0 && s.primary.state.waiting == 0 {
        return nothing_there(s);
    }
    read_link(drain_record(s))
}

// The bytes of the unread ACKs.
pub fn unread_bytes(s: Site) -> u64
    ensures { result ≡ length (world_of s).acks }
{
    let last = s.standby.state.received as u64;
    if last < s.unread {
        return 0;
    }
    (last + 1 - s.unread) * ACK_BYTES
}

// The bytes of an ACK.
fn ack_bytes(epoch: u32) -> [u8; EPOCH_RECORD]
    ensures { result ≡ ack_record epoch }
{
    let mut bytes = [0u8; EPOCH_RECORD];
    records::writing::write_ack(&mut bytes, epoch);
    bytes
}

// The epoch of the first unread ACK after an ACK: the next one where it was used.
fn after_ack(unread: u64, used: usize) -> u64
    requires { unread < 2 ^ 32 }
    ensures { result ≡ cond (eqb used 0) unread (unread + 1) }
{
    if used == 0 {
        return unread;
    }
    unread + 1
}

// The first unread ACK at the primary.
fn read_ack(s: Site, epoch: u32) -> Performed
    requires { (s.unread ≡ epoch) × (epoch ≤ s.standby.state.received) }
    ensures { done_of result ≡ done (step (world_of s) (call.ack ack_bytes)) }
{
    let r = primary::stream::acknowledge(s.primary.state, &ack_bytes(epoch));
    let next = Site {
        primary: PrimaryBox {
            state: r.state,
            ..s.primary
        },
        unread: after_ack(s.unread, used_of(r.answer)),
        ..s
    };
    answered(next, r.answer)
}

// `a`: the next ACK.
pub fn acknowledge(s: Site) -> Performed
    ensures { done_of result ≡ perform (world_of s) Acknowledge }
{
    if (s.standby.state.received as u64) < s.unread {
        return nothing_there(s);
    }
    read_ack(s, s.unread as u32)
}
