// What leaves the primary on the link, and what comes back: drain and ACK.
ghost use Rattle.std.specs.Prelude.{◌≡◌, ◌≤◌, min, length, take, Ok};
ghost use Rattle.lists.specs.Part.{put, removed};
ghost use Rattle.lists.specs.Refusal.{refusal, pick};
ghost use Rattle.records.specs.Number.{number_in};
ghost use Rattle.rules.specs.PrimaryState.{with_waiting};
ghost use Rattle.rules.specs.Reply.{Answered};
ghost use Rattle.rules.specs.Stream.{drain_refusal, drain_reply, drain_stream, drain_destination, ack_tests, ack_refusal, ack_judged, ack_state, ack_reply};

use crate::ranges::{numbers_ok, primary_ok};
use records::refusal::{Refusal, number_in};
use records::{Reader, Record, Unread};
use rules::{Primary, ReadReply, Reply};

fn with_waiting(p: Primary, waiting: usize) -> Primary
    ensures { result ≡ with_waiting p waiting }
{
    Primary { waiting, ..p }
}

// Whether a drain is refused: 1.
#[tactic(auto, using(crate::proofs::RangeLaws::parts), unfolding(rules::specs::Stream::drain_refusal))]
fn check_drain(p: Primary, stream: usize) -> Result<(), Refusal>
    ensures { number_in result ≡ drain_refusal p stream }
{
    let g = p.settings;
    if !numbers_ok(&p) || !queue::queue_ok(p.queue, p.epoch, g.q) || stream != g.l {
        return Err(Refusal::OutOfRange);
    }
    Ok(())
}

// Copies the first count bytes of the stream to the destination, and moves the rest of those waiting to the front.
fn move_out(stream: &mut [u8], count: usize, waiting: usize, destination: &mut [u8])
    requires { (count ≤ waiting) × (waiting ≤ length stream.old) × (count ≤ length destination.old) }
    ensures stream_after { stream.new ≡ removed 0 count waiting stream.old }
    ensures destination_after { destination.new ≡ put destination.old 0 (take count stream.old) }
{
    lists::copy_front(destination, lists::part_of(stream, 0, count));
    lists::remove(stream, 0, count, waiting);
}

// The same where a drain is accepted, and nothing where it is refused with this number: how many bytes have left.
fn moved(stream: &mut [u8], number: u64, n: usize, waiting: usize, destination: &mut [u8]) -> usize
    requires { number ≡ 0 → waiting ≤ length stream.old }
    ensures value { result ≡ pick number (min n (min waiting (length destination.old))) 0 }
    ensures stream_after { stream.new ≡ pick number (removed 0 (min n (min waiting (length destination.old))) waiting stream.old) stream.old }
    ensures destination_after { destination.new ≡ pick number (put destination.old 0 (take (min n (min waiting (length destination.old))) stream.old)) destination.old }
{
    if number != 0 {
        return 0;
    }
    let count = n.min(waiting.min(destination.len()));
    move_out(stream, count, waiting, destination);
    count
}

// Moves the first min(n, waiting, destination length) bytes out and reports how many. It returns at one place, accepted
// or refused: so the compiler sees that the packets stay where they are (docs/BENCHMARKS.md).
pub fn drain(p: Primary, stream: &mut [u8], n: usize, destination: &mut [u8]) -> Reply<Primary>
    ensures value { result ≡ drain_reply p (length stream.old) n (length destination.old) }
    ensures stream_after { stream.new ≡ drain_stream p stream.old n (length destination.old) }
    ensures destination_after { destination.new ≡ drain_destination p stream.old n destination.old }
{
    let number = number_in(check_drain(p, stream.len()));
    let count = moved(stream, number, n, p.waiting, destination);
    Reply {
        state: with_waiting(p, p.waiting - count),
        number,
        value: count as u64,
    }
}

// Whether an ACK of this epoch is refused: 11.
fn check_epoch(p: Primary, epoch: u32) -> Result<(), Refusal>
    ensures { number_in result ≡ refusal (ack_tests p epoch) }
{
    if epoch <= p.acknowledged || p.epoch <= epoch {
        return Err(Refusal::BadAck);
    }
    Ok(())
}

// Whether a record that was read is refused: 6 for other kinds than an ACK, 11.
fn check_ack(p: Primary, r: Record) -> Result<(), Refusal>
    ensures { number_in result ≡ ack_refusal p (Ok r) }
{
    match r {
        Record::Ack { epoch, .. } => check_epoch(p, epoch),
        Record::Page { .. } | Record::Block { .. } | Record::State { .. } | Record::Commit { .. } =>
            Err(Refusal::BadKind),
    }
}

// The record at the head of the bytes where it is accepted, else cut short or the number.
fn ack_judged(p: Primary, bytes: &[u8]) -> Result<Record, Unread>
    ensures { result ≡ ack_judged p bytes.now }
{
    if !primary_ok(p) {
        return Err(Refusal::OutOfRange.into());
    }
    if p.alone {
        return Err(Refusal::WrongMode.into());
    }
    let r = records::reading::read(Reader::Primary, p.settings.u, bytes)?;
    check_ack(p, r)?;
    Ok(r)
}

// The state after a judged record: an ACK acknowledges all epochs up to its own, and the count returns to 0.
fn ack_state(p: Primary, r: Result<Record, Unread>) -> Primary
    ensures { result ≡ ack_state p r }
{
    match r {
        Ok(Record::Ack { epoch, .. }) => Primary {
            acknowledged: epoch,
            detector: detector::reset(p.detector),
            ..p
        },
        Ok(Record::Page { .. })
        | Ok(Record::Block { .. })
        | Ok(Record::State { .. })
        | Ok(Record::Commit { .. })
        | Err(_) => p,
    }
}

// Reads an ACK: it acknowledges all epochs up to its own.
pub fn acknowledge(p: Primary, bytes: &[u8]) -> ReadReply<Primary>
    ensures value { result ≡ ack_reply p bytes.now }
    ensures answered { Answered (ack_judged p bytes.now) result.answer }
{
    let r = ack_judged(p, bytes);
    ReadReply {
        state: ack_state(p, r),
        answer: replies::answer_of(r),
    }
}
