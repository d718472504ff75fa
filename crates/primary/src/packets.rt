// Packets: held with the open epoch and a port, and handed out, a port's oldest, once their epoch is acknowledged.
// Both calls look at the packets, and change them, in one array of their own, which goes into the reply whether the
// call is accepted or not: so the compiler makes one array of those of several calls, where a queue that is handed on
// by value is a copy each time.
ghost use Rattle.std.specs.Prelude.{◌≡◌, ◌&&◌, true, eqb, length};
ghost use Rattle.records.specs.Number.{number_in};
ghost use Rattle.queue.specs.Held.{queue_ok, has_packet, oldest};
ghost use Rattle.queue.specs.Seen.{seen_ok};
ghost use Rattle.rules.specs.PrimaryState.{primary_ok, with_queue};
ghost use Rattle.rules.specs.Packets.{packet_refusal, packet_reply, packet_held, take_refusal, take_reply, take_held, take_destination};

use crate::ranges::numbers_ok;
use queue::{Packet, Place, Queue, Seen};
use records::refusal::{Refusal, number_in};
use rules::{Primary, Reply};
use settings::{MOST_PACKET_BYTES, MOST_PACKETS, MOST_PORT};

fn with_queue(p: Primary, queue: Queue) -> Primary
    ensures { result ≡ with_queue p queue }
{
    Primary { queue, ..p }
}

// Number 1 of a call that is lent the held bytes, by what was seen of the packets.
#[tactic(auto, using(crate::proofs::RangeLaws::parts))]
fn held_ok(p: &Primary, seen: Option<Seen>, held: usize) -> bool
    requires { seen_ok seen p.now.queue.count p.now.queue.bytes p.now.epoch p.now.settings.q ≡ queue_ok p.now.queue p.now.epoch p.now.settings.q }
    ensures { result ≡ (primary_ok p.now && eqb held p.now.settings.q) }
{
    let k = p.queue;
    let q = p.settings.q;
    numbers_ok(p) && queue::seen_ok(seen, k.count, k.bytes, p.epoch, q) && held == q
}

// Whether a packet of n bytes is refused, by what was seen of those held: 1 4 23 16.
#[tactic(auto, unfolding(rules::specs::Packets::packet_refusal))]
fn check_packet(
    p: Primary,
    seen: Option<Seen>,
    held: usize,
    port: usize,
    n: usize,
) -> Result<(), Refusal>
    requires { seen_ok seen p.queue.count p.queue.bytes p.epoch p.settings.q ≡ queue_ok p.queue p.epoch p.settings.q }
    ensures { number_in result ≡ packet_refusal p held port n }
{
    let q = p.settings.q;
    let k = p.queue;
    if !held_ok(&p, seen, held) {
        return Err(Refusal::OutOfRange);
    }
    if n < 1 || MOST_PACKET_BYTES < n {
        return Err(Refusal::BadPacket);
    }
    if MOST_PORT < port {
        return Err(Refusal::NoSuchPort);
    }
    if !queue::has_space(k, q, n) {
        return Err(Refusal::QueueFull);
    }
    Ok(())
}

// Copies a packet and holds it with the open epoch and its port.
pub fn packet(p: Primary, held: &mut [u8], port: usize, bytes: &[u8]) -> Reply<Primary>
    ensures value { result ≡ packet_reply p (length held.old) port (length bytes.now) }
    ensures held_after { held.new ≡ packet_held p held.old port bytes.now }
{
    let k = p.queue;
    let n = bytes.len();
    let mut packets = k.packets;
    let mut count = k.count;
    let mut total = k.bytes;
    let seen = queue::seen_of(&packets[..count.min(MOST_PACKETS)]);
    let number = number_in(check_packet(p, seen, held.len(), port, n));
    let mut value: u64 = 0;
    if number == 0 {
        packets[count] = Packet {
            epoch: p.epoch,
            length: n as u16,
            port: port as u16,
        };
        lists::copy_into(held, total, bytes);
        count += 1;
        total += n;
        value = count as u64;
    }
    let next = Queue {
        count,
        bytes: total,
        packets,
    };
    Reply {
        state: with_queue(p, next),
        number,
        value,
    }
}

// Whether a take into a destination of this length is refused, by what was seen of the packets held, by whether the
// port has one, and by its oldest: 1 23 18 5.
#[tactic(auto, unfolding(rules::specs::Packets::take_refusal))]
fn check_take(
    p: Primary,
    seen: Option<Seen>,
    found: bool,
    first: u32,
    n: usize,
    held: usize,
    port: usize,
    destination: usize,
) -> Result<(), Refusal>
    requires { (seen_ok seen p.queue.count p.queue.bytes p.epoch p.settings.q ≡ queue_ok p.queue p.epoch p.settings.q) × (queue_ok p.queue p.epoch p.settings.q ≡ true → (found ≡ has_packet p.queue port) × (found ≡ true → (first ≡ (oldest p.queue port).epoch) × (n ≡ (oldest p.queue port).length))) }
    ensures { number_in result ≡ take_refusal p held port destination }
{
    let q = p.settings.q;
    let acknowledged = p.acknowledged;
    let k = p.queue;
    if !held_ok(&p, seen, held) {
        return Err(Refusal::OutOfRange);
    }
    if MOST_PORT < port {
        return Err(Refusal::NoSuchPort);
    }
    if !found {
        return Err(Refusal::NothingFree);
    }
    let free = p.alone | (first <= acknowledged);
    if !free {
        return Err(Refusal::NothingFree);
    }
    if destination < n {
        return Err(Refusal::NoRoom);
    }
    Ok(())
}

// Hands out the port's oldest packet if its epoch is acknowledged or the primary is alone: those behind it move up, and
// the freed entry becomes 0.
pub fn take(p: Primary, held: &mut [u8], port: usize, destination: &mut [u8]) -> Reply<Primary>
    ensures value { result ≡ take_reply p (length held.old) port (length destination.old) }
    ensures held_after { held.new ≡ take_held p held.old port destination.old }
    ensures destination_after { destination.new ≡ take_destination p held.old port destination.old }
{
    let k = p.queue;
    let mut packets = k.packets;
    let mut count = k.count;
    let mut total = k.bytes;
    let looked = &packets[..count.min(MOST_PACKETS)];
    let seen = queue::seen_of(looked);
    let place = queue::first_of(looked, port);
    let Place { at, before } = place.unwrap_or_default();
    let first = packets[at].epoch;
    let n = usize::from(packets[at].length);
    let number = number_in(check_take(
        p,
        seen,
        place.is_some(),
        first,
        n,
        held.len(),
        port,
        destination.len(),
    ));
    let mut value: u64 = 0;
    if number == 0 {
        packets.copy_within(at + 1..count, at);
        count -= 1;
        packets[count] = Packet {
            epoch: 0,
            length: 0,
            port: 0,
        };
        queue::hand_out(held, before, n, total, destination);
        total -= n;
        value = n as u64;
    }
    let next = Queue {
        count,
        bytes: total,
        packets,
    };
    Reply {
        state: with_queue(p, next),
        number,
        value,
    }
}
