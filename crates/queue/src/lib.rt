// The held packets.
#![tactic(auto)]

ghost use Rattle.std.specs.Prelude.{◌≡◌, ◌+◌, ◌*◌, ◌^◌, ◌≤◌, length, IfSome};
ghost use Rattle.lists.specs.Part.{part, put, removed};
ghost use Rattle.queue.specs.Held.{packet_ok, queue_ok, has_space};
ghost use Rattle.queue.specs.Seen.{seen_of, seen_ok, IsFirstOf};

use settings::{MOST_PACKET_BYTES, MOST_PACKETS, MOST_PORT};

// The largest packet and the last port, in the width of a packet's fields.
const MOST_LENGTH: u16 = MOST_PACKET_BYTES as u16;

const LAST_PORT: u16 = MOST_PORT as u16;

// One held packet, in 8 bytes: the epoch that was open when it came, its length, and the port by which it leaves.
#[derive(Clone, Copy)]
pub struct Packet {
    pub epoch: u32,
    pub length: u16,
    pub port: u16,
}

// The packets in the order in which they came: how many, their bytes together, and each of them. Their bytes stand in
// the lent buffer, one after the other.
// A count beside the array, not a vector: one above 64 can be handed over in words, and is refused (`queue_ok`).
#[derive(Clone, Copy)]
pub struct Queue {
    pub count: usize,
    pub bytes: usize,
    pub packets: [Packet; MOST_PACKETS],
}

// What was seen of the first packets, all in range: the epoch of the last of them, and their bytes together. Of none
// seen both are 0.
#[derive(Clone, Copy, Default)]
pub struct Seen {
    pub epoch: u32,
    pub bytes: usize,
}

// Whether a packet's own numbers are in their ranges.
fn packet_ok(p: Packet) -> bool
    ensures { result ≡ packet_ok p.length p.port }
{
    (1 <= p.length) & (p.length <= MOST_LENGTH) & (p.port <= LAST_PORT)
}

// What is seen of these packets: nothing where one is out of its ranges, or its epoch below that of the one before.
// All are looked at, whatever the first ones say: so the compiler takes several at once.
// Of no more than 2 ^ 48 packets the lengths, of 16 bits each, have a sum below 2 ^ 64.
pub fn seen_of(packets: &[Packet]) -> Option<Seen>
    requires { length packets.now ≤ 2 ^ 48 }
    ensures value { result ≡ seen_of packets.now }
    ensures bytes_bound { IfSome result (λ s. s.bytes ≤ length packets.now * 65535) }
{
    let mut ok = true;
    let mut epoch = 0;
    let mut bytes = 0;
    for packet in packets {
        ok &= packet_ok(*packet) & (epoch <= packet.epoch);
        epoch = packet.epoch;
        bytes += usize::from(packet.length);
    }
    if ok {
        Some(Seen { epoch, bytes })
    } else {
        None
    }
}

// Whether a queue of this count and these bytes is in its ranges, by what was seen of its packets, with this epoch open
// and room for q bytes (document 01, number 1).
#[tactic(auto, unfolding(crate::specs::Seen::seen_ok))]
pub fn seen_ok(seen: Option<Seen>, count: usize, bytes: usize, epoch: u32, q: usize) -> bool
    ensures { result ≡ seen_ok seen count bytes epoch q }
{
    match seen {
        None => false,
        Some(s) => {
            (count <= MOST_PACKETS) & (s.bytes == bytes) & (bytes <= q) & (s.epoch <= epoch)
        }
    }
}

// Whether the queue is in its ranges. A call that goes on to change the queue looks at its packets itself, in the array
// that it changes: handed on by value, the array is copied.
pub fn queue_ok(k: Queue, epoch: u32, q: usize) -> bool
    ensures { result ≡ queue_ok k epoch q }
{
    let seen = seen_of(&k.packets[..k.count.min(MOST_PACKETS)]);
    seen_ok(seen, k.count, k.bytes, epoch, q)
}

// Where the first packet of a port stands among those looked at, and how many bytes are before its own; by default both
// are 0.
#[derive(Clone, Copy, Default)]
pub struct Place {
    pub at: usize,
    pub before: usize,
}

// The place of the first of these packets that is of a port. The limit is that of `seen_of`: lengths are added up.
pub fn first_of(packets: &[Packet], port: usize) -> Option<Place>
    requires { length packets.now ≤ 2 ^ 48 }
    ensures { IsFirstOf port packets.now result }
{
    let mut before = 0;
    for (at, packet) in packets.iter().enumerate() {
        if usize::from(packet.port) == port {
            return Some(Place { at, before });
        }
        before += usize::from(packet.length);
    }
    None
}

// Whether a packet of n bytes can be held: no sum is made, so none can wrap.
pub fn has_space(k: Queue, q: usize, n: usize) -> bool
    ensures { result ≡ has_space k q n }
{
    k.count < MOST_PACKETS && k.bytes <= q && n <= q - k.bytes
}

// Of the bytes held, copies the n from at on to the head of the destination, and closes up those behind them.
pub fn hand_out(held: &mut [u8], at: usize, n: usize, bytes: usize, destination: &mut [u8])
    requires { (at + n ≤ bytes) × (bytes ≤ length held.old) × (n ≤ length destination.old) }
    ensures destination_after { destination.new ≡ put destination.old 0 (part at n held.old) }
    ensures held_after { held.new ≡ removed at n bytes held.old }
{
    lists::copy_front(destination, lists::part_of(held, at, n));
    lists::remove(held, at, n, bytes);
}
