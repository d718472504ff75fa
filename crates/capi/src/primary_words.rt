// The primary's state as words.
ghost use Rattle.std.specs.Prelude.{◌≡◌, true, [], ◌∷◌, ◌<◌, ◌≤◌, ◌+◌, length, get_or, set};
ghost use Rattle.lists.specs.Part.{put};
ghost use Rattle.queue.specs.Held.{packet_at};
ghost use Rattle.capi.specs.Word.{all_fit32, all_fit16, between};
ghost use Rattle.capi.specs.PrimaryWords.{primary_length, packets_at, written_at, packets_in, written_in, packets_fit, packets_of, primary_of, packet_words, head_words, primary_words, primary_words_ok};

use crate::word;
use crate::word::{MOST_16, MOST_32};
use detector::Detector;
use queue::{Packet, Queue};
use rules::Primary;
use settings::{MOST_ALLOWANCE, MOST_PACKETS, PrimarySettings};

// How many words a state has, where its packets begin, and where its block numbers do.
pub(crate) const LENGTH: usize = 272;

const PACKETS: usize = 16;

const WRITTEN: usize = 208;

// Whether the words of all packets fit their fields: each kind of them with its bits together, so that a packet takes
// three operations and each kind one test at the end.
fn packets_fit(w: &[u64]) -> bool
    requires { length w.now ≡ primary_length }
    ensures { result ≡ packets_fit (packets_in w.now) }
{
    let mut epochs: u64 = 0;
    let mut lengths: u64 = 0;
    let mut ports: u64 = 0;
    for i in 0..MOST_PACKETS {
        let at = PACKETS + 3 * i;
        epochs |= w[at];
        lengths |= w[at + 1];
        ports |= w[at + 2];
    }
    (epochs <= MOST_32) & (lengths <= MOST_16) & (ports <= MOST_16)
}

// Whether the block numbers fit theirs, in the same way.
fn numbers_fit(w: &[u64]) -> bool
    requires { length w.now ≡ primary_length }
    ensures { result ≡ all_fit16 (written_in w.now) }
{
    let mut numbers: u64 = 0;
    for i in WRITTEN..LENGTH {
        numbers |= w[i];
    }
    numbers <= MOST_16
}

// Whether words are a state.
pub(crate) fn words_ok(w: &[u64]) -> bool
    ensures { result ≡ primary_words_ok w.now }
{
    if w.len() != LENGTH {
        return false;
    }
    let low = word::all_fit32(w, 6, 10);
    let packets = packets_fit(w);
    let numbers = numbers_fit(w);
    low & (w[10] <= 1) & packets & numbers
}

fn packets_of(w: &[u64]) -> [Packet; 64]
    requires { primary_words_ok w.now ≡ true }
    ensures { result ≡ packets_of (packets_in w.now) }
{
    let none = Packet {
        epoch: 0,
        length: 0,
        port: 0,
    };
    let mut packets = [none; MOST_PACKETS];
    for i in 0..MOST_PACKETS {
        let at = PACKETS + 3 * i;
        packets[i] = Packet {
            epoch: word::field(w[at]),
            length: word::field16(w[at + 1]),
            port: word::field16(w[at + 2]),
        };
    }
    packets
}

fn numbers_of(w: &[u64]) -> [u16; 64]
    requires { primary_words_ok w.now ≡ true }
    ensures { result ≡ written_in w.now }
{
    let mut numbers = [0u16; MOST_ALLOWANCE];
    for i in 0..MOST_ALLOWANCE {
        numbers[i] = word::field16(w[WRITTEN + i]);
    }
    numbers
}

// The state of words.
pub(crate) fn primary_of(w: &[u64]) -> Primary
    requires { primary_words_ok w.now ≡ true }
    ensures { result ≡ primary_of w.now }
{
    Primary {
        settings: PrimarySettings {
            u: w[0] as usize,
            m: w[1] as usize,
            d: w[2] as usize,
            b: w[3] as usize,
            q: w[4] as usize,
            l: w[5] as usize,
        },
        detector: Detector {
            patience: word::field(w[6]),
            count: word::field(w[7]),
        },
        epoch: word::field(w[8]),
        acknowledged: word::field(w[9]),
        alone: word::flag_of(w[10]),
        blocks: w[11] as usize,
        records: w[12] as usize,
        waiting: w[13] as usize,
        queue: Queue {
            count: w[14] as usize,
            bytes: w[15] as usize,
            packets: packets_of(w),
        },
        numbers: numbers_of(w),
    }
}

fn head_words(p: Primary) -> [u64; 16]
    ensures value { result ≡ head_words p }
    ensures result_value { all_fit32 (between 6 10 result) ≡ true }
{
    [
        p.settings.u as u64,
        p.settings.m as u64,
        p.settings.d as u64,
        p.settings.b as u64,
        p.settings.q as u64,
        p.settings.l as u64,
        p.detector.patience as u64,
        p.detector.count as u64,
        p.epoch as u64,
        p.acknowledged as u64,
        u64::from(p.alone),
        p.blocks as u64,
        p.records as u64,
        p.waiting as u64,
        p.queue.count as u64,
        p.queue.bytes as u64,
    ]
}

fn store_packet(w: &mut [u64], at: usize, k: Packet)
    requires { at + 3 ≤ length w.old }
    ensures w_after { w.new ≡ put w.old at (packet_words (k ∷ [])) }
    ensures k_value { packets_fit (packet_words (k ∷ [])) ≡ true }
{
    w[at] = k.epoch as u64;
    w[at + 1] = k.length as u64;
    w[at + 2] = k.port as u64;
}

fn store_packets(w: &mut [u64], packets: [Packet; 64])
    requires { length w.old ≡ primary_length }
    ensures w_after { w.new ≡ put w.old packets_at (packet_words packets) }
    ensures packets_value { packets_fit (packet_words packets) ≡ true }
{
    for i in 0..MOST_PACKETS {
        store_packet(w, PACKETS + 3 * i, packets[i]);
    }
}

fn store_numbers(w: &mut [u64], numbers: [u16; 64])
    requires { length w.old ≡ primary_length }
    ensures w_after { w.new ≡ put w.old written_at numbers }
    ensures numbers_value { all_fit16 numbers ≡ true }
{
    for i in 0..MOST_ALLOWANCE {
        w[WRITTEN + i] = numbers[i] as u64;
    }
}

// Leaves the words of a state that differs from the one lent in the words of its head, in packet i and in block number
// j at most: the words of the others stay, and are not written again.
pub(crate) fn store_one(w: &mut [u64], p: Primary, i: usize, j: usize)
    requires { (length w.old ≡ primary_length) × (primary_words_ok w.old ≡ true) × (i < 64) × (p.queue.packets ≡ set (primary_of w.old).queue.packets i (packet_at p.queue i)) × (j < 64) × (p.numbers ≡ set (primary_of w.old).numbers j (get_or p.numbers j 0)) }
    ensures w_after { w.new ≡ primary_words p }
    ensures w_after_2 { primary_words_ok w.new ≡ true }
    ensures w_after_3 { primary_of w.new ≡ p }
{
    // Locals, since an element read in place, as p.queue.packets[i], makes C's disk write 1.6 times as slow: the
    // compiler then copies the packets more often.
    let (packets, numbers) = (p.queue.packets, p.numbers);
    word::store_at(w, 0, &head_words(p));
    store_packet(w, PACKETS + 3 * i, packets[i]);
    w[WRITTEN + j] = numbers[j] as u64;
}

// Leaves the words of a state. The types of its fields give that they are a state again, and read as this one.
pub(crate) fn store(w: &mut [u64], p: Primary)
    requires { length w.old ≡ primary_length }
    ensures w_after { w.new ≡ primary_words p }
    ensures w_after_2 { primary_words_ok w.new ≡ true }
    ensures w_after_3 { primary_of w.new ≡ p }
{
    word::store_at(w, 0, &head_words(p));
    store_packets(w, p.queue.packets);
    store_numbers(w, p.numbers);
}
