// Calls of the two ends on states that are made from numbers, and the count and the walk of the marks, exported so that
// a program in another language can time them.
#![tactic(auto)]

use detector::Detector;
use marks::{count, marked};
use primary::checkpoint::checkpoint;
use primary::packets::{packet, take};
use primary::stream::drain;
use queue::{Packet, Queue};
use records::Unread;
use rules::{Accepted, Mode, Primary, ReadReply, Reply, Standby};
use settings::{PrimarySettings, StandbySettings};
use staging::Slots;
use standby::flush::flush;
use standby::read::read;

// What a refused call gives: no value that is timed is as large.
const REFUSED: u64 = 18446744073709551615;

// The value of an accepted call.
fn told(number: u64, value: u64) -> u64 {
    if number == 0 { value } else { REFUSED }
}

fn detector_of() -> Detector {
    Detector {
        patience: 1000,
        count: 0,
    }
}

// The first count entries are packets of one length.
fn packets_of(count: usize, size: usize) -> [Packet; 64] {
    let none = Packet {
        epoch: 0,
        length: 0,
        port: 0,
    };
    let mut packets = [none; 64];
    packets[..count.min(64)].fill(Packet {
        epoch: 1,
        length: (size % 65536) as u16,
        port: 0,
    });
    packets
}

// A queue of count packets of one length, bytes in all.
fn queue_of(count: usize, length: usize, bytes: usize) -> Queue {
    let packets = packets_of(count, length);
    Queue {
        count,
        bytes,
        packets,
    }
}

// A primary with epoch 2 open.
fn primary_of(
    u: usize,
    m: usize,
    q: usize,
    l: usize,
    alone: bool,
    waiting: usize,
    queue: Queue,
) -> Primary {
    let settings = PrimarySettings {
        u,
        m,
        d: 0,
        b: 0,
        q,
        l,
    };
    let detector = detector_of();
    Primary {
        settings,
        detector,
        epoch: 2,
        acknowledged: 0,
        alone,
        blocks: 0,
        records: 0,
        waiting,
        queue,
        numbers: [0; 64],
    }
}

// Staged blocks, all due: slot i has block i.
fn slots_of(staged: usize) -> Slots {
    let mut numbers = [0; 64];
    for (i, number) in numbers.iter_mut().enumerate() {
        *number = i;
    }
    Slots {
        staged,
        due: staged,
        numbers,
    }
}

// A standby that is receiving epoch 2 and has this many pages of it.
fn standby_of(
    u: usize,
    m: usize,
    d: usize,
    s: usize,
    slots: Slots,
    pages: usize,
    seen: bool,
) -> Standby {
    let settings = StandbySettings { u, m, d, b: 0, s };
    let detector = detector_of();
    Standby {
        settings,
        detector,
        mode: Mode::Receiving,
        received: 1,
        slots,
        blocks: 0,
        records: 0,
        pages,
        next: pages,
        seen,
        pending: [5; 64],
        processor: [3; 64],
    }
}

// One checkpoint: the epoch closed.
#[unsafe(no_mangle)]
pub extern "C" fn bench_checkpoint(
    u: usize,
    m: usize,
    waiting: usize,
    kept: usize,
    memory: &[u8],
    dirty: &mut [u64],
    stream: &mut [u8],
) -> u64 {
    let k = queue_of(kept, 1, kept);
    let p = primary_of(u, m, 64, stream.len(), false, waiting, k);
    let r = checkpoint(p, memory, dirty, stream, [7; 64]);
    told(r.number, r.value)
}

// Drains of n bytes each, rounds times: how many bytes the last one moved.
#[unsafe(no_mangle)]
pub extern "C" fn bench_drain(
    u: usize,
    m: usize,
    waiting: usize,
    kept: usize,
    n: usize,
    rounds: usize,
    stream: &mut [u8],
    destination: &mut [u8],
) -> u64 {
    let k = queue_of(kept, 1, kept);
    let mut p = primary_of(u, m, 64, stream.len(), false, waiting, k);
    let mut last = 0;
    for _ in 0..rounds {
        let r = drain(p, stream, n, destination);
        last = told(r.number, r.value);
        p = r.state;
    }
    last
}

// A packet in by a port, then that port's oldest out: refused where either was.
fn packet_and_take(
    p: Primary,
    held: &mut [u8],
    port: usize,
    one: &[u8],
    destination: &mut [u8],
) -> Reply<Primary> {
    let r = packet(p, held, port, one);
    let number = r.number;
    let mut t = take(r.state, held, port, destination);
    if number != 0 {
        t.number = number;
    }
    t
}

// A packet in and a packet out by a port, rounds times, on a primary that is alone and holds kept packets of one length
// and of port 0: the length of the last one handed out.
#[unsafe(no_mangle)]
pub extern "C" fn bench_packets(
    kept: usize,
    size: usize,
    bytes: usize,
    rounds: usize,
    held: &mut [u8],
    port: usize,
    one: &[u8],
    destination: &mut [u8],
) -> u64 {
    let k = queue_of(kept, size, bytes);
    let mut p = primary_of(64, 1, held.len(), 158, true, 0, k);
    let mut last = 0;
    for _ in 0..rounds {
        let r = packet_and_take(p, held, port, one, destination);
        last = told(r.number, r.value);
        p = r.state;
    }
    last
}

// A read of the record that stands at a place.
fn read_at(
    s: Standby,
    bytes: &[u8],
    at: usize,
    memory: &mut [u8],
    pages: &mut [u8],
    marks: &mut [u64],
    blocks: &mut [u8],
    reply: &mut [u8],
) -> ReadReply<Standby> {
    if bytes.len() < at {
        return ReadReply {
            state: s,
            answer: Err(Unread::Short { missing: 4 }),
        };
    }
    read(s, &bytes[at..], memory, pages, marks, blocks, reply)
}

// The place behind what a read used, where it was accepted.
fn behind(at: usize, answer: Result<Accepted, Unread>) -> usize {
    match answer {
        Ok(Accepted { used, .. }) if used <= 65536 && at <= 4294967296 => at + used,
        _ => at,
    }
}

// Reads of records that stand one behind the other, rounds times: how many bytes they used.
#[unsafe(no_mangle)]
pub extern "C" fn bench_read(
    u: usize,
    m: usize,
    s: usize,
    had: usize,
    seen: bool,
    rounds: usize,
    bytes: &[u8],
    memory: &mut [u8],
    pages: &mut [u8],
    marks: &mut [u64],
    blocks: &mut [u8],
    reply: &mut [u8],
) -> u64 {
    let k = slots_of(0);
    let mut state = standby_of(u, m, 64, s, k, had, seen);
    let mut at = 0;
    for _ in 0..rounds {
        let r = read_at(state, bytes, at, memory, pages, marks, blocks, reply);
        at = behind(at, r.answer);
        state = r.state;
    }
    at as u64
}

// One flush with budget n of staged blocks that are all due: how many were stored.
#[unsafe(no_mangle)]
pub extern "C" fn bench_flush(
    u: usize,
    d: usize,
    s: usize,
    staged: usize,
    n: usize,
    slots: &mut [u8],
    disk: &mut [u8],
) -> u64 {
    let k = slots_of(staged);
    let state = standby_of(u, 1, d, s, k, 0, false);
    let r = flush(state, slots, disk, n);
    told(r.number, r.value)
}

// Ticks of a standby that has staged nothing, rounds times: how many its detector has counted.
// A primary's tick is not exported: with a second caller of its range test, the compiler would no longer inline it
// in the checkpoint above, which is timed too.
#[unsafe(no_mangle)]
pub extern "C" fn bench_standby_ticks(
    u: usize,
    m: usize,
    s: usize,
    rounds: usize,
    marks: &mut [u64],
) -> u64 {
    let k = slots_of(0);
    let mut state = standby_of(u, m, 64, s, k, 0, false);
    let mut last = 0;
    for _ in 0..rounds {
        let r = standby::takeover::tick(state, marks);
        state = r.state;
        last = told(r.number, state.detector.count as u64);
    }
    last
}

// How many of the first m pages are marked.
#[unsafe(no_mangle)]
pub extern "C" fn bench_count(marks: &[u64], m: usize) -> u64 {
    count(marks, m) as u64
}

// The walk from marked page to marked page: how many of the first m pages it passes.
#[unsafe(no_mangle)]
pub extern "C" fn bench_walk(marks: &[u64], m: usize) -> u64 {
    marked(marks, m).count() as u64
}
