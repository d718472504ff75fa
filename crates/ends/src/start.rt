// Start: the standby gets the primary's memory, processor state and disk, the marks and the record area are cleared,
// and epoch 1 opens.
ghost use Rattle.std.specs.Prelude.{◌≡◌, true};
ghost use Rattle.records.specs.Number.{number_in};
ghost use Rattle.settings.specs.Range.{settings_ok};
ghost use Rattle.queue.specs.Held.{empty_queue};
ghost use Rattle.staging.specs.Slot.{empty_slots};
ghost use Rattle.rules.specs.Start.{start_lent_ok, start_refusal, opened_primary, opened_standby, no_primary, no_standby, started, start_copy, start_marks, start_area};
ghost use Rattle.ends.specs.Lent.{start_lens};

use detector::Detector;
use queue::{Packet, Queue};
use records::AREA_LENGTH;
use records::refusal::Refusal;
use rules::{Mode, Primary, PrimaryLent, Standby, StandbyLent, StartLent, Started};
use settings::{
    MOST_ALLOWANCE, MOST_PACKETS, MOST_SLOTS, PrimarySettings, Settings, StandbySettings,
};
use staging::Slots;

// "Lent lengths are exact", of settings in their ranges, so that no product wraps.
#[tactic(auto, using(crate::proofs::FitsLaws::memory_fits, crate::proofs::FitsLaws::disk_fits, crate::proofs::FitsLaws::slots_fit), unfolding(rules::specs::Start::start_lent_ok))]
fn lent_ok(g: Settings, l: StartLent) -> bool
    requires { settings_ok g ≡ true }
    ensures { result ≡ start_lent_ok g l }
{
    let p = l.primary;
    let s = l.standby;
    let memory = g.m * g.u;
    let disk = g.d * g.u;
    let words = g.m.div_ceil(64);
    (p.memory == memory)
        & (p.disk == disk)
        & (p.dirty == words)
        & (p.held == g.q)
        & (p.stream == g.l)
        & (s.memory == memory)
        & (s.disk == disk)
        & (s.pages == memory)
        & (s.marks == words)
        & (s.blocks == g.s * g.u)
        & (s.area == AREA_LENGTH)
}

// Whether start is refused, from the lengths of the lent buffers.
#[tactic(auto, unfolding(rules::specs::Start::start_refusal))]
fn check_start(g: Settings, l: StartLent) -> Result<(), Refusal>
    ensures { number_in result ≡ start_refusal g l }
{
    if !settings::settings_ok(g) || !lent_ok(g, l) {
        return Err(Refusal::OutOfRange);
    }
    Ok(())
}

// No packet is held.
fn empty_queue() -> Queue
    ensures { result ≡ empty_queue }
{
    let none = Packet {
        epoch: 0,
        length: 0,
        port: 0,
    };
    Queue {
        count: 0,
        bytes: 0,
        packets: [none; MOST_PACKETS],
    }
}

// No block is staged.
fn empty_slots() -> Slots
    ensures { result ≡ empty_slots }
{
    Slots {
        staged: 0,
        due: 0,
        numbers: [0; MOST_SLOTS],
    }
}

// The primary with epoch 1 open.
fn opened_primary(g: Settings) -> Primary
    ensures { result ≡ opened_primary g }
{
    Primary {
        settings: PrimarySettings::from(g),
        detector: Detector {
            patience: g.t,
            count: 0,
        },
        epoch: 1,
        acknowledged: 0,
        alone: false,
        blocks: 0,
        records: 0,
        waiting: 0,
        queue: empty_queue(),
        numbers: [0; MOST_ALLOWANCE],
    }
}

// The standby with checkpoint 0 received.
fn opened_standby(g: Settings, processor: [u8; 64]) -> Standby
    ensures { result ≡ opened_standby g processor }
{
    Standby {
        settings: StandbySettings::from(g),
        detector: Detector {
            patience: g.t,
            count: 0,
        },
        mode: Mode::Receiving,
        received: 0,
        slots: empty_slots(),
        blocks: 0,
        records: 0,
        pages: 0,
        next: 0,
        seen: false,
        pending: [0; 64],
        processor,
    }
}

// "A refused start gives the state with every setting 0".
fn no_settings() -> Settings
    ensures { result ≡ record { u = 0; m = 0; d = 0; b = 0; s = 0; q = 0; l = 0; t = 0 } }
{
    Settings {
        u: 0,
        m: 0,
        d: 0,
        b: 0,
        s: 0,
        q: 0,
        l: 0,
        t: 0,
    }
}

// That of the primary: no epoch is open.
fn no_primary() -> Primary
    ensures { result ≡ no_primary }
{
    Primary {
        epoch: 0,
        ..opened_primary(no_settings())
    }
}

// That of the standby.
fn no_standby() -> Standby
    ensures { result ≡ no_standby }
{
    opened_standby(no_settings(), [0; 64])
}

// Start, lent every buffer of both ends; those that stay as they are are lent for their lengths or to be copied. Each
// is a parameter, and not a field of a struct: a public signature stays, and C lends them one by one (`pair_start`).
#[tactic(auto, unfolding(rules::specs::Start::started, rules::specs::Start::start_copy, rules::specs::Start::start_marks, rules::specs::Start::start_area))]
pub fn start(
    g: Settings,
    processor: [u8; 64],
    memory: &[u8],
    disk: &[u8],
    dirty: &mut [u64],
    held: &[u8],
    stream: &[u8],
    standby_memory: &mut [u8],
    standby_disk: &mut [u8],
    staged_pages: &[u8],
    staged_marks: &mut [u64],
    staged_blocks: &[u8],
    area: &mut [u8],
) -> Started
    ensures value { result ≡ started g (start_lens memory.now disk.now dirty.old held.now stream.now standby_memory.old standby_disk.old staged_pages.now staged_marks.old staged_blocks.now area.old) processor }
    ensures dirty_after { dirty.new ≡ start_marks g (start_lens memory.now disk.now dirty.old held.now stream.now standby_memory.old standby_disk.old staged_pages.now staged_marks.old staged_blocks.now area.old) dirty.old }
    ensures standby_memory_after { standby_memory.new ≡ start_copy g (start_lens memory.now disk.now dirty.old held.now stream.now standby_memory.old standby_disk.old staged_pages.now staged_marks.old staged_blocks.now area.old) memory.now standby_memory.old }
    ensures standby_disk_after { standby_disk.new ≡ start_copy g (start_lens memory.now disk.now dirty.old held.now stream.now standby_memory.old standby_disk.old staged_pages.now staged_marks.old staged_blocks.now area.old) disk.now standby_disk.old }
    ensures staged_marks_after { staged_marks.new ≡ start_marks g (start_lens memory.now disk.now dirty.old held.now stream.now standby_memory.old standby_disk.old staged_pages.now staged_marks.old staged_blocks.now area.old) staged_marks.old }
    ensures area_after { area.new ≡ start_area g (start_lens memory.now disk.now dirty.old held.now stream.now standby_memory.old standby_disk.old staged_pages.now staged_marks.old staged_blocks.now area.old) area.old }
{
    let primary = PrimaryLent {
        memory: memory.len(),
        disk: disk.len(),
        dirty: dirty.len(),
        held: held.len(),
        stream: stream.len(),
    };
    let standby = StandbyLent {
        memory: standby_memory.len(),
        disk: standby_disk.len(),
        pages: staged_pages.len(),
        marks: staged_marks.len(),
        blocks: staged_blocks.len(),
        area: area.len(),
    };
    let l = StartLent { primary, standby };
    if let Err(refusal) = check_start(g, l) {
        return Started {
            primary: no_primary(),
            standby: no_standby(),
            number: refusal.number(),
        };
    }
    lists::copy_front(standby_memory, memory);
    lists::copy_front(standby_disk, disk);
    marks::clear(dirty, g.m);
    marks::clear(staged_marks, g.m);
    area.fill(0);
    Started {
        primary: opened_primary(g),
        standby: opened_standby(g, processor),
        number: 0,
    }
}
