// The standby's tick, activation, and the guest's writes once it is active.
ghost use Rattle.std.specs.Prelude.{◌≡◌, true, cond, ◌+◌, ◌≤◌, length};
ghost use Rattle.lists.specs.Refusal.{refusal, pick};
ghost use Rattle.records.specs.Number.{number_in};
ghost use Rattle.detector.specs.Tick.{expired};
ghost use Rattle.rules.specs.declared.Mode.TheVariants.{TakingOver};
ghost use Rattle.pages.specs.Write.{written};
ghost use Rattle.rules.specs.Reply.{reply_of};
ghost use Rattle.rules.specs.StandbyState.{standby_ok, with_detector, with_mode};
ghost use Rattle.rules.specs.Takeover.{dropped, standby_tick_refusal, standby_tick_reply, standby_tick_marks, activation_refusal, activation_reply, activation_area, active_write_tests, active_memory_write_reply, active_memory_write_memory, active_disk_write_reply, active_disk_write_disk};

use crate::effects::with_no_records;
use crate::ranges::{is_active, is_receiving, is_taking_over, standby_ok};
use detector::Detector;
use records::AREA_LENGTH;
use records::refusal::Refusal;
use rules::{Mode, Reply, Standby};

// Whether a tick is refused, from the length of the staged marks.
#[tactic(auto, unfolding(rules::specs::Takeover::standby_tick_refusal))]
fn check_tick(s: Standby, marks: usize) -> Result<(), Refusal>
    ensures { number_in result ≡ standby_tick_refusal s marks }
{
    if !standby_ok(s) || marks != s.settings.m.div_ceil(64) {
        return Err(Refusal::OutOfRange);
    }
    Ok(())
}

// Staged pages and blocks not yet due are dropped: the state.
fn drop_staged(s: Standby) -> Standby
    ensures { result ≡ dropped s }
{
    with_no_records(Standby {
        slots: staging::only_due(s.slots),
        ..s
    })
}

// The state of a standby that receives, with its detector ticked: at T it takes over.
fn counted(s: Standby, detector: Detector) -> Standby
    ensures { result ≡ cond (expired detector) (with_mode (dropped (with_detector s detector)) TakingOver) (with_detector s detector) }
{
    let t = Standby { detector, ..s };
    if !detector::expired(detector) {
        return t;
    }
    Standby {
        mode: Mode::TakingOver,
        ..drop_staged(t)
    }
}

// The standby's tick.
#[tactic(auto, unfolding(rules::specs::Takeover::standby_tick_reply, rules::specs::Takeover::standby_tick_marks, rules::specs::Takeover::standby_tick_state))]
pub fn tick(s: Standby, marks: &mut [u64]) -> Reply<Standby>
    ensures value { result ≡ standby_tick_reply s (length marks.old) }
    ensures marks_after { marks.new ≡ standby_tick_marks s marks.old }
{
    if let Err(refusal) = check_tick(s, marks.len()) {
        return replies::refused(s, refusal);
    }
    if !is_receiving(s.mode) {
        return replies::accepted(s, 0);
    }
    let d = detector::ticked_in_place(s.detector, true);
    // before the marks: made behind them, a tick through C took 1.2 times as long
    let state = counted(s, d);
    if detector::expired(d) {
        marks::clear(marks, s.settings.m);
    }
    replies::accepted(state, 0)
}

// Whether an activation is refused, from the length of the record area.
#[tactic(auto, unfolding(rules::specs::Takeover::activation_refusal))]
fn check_activation(s: Standby, area: usize) -> Result<(), Refusal>
    ensures { number_in result ≡ activation_refusal s area }
{
    if !standby_ok(s) || area != AREA_LENGTH {
        return Err(Refusal::OutOfRange);
    }
    if !is_taking_over(s.mode) {
        return Err(Refusal::WrongMode);
    }
    if s.slots.due != 0 {
        return Err(Refusal::BlocksDue);
    }
    Ok(())
}

// Activation: the record with the last received epoch is written, and the standby is active.
#[tactic(auto, unfolding(rules::specs::Takeover::activation_reply, rules::specs::Takeover::activation_area))]
pub fn activate(s: Standby, area: &mut [u8]) -> Reply<Standby>
    ensures value { result ≡ activation_reply s (length area.old) }
    ensures area_after { area.new ≡ activation_area s area.old }
{
    if let Err(refusal) = check_activation(s, area.len()) {
        return replies::refused(s, refusal);
    }
    records::writing::write_activation(area, s.received);
    let state = Standby {
        mode: Mode::Active,
        ..s
    };
    replies::accepted(state, s.received as u64)
}

// Whether a guest's write is refused, of a page or block, its number, and whether the bytes have their size: 1 13 2 3.
#[tactic(auto, using(crate::proofs::FitsLaws::units_fit))]
fn check_write(
    s: Standby,
    lent: usize,
    units: usize,
    unit: usize,
    sized: bool,
) -> Result<(), Refusal>
    requires { standby_ok s ≡ true → units ≤ 65536 }
    ensures { number_in result ≡ refusal (active_write_tests s lent units unit sized) }
{
    if !standby_ok(s) || lent != units * s.settings.u {
        return Err(Refusal::OutOfRange);
    }
    if !is_active(s.mode) {
        return Err(Refusal::WrongMode);
    }
    if units <= unit {
        return Err(Refusal::NoSuchUnit);
    }
    if !sized {
        return Err(Refusal::BadSize);
    }
    Ok(())
}

// A guest's write: the bytes into their page or block, at the offset.
fn write(
    s: Standby,
    image: &mut [u8],
    units: usize,
    unit: usize,
    offset: usize,
    bytes: &[u8],
    sized: bool,
) -> Reply<Standby>
    requires units_bound { standby_ok s ≡ true → units ≤ 65536 }
    requires bytes_bound { sized ≡ true → offset + length bytes.now ≤ s.settings.u }
    ensures value { result ≡ reply_of (refusal (active_write_tests s (length image.old) units unit sized)) s s s.received }
    ensures image_after { image.new ≡ pick (refusal (active_write_tests s (length image.old) units unit sized)) (written s.settings.u image.old unit offset bytes.now) image.old }
{
    if let Err(refusal) = check_write(s, image.len(), units, unit, sized) {
        return replies::refused(s, refusal);
    }
    pages::write(image, s.settings.u, unit, offset, bytes);
    replies::accepted(s, s.received as u64)
}

// The guest's memory write once the standby is active.
#[tactic(auto, using(crate::proofs::FitsLaws::pages_few), unfolding(rules::specs::Takeover::active_memory_write_refusal, rules::specs::Takeover::active_memory_write_reply, rules::specs::Takeover::active_memory_write_memory))]
pub fn memory_write(
    s: Standby,
    memory: &mut [u8],
    page: usize,
    offset: usize,
    bytes: &[u8],
) -> Reply<Standby>
    ensures value { result ≡ active_memory_write_reply s (length memory.old) page offset (length bytes.now) }
    ensures memory_after { memory.new ≡ active_memory_write_memory s memory.old page offset bytes.now }
{
    let g = s.settings;
    let sized = pages::inside_page(g.u, offset, bytes.len());
    write(s, memory, g.m, page, offset, bytes, sized)
}

// The guest's disk write once the standby is active.
#[tactic(auto, using(crate::proofs::FitsLaws::blocks_few), unfolding(rules::specs::Takeover::active_disk_write_refusal, rules::specs::Takeover::active_disk_write_reply, rules::specs::Takeover::active_disk_write_disk, pages::specs::Write::written, lists::specs::Page::with_page))]
pub fn disk_write(s: Standby, disk: &mut [u8], block: usize, bytes: &[u8]) -> Reply<Standby>
    ensures value { result ≡ active_disk_write_reply s (length disk.old) block (length bytes.now) }
    ensures disk_after { disk.new ≡ active_disk_write_disk s disk.old block bytes.now }
{
    let g = s.settings;
    let sized = bytes.len() == g.u;
    write(s, disk, g.d, block, 0, bytes, sized)
}
