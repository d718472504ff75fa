// The standby's block slots.
#![tactic(auto)]

ghost use Rattle.std.specs.Prelude.{◌≡◌, ◌+◌, ◌*◌, ◌≤◌, ◌<◌, length, take, drop, replicate};
ghost use Rattle.lists.specs.Part.{put, removed};
ghost use Rattle.lists.specs.Select.{place_in};
ghost use Rattle.lists.specs.Page.{page, with_page};
ghost use Rattle.settings.specs.Range.{most_slots};
ghost use Rattle.staging.specs.Slot.{numbers_ok, slots_ok, free_slots, slot_for, with_block, all_due, only_due, flush_count, stored, flushed, flushed_bytes};
ghost use Rattle.staging.specs.Fits.{StageFits, StoreFits, FlushFits};

use settings::MOST_SLOTS;

// The staged blocks in order of first arrival: how many, how many of them are due, and the number of each. Their bytes
// stand in the lent slots.
#[derive(Clone, Copy)]
pub struct Slots {
    pub staged: usize,
    pub due: usize,
    pub numbers: [usize; MOST_SLOTS],
}

// Whether the first n numbers are below d. Here and in the loops below the numbers are an array by value, looked at by
// index: by slices and iterators (`all`, `find`, `copy_within`, `fill`) a read of a PAGE of 64 bytes took 1.24 times as
// long, and a flush of nothing 1.8 times (docs/BENCHMARKS.md).
fn numbers_ok(numbers: [usize; MOST_SLOTS], n: usize, d: usize) -> bool
    requires { n ≤ most_slots }
    ensures { result ≡ numbers_ok d (take n numbers) }
{
    for i in 0..n {
        if numbers[i] >= d {
            return false;
        }
    }
    true
}

// Whether the slots are in their ranges, with s slots and d blocks (document 01, number 1).
pub fn slots_ok(k: Slots, s: usize, d: usize) -> bool
    ensures { result ≡ slots_ok k s d }
{
    let staged = k.staged;
    if s < staged {
        return false;
    }
    if staged < k.due {
        return false;
    }
    // a count above 64 names no entry more than the array has
    if MOST_SLOTS < staged {
        return numbers_ok(k.numbers, MOST_SLOTS, d);
    }
    numbers_ok(k.numbers, staged, d)
}

// How many of s slots are free for a block.
pub fn free_slots(k: Slots, s: usize) -> usize
    ensures { result ≡ free_slots k s }
{
    s.saturating_sub(k.staged)
}

// The place of number n among the first `end` from `from` on; where none of them is n, `end`.
fn place_from(numbers: [usize; MOST_SLOTS], from: usize, end: usize, n: usize) -> usize
    requires { (from ≤ end) × (end ≤ most_slots) }
    ensures { result ≡ from + place_in n (drop from (take end numbers)) }
{
    for i in from..end {
        if numbers[i] == n {
            return i;
        }
    }
    end
}

// The slot of block n: the first that its epoch has staged it in, else the next one.
#[tactic(auto, unfolding(crate::specs::Slot::slot_for))]
pub fn slot_for(k: Slots, n: usize) -> usize
    requires { (k.due ≤ k.staged) × (k.staged ≤ most_slots) }
    ensures { result ≡ slot_for k n }
{
    place_from(k.numbers, k.due, k.staged, n)
}

// The slots with block n staged in its slot, which `slot_for` gave.
pub fn with_block(k: Slots, n: usize, slot: usize) -> Slots
    requires { StageFits k n × (slot ≡ slot_for k n) }
    ensures { result ≡ with_block k n }
{
    if slot < k.staged {
        return k;
    }
    let mut next = k;
    next.numbers[k.staged] = n;
    next.staged += 1;
    next
}

// Copies a block's bytes into its slot.
#[tactic(auto, unfolding(lists::specs::Page::with_page))]
pub fn stage_block(slots: &mut [u8], u: usize, slot: usize, block: &[u8])
    requires { (length block.now ≡ u) × (slot * u + u ≤ length slots.old) }
    ensures { slots.new ≡ with_page u slots.old slot block.now }
{
    lists::copy_into(slots, slot * u, block);
}

// The slots with all staged blocks due.
#[tactic(auto, unfolding(crate::specs::Slot::all_due))]
pub fn all_due(k: Slots) -> Slots
    ensures { result ≡ all_due k }
{
    Slots { due: k.staged, ..k }
}

// The slots without the blocks that are not due.
#[tactic(auto, unfolding(crate::specs::Slot::only_due))]
pub fn only_due(k: Slots) -> Slots
    ensures { result ≡ only_due k }
{
    Slots { staged: k.due, ..k }
}

// How many blocks a flush with budget n stores.
pub fn flush_count(k: Slots, n: usize) -> usize
    ensures { result ≡ flush_count k n }
{
    n.min(k.due)
}

// Stores the block in slot i as block n of the disk.
fn store_block(disk: &mut [u8], slots: &[u8], u: usize, n: usize, i: usize)
    requires { (n * u + u ≤ length disk.old) × (i * u + u ≤ length slots.now) }
    ensures { disk.new ≡ with_page u disk.old n (page u slots.now i) }
{
    lists::copy_into(disk, n * u, lists::part_of(slots, i * u, u));
}

// Stores the blocks of the first count slots, in order.
pub fn store(disk: &mut [u8], slots: &[u8], k: Slots, u: usize, count: usize)
    requires { StoreFits u k.numbers count (length slots.now) (length disk.old) }
    ensures { disk.new ≡ stored u k.numbers slots.now disk.old count }
{
    for i in 0..count {
        store_block(disk, slots, u, k.numbers[i], i);
    }
}

// The first total numbers without the first n of them: the rest moves to the front.
fn moved(numbers: [usize; MOST_SLOTS], n: usize, total: usize) -> [usize; MOST_SLOTS]
    requires { (n ≤ total) × (total ≤ most_slots) }
    ensures { result ≡ removed 0 n total numbers }
{
    let mut out = numbers;
    for i in 0..total - n {
        out[i] = numbers[n + i];
    }
    out
}

// The numbers with n entries from at on at 0.
fn zeroed(numbers: [usize; MOST_SLOTS], at: usize, n: usize) -> [usize; MOST_SLOTS]
    requires { at + n ≤ most_slots }
    ensures { result ≡ put numbers at (replicate n 0) }
{
    let mut out = numbers;
    for i in 0..n {
        out[at + i] = 0;
    }
    out
}

// The slots without the first count blocks, which a flush has stored.
#[tactic(auto, unfolding(crate::specs::Slot::flushed, lists::specs::Part::freed))]
pub fn flushed(k: Slots, count: usize) -> Slots
    requires { (count ≤ k.due) × (k.due ≤ k.staged) × (k.staged ≤ most_slots) }
    ensures { result ≡ flushed k count }
{
    let staged = k.staged - count;
    Slots {
        staged,
        due: k.due - count,
        numbers: zeroed(moved(k.numbers, count, k.staged), staged, count),
    }
}

// Moves the bytes of the slots behind the first count to the front.
#[tactic(auto, unfolding(crate::specs::Slot::flushed_bytes))]
pub fn free_bytes(slots: &mut [u8], k: Slots, u: usize, count: usize)
    requires { (count ≤ k.staged) × (k.staged * u ≤ length slots.old) }
    ensures { slots.new ≡ flushed_bytes u k count slots.old }
{
    lists::remove(slots, 0, count * u, k.staged * u);
}

// Stores as many due blocks as the budget n lets, in order of arrival, moves the bytes of the others to the front, and reports how many it stored.
// `flushed` gives the slots that go with it.
pub fn flush(slots: &mut [u8], disk: &mut [u8], k: Slots, u: usize, n: usize) -> usize
    requires { FlushFits u k (length slots.old) (length disk.old) }
    ensures value { result ≡ flush_count k n }
    ensures disk_after { disk.new ≡ stored u k.numbers slots.old disk.old (flush_count k n) }
    ensures slots_after { slots.new ≡ flushed_bytes u k (flush_count k n) slots.old }
{
    let count = flush_count(k, n);
    store(disk, slots, k, u, count);
    free_bytes(slots, k, u, count);
    count
}
