// The standby's state as words; its two processor states are lent as bytes.
ghost use Rattle.std.specs.Prelude.{◌≡◌, true, ◌&&◌, ◌<◌, ◌+◌, length, get_or};
ghost use Rattle.lists.specs.Part.{part, put};
ghost use Rattle.capi.specs.Word.{fits32, all_fit32, between};
ghost use Rattle.capi.specs.StandbyWords.{standby_length, numbers_at, numbers_many, mode_of, mode_word, standby_of, first_words, last_words, standby_words, standby_words_ok};

use crate::word;
use detector::Detector;
use rules::{Mode, Standby};
use settings::{MOST_SLOTS, StandbySettings};
use staging::Slots;

// How many words a state has, and where its block numbers begin and end.
pub(crate) const LENGTH: usize = 80;

const NUMBERS: usize = 11;

const LAST: usize = 75;

// Whether words are a state.
pub(crate) fn words_ok(w: &[u64]) -> bool
    ensures { result ≡ standby_words_ok w.now }
{
    if w.len() != LENGTH {
        return false;
    }
    let ticks = word::all_fit32(w, 5, 7);
    ticks & (w[7] <= 2) & (w[8] <= word::MOST_32) & (w[79] <= 1)
}

// Functions, since neither a mode nor a word is a type of this crate: no `From` can be implemented here for the two.
fn mode_of(n: u64) -> Mode
    ensures { result ≡ mode_of n }
{
    match n {
        0 => Mode::Receiving,
        1 => Mode::TakingOver,
        _ => Mode::Active,
    }
}

fn mode_word(m: Mode) -> u64
    ensures { result ≡ mode_word m }
{
    match m {
        Mode::Receiving => 0,
        Mode::TakingOver => 1,
        Mode::Active => 2,
    }
}

fn numbers_of(w: &[u64]) -> [usize; 64]
    requires { length w.now ≡ standby_length }
    ensures { result ≡ part numbers_at numbers_many w.now }
{
    let mut numbers = [0usize; MOST_SLOTS];
    for i in 0..MOST_SLOTS {
        numbers[i] = w[NUMBERS + i] as usize;
    }
    numbers
}

// The state of words and of two processor states.
pub(crate) fn standby_of(w: &[u64], pending: &[u8; 64], processor: &[u8; 64]) -> Standby
    requires { standby_words_ok w.now ≡ true }
    ensures { result ≡ standby_of w.now pending.now processor.now }
{
    Standby {
        settings: StandbySettings {
            u: w[0] as usize,
            m: w[1] as usize,
            d: w[2] as usize,
            b: w[3] as usize,
            s: w[4] as usize,
        },
        detector: Detector {
            patience: word::field(w[5]),
            count: word::field(w[6]),
        },
        mode: mode_of(w[7]),
        received: word::field(w[8]),
        slots: Slots {
            staged: w[9] as usize,
            due: w[10] as usize,
            numbers: numbers_of(w),
        },
        blocks: w[75] as usize,
        records: w[76] as usize,
        pages: w[77] as usize,
        next: w[78] as usize,
        seen: word::flag_of(w[79]),
        pending: *pending,
        processor: *processor,
    }
}

fn first_words(s: Standby) -> [u64; 11]
    ensures value { result ≡ first_words s }
    ensures result_value { (all_fit32 (between 5 7 result) && fits32 (get_or result 8 0)) ≡ true }
{
    [
        s.settings.u as u64,
        s.settings.m as u64,
        s.settings.d as u64,
        s.settings.b as u64,
        s.settings.s as u64,
        s.detector.patience as u64,
        s.detector.count as u64,
        mode_word(s.mode),
        s.received as u64,
        s.slots.staged as u64,
        s.slots.due as u64,
    ]
}

fn last_words(s: Standby) -> [u64; 5]
    ensures { result ≡ last_words s }
{
    [
        s.blocks as u64,
        s.records as u64,
        s.pages as u64,
        s.next as u64,
        u64::from(s.seen),
    ]
}

fn store_numbers(w: &mut [u64], numbers: [usize; 64])
    requires { length w.old ≡ standby_length }
    ensures { w.new ≡ put w.old numbers_at numbers }
{
    for i in 0..MOST_SLOTS {
        w[NUMBERS + i] = numbers[i] as u64;
    }
}

// Leaves the words and the two processor states of a state. That they are a state again, the same, the types of its
// fields give.
pub(crate) fn store(w: &mut [u64], pending: &mut [u8; 64], processor: &mut [u8; 64], s: Standby)
    requires { length w.old ≡ standby_length }
    ensures w_after { w.new ≡ standby_words s }
    ensures pending_after { pending.new ≡ s.pending }
    ensures processor_after { processor.new ≡ s.processor }
    ensures w_after_2 { standby_words_ok w.new ≡ true }
    ensures processor_after_2 { standby_of w.new pending.new processor.new ≡ s }
{
    word::store_at(w, 0, &first_words(s));
    store_numbers(w, s.slots.numbers);
    word::store_at(w, LAST, &last_words(s));
    let (staged, kept) = (s.pending, s.processor);
    *pending = staged;
    *processor = kept;
}
