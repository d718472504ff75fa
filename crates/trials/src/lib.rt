// Trials of settings (document 02, Job 12): the two ends of `pair`, stepped tick by tick through functions of `script`.
#![tactic(auto)]

use script::Site;
use settings::MOST_PACKETS;

pub mod answer;
pub mod counts;
pub mod courses;
pub mod guest;
pub mod once;
pub mod printing;
pub mod ticks;
pub mod turns;

// A trial under way.
#[derive(Clone, Copy)]
pub struct TrialSite {
    pub interval: u64,
    pub rate: u64,
    pub site: Site,
    // the last tick begun, 0 before the first
    pub tick: u64,
    // the first entries, one for each packet held, are the ticks in which these were sent; the others say nothing: an
    // array beside the primary's queue, since that is what the rules have (rules/specs/PrimaryState.antt), and no heap
    pub sent: [u64; MOST_PACKETS],
    // the most ticks from a packet's sending to its take, of those taken
    pub most: u64,
}

// The step that ended a trial: its letter, number and value, and the trial after it.
#[derive(Clone, Copy)]
pub struct TrialEnd {
    pub trial: TrialSite,
    pub letter: u8,
    pub number: u64,
    pub value: u64,
}

// A trial that goes on, or its end.
pub type TrialCourse = Result<TrialSite, TrialEnd>;

// After one turn of what is done again and again: the trial, where there was anything to do, or its end.
pub type Turn = Result<Option<TrialSite>, TrialEnd>;

// The trial that has begun; before the first line there is none.
pub type TrialStage = Option<TrialSite>;

// A line's answer: what is kept after it, the bytes printed, at the head of an array, and whether it is the last.
// An array with its length, and no Vec: a program's memory is fixed (docs/DECISIONS.md).
#[derive(Clone, Copy)]
pub struct TrialAnswer {
    pub stage: TrialStage,
    pub bytes: [u8; 65],
    pub length: usize,
    pub last: bool,
}
