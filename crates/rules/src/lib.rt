// The states of both ends and the replies of their calls. What each call does is defined in specs/.
#![tactic(auto)]

use detector::Detector;
use queue::Queue;
use records::Unread;
use settings::{MOST_ALLOWANCE, PrimarySettings, StandbySettings};
use staging::Slots;

// The primary's state.
#[derive(Clone, Copy)]
pub struct Primary {
    pub settings: PrimarySettings,
    pub detector: Detector,
    // the open epoch
    pub epoch: u32,
    pub acknowledged: u32,
    pub alone: bool,
    // different blocks of the open epoch (beside the numbers below: no heap), and its BLOCK records
    pub blocks: usize,
    pub records: usize,
    // bytes of the outgoing stream
    pub waiting: usize,
    pub queue: Queue,
    // the first `blocks` entries are the numbers of those blocks, in the order first written; the others say nothing
    pub numbers: [u16; MOST_ALLOWANCE],
}

#[derive(Clone, Copy)]
pub enum Mode {
    Receiving,
    TakingOver,
    Active,
}

// The standby's state.
#[derive(Clone, Copy)]
pub struct Standby {
    pub settings: StandbySettings,
    pub detector: Detector,
    pub mode: Mode,
    // the last received epoch
    pub received: u32,
    pub slots: Slots,
    // different blocks of the epoch that is being received, its BLOCK records, and its pages
    pub blocks: usize,
    pub records: usize,
    pub pages: usize,
    // the last page of that epoch + 1, or 0
    pub next: usize,
    // whether its STATE was seen, and the processor state that STATE brought
    pub seen: bool,
    pub pending: [u8; 64],
    // the processor state of the last received checkpoint
    pub processor: [u8; 64],
}

// What a call of an end gives: its state, the number (0 is accepted, else the refusal's) and the value. The number is the
// documents', and not a Result: the outcome of a step (specs/Step.antt), of which the theorems on runs speak, is made of it.
#[derive(Clone, Copy)]
pub struct Reply<S> {
    pub state: S,
    pub number: u64,
    pub value: u64,
}

// A record was read: its value, and the bytes that it uses.
#[derive(Clone, Copy)]
pub struct Accepted {
    pub value: u64,
    pub used: usize,
}

// What a call that reads a record gives.
#[derive(Clone, Copy)]
pub struct ReadReply<S> {
    pub state: S,
    pub answer: Result<Accepted, Unread>,
}

// The lengths of what a read is lent: memory, staged pages, staged marks, staged blocks, reply.
#[derive(Clone, Copy)]
pub struct ReadLent {
    pub memory: usize,
    pub pages: usize,
    pub marks: usize,
    pub blocks: usize,
    pub reply: usize,
}

// The lengths of every buffer of the primary.
#[derive(Clone, Copy)]
pub struct PrimaryLent {
    pub memory: usize,
    pub disk: usize,
    pub dirty: usize,
    pub held: usize,
    pub stream: usize,
}

// The lengths of every buffer of the standby: memory, disk, staged pages, staged marks, staged blocks, record area.
#[derive(Clone, Copy)]
pub struct StandbyLent {
    pub memory: usize,
    pub disk: usize,
    pub pages: usize,
    pub marks: usize,
    pub blocks: usize,
    pub area: usize,
}

// The lengths of what start is lent.
#[derive(Clone, Copy)]
pub struct StartLent {
    pub primary: PrimaryLent,
    pub standby: StandbyLent,
}

// What start gives: the states too where it is refused, wholly zero (`started`, specs/Start.antt), so that it is no Result.
#[derive(Clone, Copy)]
pub struct Started {
    pub primary: Primary,
    pub standby: Standby,
    pub number: u64,
}

// The disk that is valid after both boxes fail.
#[derive(Clone, Copy)]
pub enum Disk {
    PrimaryDisk,
    StandbyDisk,
}
