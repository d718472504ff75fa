// The commands of the program `pair` on both ends and their link, at the settings of `pair`.
#![tactic(auto)]

ghost use Rattle.std.specs.Prelude.{◌≡◌, false};
ghost use Rattle.records.specs.Number.{refusal_number};

use records::refusal::Refusal;
use records::{AREA_LENGTH, EPOCH_RECORD, Unread};
use rules::{Accepted, Primary, Standby};

pub mod answer;
pub mod commands;
pub mod link;
pub mod primary_commands;
pub mod printing;
pub mod sites;
pub mod standby_commands;

// L, the bytes of the stream, and the bytes of the link: what is left on it and all that waits fit it.
pub const STREAM_BYTES: usize = 1024;

pub const LINK_BYTES: usize = 2 * STREAM_BYTES;

// The primary's box: its state and every buffer that its calls are lent.
#[derive(Clone, Copy)]
pub struct PrimaryBox {
    pub state: Primary,
    pub memory: [u8; 256],
    pub disk: [u8; 256],
    pub dirty: [u64; 1],
    pub held: [u8; 256],
    pub stream: [u8; STREAM_BYTES],
}

// The standby's box.
#[derive(Clone, Copy)]
pub struct StandbyBox {
    pub state: Standby,
    pub memory: [u8; 256],
    pub disk: [u8; 256],
    pub pages: [u8; 256],
    pub marks: [u64; 1],
    pub blocks: [u8; 256],
    pub area: [u8; AREA_LENGTH],
}

// Both boxes and the link between them.
#[derive(Clone, Copy)]
pub struct Site {
    pub primary: PrimaryBox,
    pub standby: StandbyBox,
    // the bytes drained and not yet used, and how many
    pub link: [u8; LINK_BYTES],
    pub linked: usize,
    // the epoch of the first unread ACK; the last unread is that of the last received epoch
    pub unread: u64,
}

// What start gives: the site, and the number of its refusal, 0 where it is accepted. No Result: a refused start gives a
// site too, of which a clause of `started_with` speaks.
#[derive(Clone, Copy)]
pub struct StartedSite {
    pub site: Site,
    pub number: u64,
}

// What a read at the standby gives: its box after it, the answer, and the reply buffer of an ACK's bytes.
#[derive(Clone, Copy)]
pub struct StandbyRead {
    pub standby: StandbyBox,
    pub answer: Result<Accepted, Unread>,
    pub reply: [u8; EPOCH_RECORD],
}

// A command, one a line. Other is no None: a line that is no command has an answer too, `? 1 0` (specs/Command.antt).
#[derive(Clone, Copy)]
pub enum Command {
    Write { page: u64, byte: u8 },
    Disk { block: u64, byte: u8 },
    Send { length: u64 },
    Close { byte: u8 },
    Move,
    Acknowledge,
    Take,
    Flush,
    Takeover,
    Other,
}

// What a command gives: the site after it, what is printed of it, and whether it is the last. No Result: the number is
// the documents', as in a Reply, and a refused command may leave another site, as `k` does after its ticks.
#[derive(Clone, Copy)]
pub struct Performed {
    pub site: Site,
    pub number: u64,
    pub value: u64,
    pub last: bool,
}

impl Performed {
    // One that is not the last.
    pub(crate) fn new(site: Site, number: u64, value: u64) -> Self
        ensures { result ≡ record { site = site; number = number; value = value; last = false } }
    {
        Performed {
            site,
            number,
            value,
            last: false,
        }
    }

    // One that changes nothing.
    pub(crate) fn refused(site: Site, refusal: Refusal) -> Self
        ensures { result ≡ record { site = site; number = refusal_number refusal; value = 0; last = false } }
    {
        Performed::new(site, refusal.number(), 0)
    }
}

// A line's answer: the site after it, the bytes printed, at the head of an array, and whether it is the last.
// An array and a length, and no Vec, as the link of a Site: the programs have fixed memory.
#[derive(Clone, Copy)]
pub struct Answered {
    pub site: Site,
    pub bytes: [u8; 44],
    pub length: usize,
    pub last: bool,
}
