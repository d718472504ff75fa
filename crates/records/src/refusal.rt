// Why a call is refused: document 01, "Numbers from the input" and "Numbers from the state", and document 02, by name.
ghost use Rattle.std.specs.Prelude.{◌≡◌};
ghost use Rattle.records.specs.declared.Unread.TheVariants.{Refused};
ghost use Rattle.records.specs.Number.{refusal_number, number_in};

use crate::Unread;

// Each with its number, as specs/Number.antt has them.
#[derive(Clone, Copy, PartialEq, Eq)]
pub enum Refusal {
    // a setting, a lent length, or a state outside its ranges
    OutOfRange = 1,
    // page number not below M, block not below D
    NoSuchUnit = 2,
    // a memory write empty or past its page, block data not U bytes
    BadSize = 3,
    // packet length
    BadPacket = 4,
    // reply buffer under 8, or destination shorter than the packet
    NoRoom = 5,
    // kind not for this end, or for a file
    BadKind = 6,
    // length not the kind's
    BadLength = 7,
    // epoch not the last received plus 1; in a file, an epoch unlike the first record's (document 02, Jobs 10 and 14)
    BadEpoch = 8,
    // BLOCK after PAGE or STATE, PAGE not above the last or after STATE, second STATE, COMMIT without STATE
    OutOfOrder = 9,
    // counts differ from those received
    BadCounts = 10,
    // ACK not above the acknowledged epoch or not below the open one
    BadAck = 11,
    // record area neither zero nor a record
    BadArea = 12,
    // checkpoint or ACK when alone, a record when not receiving, activation when not taking over, a guest write at a
    // standby not active
    WrongMode = 13,
    // the epoch already has B different blocks and this is another, or it has 65,535 BLOCK records (document 02, Job 9)
    AllowanceUsed = 14,
    // the stream lacks the bytes needed
    StreamFull = 15,
    // 64 packets held, or Q would be passed
    QueueFull = 16,
    // S blocks staged, none of them this block in this epoch
    SlotsFull = 17,
    // nothing may be handed out
    NothingFree = 18,
    // the open epoch is 4,294,967,295
    LastEpoch = 19,
    // blocks still due at activation
    BlocksDue = 20,
    // the port is above 3 (document 02, Job 6)
    NoSuchPort = 23,
    // the interval or the link rate of a trial is 0 (document 02, Job 12)
    NoPlan = 27,
    // the file holds bytes after its COMMIT (document 02, Job 14)
    BytesBehind = 29,
    // the destination is too short for the normal form (document 02, Job 14)
    DestinationShort = 30,
}

impl Refusal {
    // Its number in the documents.
    pub fn number(self) -> u64
        ensures { result ≡ refusal_number self }
    {
        self as u64
    }
}

// A refusal before any record is read is the answer of the reading too.
impl From<Refusal> for Unread {
    ghost from_gives = { λ r u. u ≡ Refused (refusal_number r) };

    fn from(refusal: Refusal) -> Unread {
        Unread::Refused {
            number: refusal.number(),
        }
    }
}

// The number of what a test gives: 0 where it passed.
pub fn number_in(tests: Result<(), Refusal>) -> u64
    ensures { result ≡ number_in tests }
{
    match tests {
        Ok(()) => 0,
        Err(refusal) => refusal.number(),
    }
}
