// The records of the stream: reading one, writing each kind, and the record area.
#![tactic(auto)]

pub mod disk_area;
pub mod kinds;
pub mod reading;
pub mod refusal;
pub mod writing;

// Where a record's field of bytes stands: from start to end, which is where the record ends. A kind with no such field has start = end.
#[derive(Clone, Copy)]
pub struct Cursor {
    pub start: usize,
    pub end: usize,
}

// Who reads: the record test passes kinds 1 to 5, 8 and 9, the standby 1 to 4 or, where it is wide, 8, 2, 3 and 9, the
// primary 5.
#[derive(Clone, Copy)]
pub enum Reader {
    Test,
    Standby { wide: bool },
    Primary,
}

// A record. A PAGE or a COMMIT is wide where it is of kind 8 or 9.
#[derive(Clone, Copy)]
pub enum Record {
    Page {
        wide: bool,
        epoch: u32,
        page: usize,
        at: Cursor,
    },
    Block {
        epoch: u32,
        block: usize,
        at: Cursor,
    },
    State {
        epoch: u32,
        at: Cursor,
    },
    Commit {
        wide: bool,
        epoch: u32,
        pages: usize,
        blocks: usize,
        at: Cursor,
    },
    Ack {
        epoch: u32,
        at: Cursor,
    },
}

// Why no record stands at the head of some bytes: it is cut short, so many bytes of it missing, or refused with a number.
// The number is the documents', and no Refusal: `unless_refused` (rules/specs/Reply.antt) makes it of a list of tests.
#[derive(Clone, Copy)]
pub enum Unread {
    Short { missing: usize },
    Refused { number: u64 },
}

// What the record area of the standby's disk holds.
#[derive(Clone, Copy)]
pub enum Area {
    Zero,
    Activation { epoch: u32 },
    Neither,
}

// The kinds of the table of document 01, "Records": numbers and no enum, since the record test is handed any number, and
// `is_for` (specs/Kind.antt) speaks of each.
pub const PAGE: u32 = 1;

pub const BLOCK: u32 = 2;

pub const STATE: u32 = 3;

pub const COMMIT: u32 = 4;

pub const ACK: u32 = 5;

pub const ACTIVATION: u32 = 6;

// PAGE and COMMIT with numbers of 4 bytes (document 02, Job 7).
pub const WIDE_PAGE: u32 = 8;

pub const WIDE_COMMIT: u32 = 9;

// "Up to M 4,096 the writer uses kinds 1 and 4".
pub const MOST_NARROW_PAGES: usize = 4096;

// Bytes of a processor state.
pub const PROCESSOR_BYTES: usize = 64;

// The lengths of the bodies: of a PAGE or a BLOCK besides its U bytes, of a STATE, a COMMIT, of a wide PAGE besides its
// U bytes, a wide COMMIT, and of a record with an epoch alone.
pub const UNIT_BODY: usize = 6;

pub const STATE_BODY: usize = 68;

pub const COMMIT_BODY: usize = 8;

pub const WIDE_PAGE_BODY: usize = 8;

pub const WIDE_COMMIT_BODY: usize = 12;

pub const EPOCH_BODY: usize = 4;

// The last in the width of a header's field.
pub(crate) const EPOCH_FIELD: u32 = EPOCH_BODY as u32;

// "A record is a 2-byte length of the body, a 2-byte kind, then the body": the lengths of whole records.
pub const HEADER_LENGTH: usize = 4;

pub const UNIT_RECORD: usize = HEADER_LENGTH + UNIT_BODY;

pub const STATE_RECORD: usize = HEADER_LENGTH + STATE_BODY;

pub const COMMIT_RECORD: usize = HEADER_LENGTH + COMMIT_BODY;

pub const WIDE_PAGE_RECORD: usize = HEADER_LENGTH + WIDE_PAGE_BODY;

pub const WIDE_COMMIT_RECORD: usize = HEADER_LENGTH + WIDE_COMMIT_BODY;

pub const EPOCH_RECORD: usize = HEADER_LENGTH + EPOCH_BODY;

// "record area 8"
pub const AREA_LENGTH: usize = 8;

// U, bytes in a page and in a block: 64 to 4,096, a multiple of 64.
pub const LEAST_UNIT: usize = 64;

pub const MOST_UNIT: usize = 4096;

// The largest number of a 2-byte field, and of one of 4 bytes.
pub const MOST_TWO: usize = 65535;

pub const MOST_FOUR: usize = 4294967295;

// The number that stands for cut short where one is wanted: none of document 01's.
pub const CUT_SHORT: u64 = 256;
