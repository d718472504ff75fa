// The two widths of PAGE and COMMIT (document 02, Job 7), and which kinds go to which reader.
ghost use Rattle.std.specs.Prelude.{◌≡◌, ◌+◌, ◌^◌, ◌<◌};
ghost use Rattle.records.specs.Kind.{is_wide, page_kind, commit_kind, number_width, number_end, is_for, counts_end};

use crate::{
    ACK, BLOCK, COMMIT, COMMIT_RECORD, MOST_FOUR, MOST_NARROW_PAGES, MOST_TWO, PAGE, Reader, STATE,
    UNIT_RECORD, WIDE_COMMIT, WIDE_COMMIT_RECORD, WIDE_PAGE, WIDE_PAGE_RECORD,
};

// Whether so many memory pages call for the wide kinds.
pub fn is_wide(m: usize) -> bool
    ensures { result ≡ is_wide m }
{
    MOST_NARROW_PAGES < m
}

pub(crate) fn page_kind(wide: bool) -> u32
    ensures { result ≡ page_kind wide }
{
    if wide { WIDE_PAGE } else { PAGE }
}

pub(crate) fn commit_kind(wide: bool) -> u32
    ensures { result ≡ commit_kind wide }
{
    if wide { WIDE_COMMIT } else { COMMIT }
}

// Where the first number of a record ends: a PAGE's U bytes, and a COMMIT's second count, stand from here on.
pub fn number_end(wide: bool) -> usize
    ensures { result ≡ number_end wide }
{
    if wide { WIDE_PAGE_RECORD } else { UNIT_RECORD }
}

// The bytes of a COMMIT.
pub fn commit_length(wide: bool) -> usize
    ensures { result ≡ counts_end wide }
{
    if wide {
        WIDE_COMMIT_RECORD
    } else {
        COMMIT_RECORD
    }
}

// The largest page number, and count, that its field holds.
pub(crate) fn most_number(wide: bool) -> usize
    ensures { (result + 1 ≡ 256 ^ number_width wide) × (result < 2 ^ 32) }
{
    if wide { MOST_FOUR } else { MOST_TWO }
}

// Whether records of a kind go to a reader.
pub fn is_for(reader: Reader, kind: u32) -> bool
    ensures { result ≡ is_for reader kind }
{
    match reader {
        Reader::Test => matches!(kind, PAGE..=ACK | WIDE_PAGE..=WIDE_COMMIT),
        Reader::Standby { wide } => {
            (kind == page_kind(wide)) | matches!(kind, BLOCK | STATE) | (kind == commit_kind(wide))
        }
        Reader::Primary => kind == ACK,
    }
}
