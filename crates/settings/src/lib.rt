// The settings of a pair, what each end keeps of them, and whether they are in their ranges.
#![tactic(auto)]

ghost use Rattle.std.specs.Prelude.{◌≡◌, ◌&&◌, ◌+◌, ◌≤◌};
ghost use Rattle.records.specs.Kind.{unit_ok, counts_end};
ghost use Rattle.settings.specs.Range.{memory_pages_ok, disk_blocks_ok, allowance_ok, block_slots_ok, held_bytes_ok, stream_ok, patience_ok, settings_ok, primary_settings_ok, standby_settings_ok};

use records::kinds::{commit_length, is_wide, number_end};
use records::reading::unit_ok;
use records::{STATE_RECORD, UNIT_RECORD};

// "At most 64 packets are held, each of 1 to 1,514 bytes".
pub const MOST_PACKETS: usize = 64;

pub const MOST_PACKET_BYTES: usize = 1514;

// "A held packet gains a port, 0 to 3" (document 02, Job 6).
pub const MOST_PORT: usize = 3;

// The last epoch that there is.
pub const MOST_EPOCH: u32 = 4294967295;

// M, D, B, S, Q, L and T, at most (document 01, "Settings"; M and L: document 02, Job 7).
pub const MOST_PAGES: usize = 65536;

pub const MOST_BLOCKS: usize = 4096;

pub const MOST_ALLOWANCE: usize = 64;

pub const MOST_SLOTS: usize = 64;

pub const MOST_HELD: usize = 32768;

pub const MOST_STREAM: usize = 536870912;

pub const MOST_PATIENCE: u32 = 60000;

// The BLOCK records of an epoch, at most (document 02, Job 9).
pub const MOST_RECORDS: usize = 65535;

// What start is told (document 01, "Settings").
#[derive(Clone, Copy)]
pub struct Settings {
    pub u: usize,
    pub m: usize,
    pub d: usize,
    pub b: usize,
    pub s: usize,
    pub q: usize,
    pub l: usize,
    pub t: u32,
}

// What the primary keeps; T stands in its detector.
#[derive(Clone, Copy)]
pub struct PrimarySettings {
    pub u: usize,
    pub m: usize,
    pub d: usize,
    pub b: usize,
    pub q: usize,
    pub l: usize,
}

// What the standby keeps; T stands in its detector.
#[derive(Clone, Copy)]
pub struct StandbySettings {
    pub u: usize,
    pub m: usize,
    pub d: usize,
    pub b: usize,
    pub s: usize,
}

impl From<Settings> for PrimarySettings {
    ghost use Rattle.settings.specs.Range.{of_primary};

    ghost from_gives = { λ g kept. kept ≡ of_primary g };

    fn from(g: Settings) -> Self {
        PrimarySettings {
            u: g.u,
            m: g.m,
            d: g.d,
            b: g.b,
            q: g.q,
            l: g.l,
        }
    }
}

impl From<Settings> for StandbySettings {
    ghost use Rattle.settings.specs.Range.{of_standby};

    ghost from_gives = { λ g kept. kept ≡ of_standby g };

    fn from(g: Settings) -> Self {
        StandbySettings {
            u: g.u,
            m: g.m,
            d: g.d,
            b: g.b,
            s: g.s,
        }
    }
}

// Tests are joined by `&`: both sides are made, which is safe and has no effect, and what comes out is the definition's own conjunction. `&&` would
// be a branch for each.

// U, M, D and B, which both ends keep. Four numbers and no struct: the definitions of settings/specs/Range (`primary_settings_ok`, `standby_settings_ok`, `settings_ok`) name the fields of each end.
pub fn shared_ok(u: usize, m: usize, d: usize, b: usize) -> bool
    ensures { result ≡ (unit_ok u && memory_pages_ok m && disk_blocks_ok d && allowance_ok b) }
{
    unit_ok(u) & ((1 <= m) & (m <= MOST_PAGES)) & (d <= MOST_BLOCKS) & (b <= MOST_ALLOWANCE)
}

// S.
fn slots_ok(b: usize, s: usize) -> bool
    ensures { result ≡ block_slots_ok b s }
{
    (b <= s) & (s <= MOST_SLOTS)
}

// Q.
fn held_ok(q: usize) -> bool
    ensures { result ≡ held_bytes_ok q }
{
    q <= MOST_HELD
}

// What a checkpoint has besides its pages: STATE and COMMIT.
pub fn checkpoint_end(wide: bool) -> usize
    ensures { result ≡ 72 + counts_end wide }
{
    STATE_RECORD + commit_length(wide)
}

// L, once U, M and B are in their ranges, so that its lower end does not wrap.
fn stream_ok(u: usize, m: usize, b: usize, l: usize) -> bool
    requires { (u ≤ 4096) × (m ≤ 65536) × (b ≤ 64) }
    ensures { result ≡ stream_ok u m b l }
{
    let wide = is_wide(m);
    let pages = m * (u + number_end(wide));
    let blocks = b * (u + UNIT_RECORD);
    let least = pages + blocks + checkpoint_end(wide);
    (least <= l) & (l <= MOST_STREAM)
}

// T.
pub fn patience_ok(t: u32) -> bool
    ensures { result ≡ patience_ok t }
{
    (1 <= t) & (t <= MOST_PATIENCE)
}

// Whether the settings that the primary keeps are in their ranges.
pub fn primary_settings_ok(g: PrimarySettings) -> bool
    ensures { result ≡ primary_settings_ok g }
{
    shared_ok(g.u, g.m, g.d, g.b) && (held_ok(g.q) & stream_ok(g.u, g.m, g.b, g.l))
}

// Whether those that the standby keeps are.
#[tactic(auto, unfolding(crate::specs::Range::standby_settings_ok))]
pub fn standby_settings_ok(g: StandbySettings) -> bool
    ensures { result ≡ standby_settings_ok g }
{
    shared_ok(g.u, g.m, g.d, g.b) & slots_ok(g.b, g.s)
}

// Whether the settings that start is told are: the primary's, S and T.
pub fn settings_ok(g: Settings) -> bool
    ensures { result ≡ settings_ok g }
{
    primary_settings_ok(PrimarySettings::from(g)) & slots_ok(g.b, g.s) & patience_ok(g.t)
}
