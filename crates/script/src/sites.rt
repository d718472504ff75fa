// A site: made by start, and with one box changed.
#![tactic(auto, unfolding(crate::specs::Site::world_of))]

ghost use Rattle.std.specs.Prelude.{◌≡◌, replicate};
ghost use Rattle.rules.specs.Step.{at_primary, at_standby};
ghost use Rattle.rules.specs.World.{start_number};
ghost use Rattle.script.specs.Pair.{pair_start, settings_with, started_with, zero_buffers};
ghost use Rattle.script.specs.Site.{primary_of, standby_of, world_of};

use crate::{LINK_BYTES, PrimaryBox, STREAM_BYTES, Site, StandbyBox, StartedSite};
use records::{AREA_LENGTH, PROCESSOR_BYTES};
use rules::Primary;
use settings::Settings;

// T, which `pair` is started with.
const PAIR_T: u32 = 3;

// "Settings: U 64, M 4, D 4, B 2, S 4, Q 256, L 1,024", and this T.
fn settings_with(t: u32) -> Settings
    ensures { result ≡ settings_with t }
{
    Settings {
        u: 64,
        m: 4,
        d: 4,
        b: 2,
        s: 4,
        q: 256,
        l: STREAM_BYTES,
        t,
    }
}

// The site of a primary in this state with these marks, its buffers zeros, and of a standby; the link is empty and no
// ACK unread.
fn opened(primary: Primary, dirty: [u64; 1], standby: StandbyBox) -> Site
    ensures { result ≡ record { primary = record { state = primary; memory = replicate 256 0; disk = replicate 256 0; dirty = dirty; held = replicate 256 0; stream = replicate 1024 0 }; standby = standby; link = replicate 2048 0; linked = 0; unread = 1 } }
{
    let zeros = [0u8; 256];
    Site {
        primary: PrimaryBox {
            state: primary,
            memory: zeros,
            disk: zeros,
            dirty,
            held: zeros,
            stream: [0u8; STREAM_BYTES],
        },
        standby,
        link: [0u8; LINK_BYTES],
        linked: 0,
        unread: 1,
    }
}

// Both ends started at the settings of `pair` with this T, all zeros: accepted or refused.
pub fn started_with(t: u32) -> StartedSite
    ensures site_value { world_of result.site ≡ started_with t }
    ensures number_value { result.number ≡ start_number (settings_with t) (zero_buffers (settings_with t)) }
{
    let zeros = [0u8; 256];
    let mut dirty = [0u64; 1];
    let mut memory = zeros;
    let mut disk = zeros;
    let mut marks = [0u64; 1];
    let mut area = [0u8; AREA_LENGTH];
    let r = ends::start::start(
        settings_with(t),
        [0u8; PROCESSOR_BYTES],
        &zeros,
        &zeros,
        &mut dirty,
        &zeros,
        &[0u8; STREAM_BYTES],
        &mut memory,
        &mut disk,
        &zeros,
        &mut marks,
        &zeros,
        &mut area,
    );
    let standby = StandbyBox {
        state: r.standby,
        memory,
        disk,
        pages: zeros,
        marks,
        blocks: zeros,
        area,
    };
    StartedSite {
        site: opened(r.primary, dirty, standby),
        number: r.number,
    }
}

// Both ends started at the settings of `pair`, all zeros.
pub fn started() -> Site
    ensures { world_of result ≡ pair_start }
{
    started_with(PAIR_T).site
}

// The site with another primary's box.
pub fn with_primary(s: Site, p: PrimaryBox) -> Site
    ensures { world_of result ≡ at_primary (world_of s) (primary_of p) }
{
    Site { primary: p, ..s }
}

// The site with another standby's box, of the same last received epoch: the unread ACKs are those up to it.
pub(crate) fn with_standby(s: Site, b: StandbyBox) -> Site
    requires { b.state.received ≡ s.standby.state.received }
    ensures { world_of result ≡ at_standby (world_of s) (standby_of b) }
{
    Site { standby: b, ..s }
}
