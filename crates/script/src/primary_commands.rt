// The commands that are calls of the primary: w d s c t; and its tick.
#![tactic(auto, unfolding(rules::specs::Step::step, crate::specs::Pair::perform, crate::specs::Site::world_of))]

ghost use Rattle.std.specs.Prelude.{◌≡◌};
ghost use Rattle.rules.specs.Step.{at_primary, step, stepped};
ghost use Rattle.rules.specs.World as call;
ghost use Rattle.script.specs.declared.Command.TheVariants.{Write, Disk, Send, Close, Take};
ghost use Rattle.script.specs.Pair.{done, perform};
ghost use Rattle.script.specs.Site.{world_of, done_of};

use crate::sites::with_primary;
use crate::{Performed, PrimaryBox, Site};
use records::PROCESSOR_BYTES;
use rules::{Primary, Reply};
use settings::MOST_PACKET_BYTES;

// A packet longer than 1,514 is refused whatever its length: so many bytes are lent at the most.
const MOST_LENT: usize = MOST_PACKET_BYTES + 1;

// "`pair` uses port 0" (document 02, Job 6).
const PORT: usize = 0;

// The site with the primary's box in the state of a reply, and what is printed of the reply.
fn replied(s: Site, p: PrimaryBox, r: Reply<Primary>) -> Performed
    ensures { done_of result ≡ done (stepped (at_primary (world_of s) (record { state = r.state; memory = p.memory; disk = p.disk; dirty = p.dirty; held = p.held; stream = p.stream })) r.number r.value) }
{
    let next = PrimaryBox {
        state: r.state,
        ..p
    };
    Performed::new(with_primary(s, next), r.number, r.value)
}

// `w p v`: one byte at the head of a page.
pub fn write(s: Site, page: u64, byte: u8) -> Performed
    ensures { done_of result ≡ perform (world_of s) (Write page byte) }
{
    let mut p = s.primary;
    let r = primary::writes::memory_write(
        p.state,
        &mut p.memory,
        &mut p.dirty,
        page as usize,
        0,
        &[byte],
    );
    replied(s, p, r)
}

// `d b v`: a block of v.
pub fn disk(s: Site, block: u64, byte: u8) -> Performed
    ensures { done_of result ≡ perform (world_of s) (Disk block byte) }
{
    let mut p = s.primary;
    let r = primary::writes::disk_write(
        p.state,
        &mut p.disk,
        &mut p.stream,
        block as usize,
        &[byte; 64],
    );
    replied(s, p, r)
}

// `s n`: a packet of n zeros; of more than 1,515 no more are lent, since 4 does not depend on more.
pub fn send(s: Site, length: u64) -> Performed
    ensures { done_of result ≡ perform (world_of s) (Send length) }
{
    let mut p = s.primary;
    let zeros = [0u8; MOST_LENT];
    let lent = length.min(MOST_LENT as u64) as usize;
    let r = primary::packets::packet(p.state, &mut p.held, PORT, &zeros[..lent]);
    replied(s, p, r)
}

// `c v`: a checkpoint with the processor state all v.
pub fn close(s: Site, byte: u8) -> Performed
    ensures { done_of result ≡ perform (world_of s) (Close byte) }
{
    let mut p = s.primary;
    let processor = [byte; PROCESSOR_BYTES];
    let r = primary::checkpoint::checkpoint(
        p.state,
        &p.memory,
        &mut p.dirty,
        &mut p.stream,
        processor,
    );
    replied(s, p, r)
}

// `t`: the oldest packet, into a destination that any packet fits.
pub fn take(s: Site) -> Performed
    ensures { done_of result ≡ perform (world_of s) Take }
{
    let mut p = s.primary;
    let mut destination = [0u8; MOST_LENT];
    let r = primary::packets::take(p.state, &mut p.held, PORT, &mut destination);
    replied(s, p, r)
}

// One tick of the primary.
pub fn primary_tick(s: Site) -> Performed
    ensures { done_of result ≡ done (step (world_of s) call.primary_tick) }
{
    replied(s, s.primary, primary::tick::tick(s.primary.state))
}

// The site after it.
pub fn primary_ticked(s: Site) -> Site
    ensures { world_of result ≡ (step (world_of s) call.primary_tick).next }
{
    primary_tick(s).site
}
