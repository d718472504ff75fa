// The ticks in which the packets held were sent, and the most ticks from a packet's sending to its take.
ghost use Rattle.std.specs.Prelude.{◌≡◌, [], ◌∷◌, ◌++◌, ◌+◌, ◌-◌, ◌<◌, max, take, drop, get_or};
ghost use Rattle.trials.specs.Trial.{longest, longest_to};
ghost use Rattle.trials.specs.Site.{trial_of};

use crate::TrialSite;
use settings::MOST_PACKETS;

const LAST_PLACE: usize = MOST_PACKETS - 1;

// The ticks of the packets held, with this one behind the first n.
pub(crate) fn with_last(sent: [u64; MOST_PACKETS], n: usize, tick: u64) -> [u64; MOST_PACKETS]
    requires { n < 64 }
    ensures { take (n + 1) result ≡ take n sent ++ (tick ∷ []) }
{
    let mut next = sent;
    next[n] = tick;
    next
}

// The ticks of the packets held without the first.
pub(crate) fn without_first(sent: [u64; MOST_PACKETS]) -> [u64; MOST_PACKETS]
    ensures { take 63 result ≡ drop 1 sent }
{
    let mut next = sent;
    next[..LAST_PLACE].copy_from_slice(&sent[1..]);
    next
}

// The most ticks, with those of the packet that was sent in the first of these and is taken in this one.
pub(crate) fn most_with(sent: [u64; MOST_PACKETS], tick: u64, most: u64) -> u64
    ensures { result ≡ max most (tick - get_or sent 0 0) }
{
    most.max(tick.saturating_sub(sent[0]))
}

// The most ticks, of the packets taken and of these, which are held.
fn most_of(sent: &[u64], tick: u64, most: u64) -> u64
    ensures { result ≡ longest_to tick most sent.now }
{
    let mut longest = most;
    for begun in sent {
        longest = longest.max(tick.saturating_sub(*begun));
    }
    longest
}

// "the most ticks from a packet's sending to its take or the last tick begun".
pub(crate) fn longest_of(t: TrialSite) -> u64
    ensures { result ≡ longest (trial_of t) }
{
    let count = MOST_PACKETS.min(t.site.primary.state.queue.count);
    most_of(&t.sent[..count], t.tick, t.most)
}
