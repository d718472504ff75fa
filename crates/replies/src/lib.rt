// The replies of the calls of both ends: refused or accepted, and the answer of one that reads a record.
#![tactic(auto)]

ghost use Rattle.std.specs.Prelude.{◌≡◌};
ghost use Rattle.records.specs.Number.{refusal_number};
ghost use Rattle.rules.specs.Reply.{answer_of};

use records::reading::{used_of, value_of};
use records::refusal::Refusal;
use records::{Record, Unread};
use rules::{Accepted, Reply};

// A refused call leaves the state, and its value is 0.
pub fn refused<S>(state: S, refusal: Refusal) -> Reply<S>
    ensures { result ≡ record { state = state; number = refusal_number refusal; value = 0 } }
{
    Reply {
        state,
        number: refusal.number(),
        value: 0,
    }
}

// An accepted call gives its new state and its value.
pub fn accepted<S>(state: S, value: u64) -> Reply<S>
    ensures { result ≡ record { state = state; number = 0; value = value } }
{
    Reply {
        state,
        number: 0,
        value,
    }
}

// What a call answers, by the record that it judged.
pub fn answer_of(r: Result<Record, Unread>) -> Result<Accepted, Unread>
    ensures { result ≡ answer_of r }
{
    match r {
        Ok(_) => Ok(Accepted {
            value: value_of(r),
            used: used_of(r),
        }),
        Err(unread) => Err(unread),
    }
}
