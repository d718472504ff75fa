// The calls of `capi` as exports: a library of other crates exports nothing, and a static library is a library of none.
#![tactic(auto)]

mod pair_calls;
mod primary_calls;
mod standby_calls;
