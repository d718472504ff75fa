// The standby's calls: reading a record, flush, tick, activation, the guest's writes once it is active, and sum.
#![tactic(auto)]

mod effects;
pub mod flush;
mod judge;
pub mod ranges;
pub mod read;
pub mod sum;
pub mod takeover;
