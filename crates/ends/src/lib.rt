// Start, which makes both ends, and the choice of disk after both boxes fail.
#![tactic(auto)]

pub mod choice;
pub mod start;
