// The primary's calls: the guest's writes, packets, checkpoint, drain, ACK, take, tick and sum.
#![tactic(auto)]

pub mod checkpoint;
pub mod packets;
pub mod ranges;
pub mod stream;
pub mod sum;
pub mod tick;
pub mod writes;
