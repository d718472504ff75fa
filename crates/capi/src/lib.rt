// Every call of the two ends, start, the disk choice and a page's part of a sum, for C: a state is lent as words, and the
// answer is one word.
#![tactic(auto)]

pub mod pair_calls;
pub mod primary_calls;
mod primary_words;
pub mod standby_calls;
mod standby_words;
pub mod word;
