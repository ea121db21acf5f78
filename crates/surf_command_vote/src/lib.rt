//! The demonstration of a vote: what its cells come to.
//!
//! [`show_vote`] makes the text of a vote's pattern, reads it as any pattern is read, takes its colony
//! through a fixed number of events, and writes a few lines of what the cells came to.
//! `specs/Calls.antt` holds what it promises: the exact text.
#![tactic(auto)]

mod voting;

pub use voting::show_vote;
