//! The texts of the demonstrations: a circuit that adds two numbers, and a vote among cells.
//!
//! [`adder_text`] and [`vote_text`] answer exactly the texts of `specs/Adders.antt` and
//! `specs/Votes.antt`, and [`adder_bits`] the bits at which the adder is shown. Want of memory is
//! their only refusal.
#![tactic(auto)]

mod adder;
mod pieces;
mod vote;

pub use adder::{adder_bits, adder_text};
pub use vote::vote_text;
