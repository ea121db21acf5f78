//! Laws of the texts that commands write.
//!
//! Each is the contract of a function that does nothing. They tie the commands together: what one
//! writes is read by the next as what it is.
#![tactic(auto)]

mod laws;

pub use laws::{
    automata_are_carried_round, cells_are_observed, circuits_are_carried_round,
    circuits_have_one_text, colonies_are_observed, runs_are_read_back, surfaces_are_set,
};
