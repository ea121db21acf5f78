//! Colonies: automata as manifests of a surface on which the cells keep in step without a clock.
//!
//! [`compile_automaton`] answers the colony of an automaton, in every run of which a cell of
//! generation k shows the synchronous state of k; [`compile_last`] one whose runs end at a stated
//! generation. It stands on the names and rules of `surf_sync` and on `Manifest::assemble`.
#![tactic(auto)]

mod compile;
mod laws;
mod start;

pub use compile::{compile_automaton, compile_last};
pub use laws::keeps_in_step;
