//! The commands over recorded runs: `replay`, `outputs` and `observe`.
//!
//! `replay` says whether each event of a trace is enabled at its turn, `outputs` writes what then
//! stands at a legend's outputs, and `observe` the states of one generation of cells.
//! `specs/Calls.antt` holds what they promise: the exact text, when they refuse, and which event
//! they find not enabled.
#![tactic(auto)]

mod observing;
mod outputs;
mod replaying;

pub use observing::show_observed;
pub use outputs::show_finals;
pub use replaying::check_trace;
