//! The commands over a manifest alone: `run` and `format`.
//!
//! `run` writes the events that a seed gives, the surface that they leave and `stuck` or `limit`;
//! `format` writes the canonical print. `specs/Calls.antt` holds what they promise: the exact text,
//! when they refuse, and that what `run` writes shows a run.
#![tactic(auto)]

mod canonical;
mod events;
mod print;
mod running;

pub use canonical::format;
pub use running::run;
