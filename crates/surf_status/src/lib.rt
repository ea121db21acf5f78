//! How a call of the program ends.
//!
//! `Status` and `Refusal` are the answers, `note` writes the line that goes with one. What a command
//! promises of its input is a record `Call` of definitions in `specs/Calls.antt`, and `EndsAs` says
//! which answers it may then give and what it wrote. Each command cites these, and no command knows
//! another. It stands on the crates whose faults a command can meet.
#![tactic(auto)]

mod reasons;
mod status;
mod words;

pub use reasons::note;
pub use status::{
    Refusal, Status, ended, refused, refused_bits, refused_blif, refused_legend, refused_observe,
    refused_set, refused_source, refused_trace,
};
