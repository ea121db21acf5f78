//! The commands over circuits: `eval`, `circuit`, `set` and `demo adder`.
//!
//! `eval` writes the values of a circuit's outputs, `circuit` its surface with a legend, and `set`
//! such a surface with bits at its inputs; `demo adder` writes what a circuit that adds comes to.
//! `specs/Calls.antt` holds what they promise: the exact text, when they refuse, and that what
//! `circuit` writes computes the circuit in every run.
#![tactic(auto)]

mod adding;
mod bits;
mod compiling;
mod evaluating;
mod setting;

pub use adding::show_adder;
pub use compiling::compile_circuit;
pub use evaluating::evaluate;
pub use setting::set;
