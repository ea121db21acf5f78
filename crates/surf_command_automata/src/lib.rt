//! The commands over cellular automata: `step` and `automaton`.
//!
//! `step` writes the states of all cells after so many synchronous steps, `automaton` a surface on
//! which the cells keep in step without a clock. `specs/Calls.antt` holds what they promise: the
//! exact text, when they refuse, and that the cells keep in step in every run.
#![tactic(auto)]

mod colonies;
mod stepping;

pub use colonies::compile_source;
pub use stepping::show_generation;
