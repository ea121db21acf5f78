//! Circuits: named signals that are given by equations of truth values.
//!
//! `order` takes parts in any order and answers a circuit whose equations can be evaluated one
//! after another, or the fault of the parts: the first in a stated order, with the name's text.
//! `eval` answers the outputs of the assignment that solves the equations at some inputs. Its
//! contract says that there is one, and that each assignment that solves them has these outputs.
#![tactic(auto)]

mod circuit;
mod costs;
mod cycles;
mod equation;
mod faults;
mod laws;
mod ready;
mod sources;
mod turns;
mod values;

pub use circuit::Circuit;
pub use equation::{Equation, Literal, Parts, Row};
pub use laws::naming_laws;
pub use turns::{CircuitError, order};
pub use values::{EvalError, eval};
