//! Automata: local rules, their tables, and what all cells show after a step.
//!
//! [`step`] takes one step of an [`Automaton`], in which all cells take their next state at once, and
//! [`Automaton::advance`] takes many. A local rule gathers the states of the neighbours in the order
//! of directions, and every answer of a [`Local`] is in range. [`local_laws`] says that
//! [`CountLocal`] so counts live neighbours, that [`TableLocal`] sums weights, and that the steps are
//! the usual ones.
#![tactic(auto)]

mod automaton;
mod count;
mod error;
mod laws;
mod lines;
mod local;
mod phase;
mod table;

pub use automaton::{Automaton, step};
pub use count::CountLocal;
pub use error::SourceError;
pub use laws::local_laws;
pub use lines::is_table;
pub use local::Local;
pub use table::TableLocal;
