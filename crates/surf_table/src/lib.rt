//! Tables of cellular automata: the reader of their text.
//!
//! `table_of` in specs/TableTexts.antt says what a text spells: an automaton, or its first fault.
//! [`read_table`] answers exactly that, in one pass, and want of memory alone besides.
#![tactic(auto)]

mod body;
mod head;
mod laws;
mod lines;
mod numbers;
mod reader;
mod words;

pub use laws::rules_by_weights;
pub use reader::read_table;
