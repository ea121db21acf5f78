//! The sites of a surface as text.
//!
//! `print_rows` writes cells in rows: names of a world, states, or states where there are any. Its
//! contract says the text of each row. `OfCells` in `specs/CellNames.antt` says that a manifest's
//! names are those of an automaton's cells and of their frame. It knows no command.
#![tactic(auto)]

mod cells;
mod rows;

pub use cells::{Cells, Named, Observed, States};
pub use rows::print_rows;
