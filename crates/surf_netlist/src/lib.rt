//! Circuits as gates of one and two inputs.
//!
//! `decompose` turns the equations of a circuit, in their order, into gates: a chain of ANDs for
//! each row and of ORs for the rows. Its contract says which gates these are, and that for all
//! bits the nets of the outputs have the values that the circuit evaluates to. It stands on
//! `surf_logic` for circuits and on `surf_tiles` for netlists.
#![tactic(auto)]

mod gate_list;
mod laws;
mod nets;
mod signed;

pub use laws::gate_laws;
pub use nets::decompose;
pub use surf_tiles::{Gate, Netlist};
