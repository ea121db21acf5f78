//! Circuits as BLIF texts.
//!
//! `specs/Grammar.antt` says what the lines of a text declare and which is the first fault among
//! them, and `specs/Blifs.antt` when a text is a circuit. [`read_blif`] answers the circuit of a
//! text, or exactly its fault; want of memory is the one answer that says nothing of the text.
//! By [`eval_is_of_text`] what `surf_logic::eval` answers for a circuit that was read are the outputs
//! of the text's own equations.
#![tactic(auto)]

mod draft;
mod error;
mod joins;
mod kinds;
mod laws;
mod logical;
mod numbering;
mod reader;
mod reading;
mod rows;

pub use error::BlifError;
pub use laws::eval_is_of_text;
pub use reader::read_blif;
