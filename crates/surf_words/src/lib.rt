//! The words of the command line.
//!
//! `read_words` answers the command that the words spell, and an error exactly where they are not in
//! the table of commands, `specs/Words.antt`. No call takes memory.
#![tactic(auto)]

mod command;
mod words;

pub use command::Command;
pub use words::{UsageError, read_words};
