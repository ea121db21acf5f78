//! The canonical text of a manifest, with the lines of a legend where one is given.
//!
//! `print_manifest` answers exactly the text that the definitions give, line by line, or want of memory.
//! By `print_is_read` the grammar of manifests reads what is printed as the same manifest, for any number
//! of rules and sites, so a text that was printed is printed again as it stands.
#![tactic(auto)]

mod colours;
mod laws;
mod legend;
mod legend_error;
mod legend_line;
mod legend_lines;
mod legend_reader;
mod print;
mod printer;
mod room;
mod rows;
mod rules;
mod settings;
mod shorts;

pub use laws::{legend_is_read, print_is_kept, print_is_read};
pub use legend::{Legend, Place};
pub use legend_error::LegendError;
pub use legend_reader::read_legend;
pub use print::print_manifest;
pub use printer::Printer;
pub use shorts::{PIECE, Short};
