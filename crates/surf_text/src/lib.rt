//! Texts cut up: lines, tokens, blanks at the ends, what stands before a byte and after it.
//!
//! `specs/Bytes.antt` says what these are. The calls give parts of the text they are lent, go over
//! it once and take no memory, so that a reader built of them copies nothing.
#![tactic(auto)]

mod cursor;
mod lines;
mod texts;
mod words;

pub use cursor::{Lines, Skip};
pub use lines::{first_line, next_token};
pub use texts::{cut, is_blank_byte, trim};
pub use words::{are_plain, is_word};
