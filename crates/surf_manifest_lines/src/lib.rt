//! Lines of manifests, each by itself.
//!
//! [`kind_of`] tells what a line is: a mark of a block, an inclusion, content, or none of these.
//! [`option_line`], [`rule_line`] and [`is_name_token`] read content, and answer the faults of
//! [`ManifestError`]. What they answer is what specs/Line.antt and specs/Item.antt say.
#![tactic(auto)]

mod error;
mod line;
mod option_lines;
mod options;
mod rates;
mod rule_lines;
mod words;

pub use error::{Block, ManifestError};
pub use line::{BlockKind, LineKind, kind_of};
pub use option_lines::{Setting, option_line};
pub use options::OptionLine;
pub use rule_lines::{RuleLine, Sides, rule_line};
pub use words::is_name_token;
