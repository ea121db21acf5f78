//! Names and their numbers, and rules found by their left sides.
//!
//! `Names` is a list of distinct texts: a known text keeps its number, and a new one goes last.
//! `RuleBook` is a list of rules, and answers for one name or two the numbers of exactly the
//! rules of rate above 0 with that left side, rising, and the sum of their rates.
#![tactic(auto)]

mod book;
mod hashing;
mod index;
mod listed;
mod names;
mod rule;
mod sums;

pub use book::RuleBook;
pub use names::Names;
pub use rule::Rule;
