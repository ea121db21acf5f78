//! Patterns of two-state automata in RLE, read in one pass.
//!
//! `rle_of` in specs/Rle.antt says what a text means: cells on a box with a margin or on a torus,
//! and the rule by which they count four, six or eight neighbours; or the text's first fault.
//! [`read_rle`] answers exactly that as a [`Pattern`], and want of memory alone besides.
#![tactic(auto)]

mod cells;
mod header;
mod item;
mod lines;
mod pattern;
mod reader;
mod rule;
mod sheet;
mod torus;

pub use pattern::Pattern;
pub use reader::read_rle;
