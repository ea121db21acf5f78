//! Spans of rows packed into lanes.
//!
//! `pack` gives each span, in order, the least lane that no earlier span sharing a row with it
//! has. Its contract says besides that there are as many lanes as spans share one row, and which
//! is the first such row. It stands on `surf_base`.
#![tactic(auto)]

mod lanes;
mod laws;
mod packing;

pub use lanes::{Lanes, Span};
pub use laws::packing_law;
pub use packing::pack;
