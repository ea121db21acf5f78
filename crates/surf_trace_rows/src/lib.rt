//! Tests of recorded runs.
//!
//! Each call succeeds once; what replays and readings answer is in the rows of `surf_rows`.
#![tactic(auto)]

#[cfg(test)]
mod traces;
