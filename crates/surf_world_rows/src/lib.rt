//! Tests of grids, rules and surfaces.
//!
//! Each call succeeds once; what small surfaces do in runs is in the rows of `surf_rows`.
#![tactic(auto)]

#[cfg(test)]
mod rules;
#[cfg(test)]
mod worlds;
