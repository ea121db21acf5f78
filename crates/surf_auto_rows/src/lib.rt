//! Tests of automata: texts that are read with a margin, their steps, and the names of cells.
//!
//! Each call succeeds once. Cells, steps and refusals are rows of `surf_rows`, and what surfaces of
//! automata do in runs is tried on the built program.
#![tactic(auto)]

#[cfg(test)]
mod names;
#[cfg(test)]
mod steps;
