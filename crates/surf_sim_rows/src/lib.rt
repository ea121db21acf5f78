//! Tests of pickers, draws and simulations.
//!
//! Draws and events against numbers that were computed apart from this code, and which weights an
//! event sets again.
#![tactic(auto)]

#[cfg(test)]
mod draws;
#[cfg(test)]
mod sets;
#[cfg(test)]
mod sims;
