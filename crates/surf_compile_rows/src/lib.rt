//! Tests of circuits, from their text to their surface, and of inputs that are set.
//!
//! Each call succeeds once. What surfaces are printed, what they do in runs, and what is refused
//! are rows of `surf_rows`.
#![tactic(auto)]

#[cfg(test)]
mod circuits;
#[cfg(test)]
mod inputs;
