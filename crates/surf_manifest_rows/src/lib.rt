//! Tests of manifests that are made.
//!
//! What no command shows: the parts of a manifest, and changes of one; and each call succeeds once.
#![tactic(auto)]

#[cfg(test)]
mod manifests;
