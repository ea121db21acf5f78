//! Tests of the outside and of the words of the command line.
//!
//! What no clause says: the adapters over the streams of std, and that calls succeed.
#![tactic(auto)]

#[cfg(test)]
mod memory;
#[cfg(test)]
mod streams;
#[cfg(test)]
mod words;
