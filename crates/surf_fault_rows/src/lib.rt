//! Tests of the top call with a fault at each read and at each write of a run.
#![tactic(auto)]

#[cfg(test)]
mod calling;
#[cfg(test)]
mod faults;
