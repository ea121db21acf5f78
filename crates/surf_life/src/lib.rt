//! Conway's Life and its kin: births and survivals by counts of live cells among eight neighbours.
//!
//! [`MooreLocal`] counts them by half generations, as a local rule of four neighbours and two
//! phases, and [`moore_laws`] says that two phases are one step of eight neighbours.
//! [`advance_moore`] takes such steps by whole rows. They stand on the local rules and steps of
//! `surf_auto`.
#![tactic(auto)]

mod laws;
mod life;
mod moore;
mod rows;

pub use laws::moore_laws;
pub use life::advance_moore;
pub use moore::MooreLocal;
