//! The simulation of a surface.
//!
//! A [`Sim`] draws events one after another. Each is the choice, in the order of
//! `specs/Simulations.antt`, of a number that is drawn below the sum of the rates; so a seed fixes
//! all of them. After an event only the weights of its sites and of their neighbours are set, each
//! at most once, and at most fourteen. A neighbour whose name begins no pair keeps its weight.
//! What the sum of the weights never exceeds is told by [`most_total`], and has to be below the
//! picker's bound. [`simulation_laws`] says what the events of a seed are: a run, which ends early
//! only where nothing can happen, and the same under other names.
#![tactic(auto)]

mod refresh;
mod second;
mod sim;
mod theorems;
mod total;

pub use sim::Sim;
pub use theorems::simulation_laws;
pub use total::most_total;
