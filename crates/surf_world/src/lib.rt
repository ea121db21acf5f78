//! Surfaces of names, their enabled events and their choices.
//!
//! `World` holds a grid, rules and the numbers of names at its sites. It answers whether an event
//! is enabled, changes the sites of one, tells whether any is left, and says for each site the
//! sum of the rates of the events that begin there and which of them a number chooses.
//! `choice_laws` and `renaming_laws` say what holds of choices, and of a surface under other names.
#![tactic(auto)]

mod choice;
mod event;
mod theorems;
mod weight;
mod world;

pub use event::Event;
pub use theorems::{choice_laws, renaming_laws};
pub use world::World;
