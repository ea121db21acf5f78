//! Circuits on the surface.
//!
//! `compile` answers the surface of a circuit as a manifest, with a legend. Its contract says which
//! surface that is, and besides, in the words of equations and runs alone, that it computes the
//! circuit in every run whose inputs were set to bits. It stands on netlists, drawings and layouts,
//! and on the manifest, its legend and its inputs.
#![tactic(auto)]

mod compiler;
mod laws;
mod legend;
mod numbering;
mod surface;
mod text;

pub use compiler::{compile, compile_text};
pub use laws::{circuits_are_set, layouts_compute, sets_keep_form, surface_is_one};
