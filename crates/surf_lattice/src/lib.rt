//! Grids of sites, their neighbours and their colours.
//!
//! Square and hexagonal grids, with and without joined sides, implement one trait, [`Lattice`].
//! Its contracts see a grid as the record of `specs/Grids.antt`: a kind, a wrap flag and two
//! sides. What holds of every grid, as that neighbours are symmetric and that near sites differ in
//! colour, is stated once, by [`grid_laws`].
#![tactic(auto)]

mod error;
mod grid;
mod hex;
mod lattice;
mod laws;
mod shift;
mod site;
mod square;
mod torus;

pub use error::GridError;
pub use grid::Grid;
pub use hex::Hex;
pub use lattice::Lattice;
pub use laws::grid_laws;
pub use site::{GridKind, Site};
pub use square::Square;
pub use torus::Torus;
