//! Drawings routed and sealed into layouts.
//!
//! `Route` gives a placed drawing its tiles, row by row, with a table of the columns in which a net
//! comes from above. `Seal` makes the sites of the tiles and answers a `Layout`. Its contract says
//! which sites these are; that they keep the local law, so that the surface settles, is proved from
//! a law over tiles.
#![tactic(auto)]

mod draw;
mod ends;
mod kinds;
mod line;
mod route;
mod seal;
mod sheet;

pub use route::Route;
pub use seal::Seal;
