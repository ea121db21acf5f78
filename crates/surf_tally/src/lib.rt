//! What the cells of a simulated colony come to.
//!
//! [`tally`] takes the events of a simulation one after another and answers, of the cells at some
//! places, exactly what `tally_of` in `specs/Tallies.antt` says of that run: the least and the
//! greatest number of generations that a cell came to, and how many were live at one of them. It
//! keeps a few numbers a site and no list of events.
#![tactic(auto)]

mod counts;
mod shown;
mod summary;
mod tallying;

pub use summary::Tally;
pub use tallying::tally;
