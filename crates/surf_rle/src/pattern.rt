// What a pattern is.
use surf_auto::{Automaton, CountLocal};
use surf_life::MooreLocal;

/// The automaton of a pattern, by the neighbours that its rule counts.
#[derive(Debug, Drop)]
pub enum Pattern {
    /// The four or six of its grid.
    Count(Automaton<CountLocal>),
    /// The eight that differ by at most one in each coordinate, on a square grid.
    Moore(Automaton<MooreLocal>),
}
