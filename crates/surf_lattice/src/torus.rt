// Grids whose sides are joined.
ghost use Rattle.std.specs.Prelude.{◌≡◌, ◌≤◌};
ghost use Rattle.surf_lattice.specs.Shapes.{joined};

use crate::shift::joined_neighbour;
use crate::{Lattice, Site};
use std::marker::Model;

/// A grid whose sides are joined: west of the first column is the last one, and north of the first
/// row is the last one.
#[derive(Debug, Drop)]
pub struct Torus<L: Lattice> {
    plain: L,
}

impl<L: Lattice> Model for Torus<L> {
    ghost use Rattle.std.specs.Prelude.{◌≤◌};
    ghost use Rattle.surf_lattice.specs.Grids.{Grid};
    ghost use Rattle.surf_lattice.specs.Shapes.{joined};

    ghost Value = { Grid };

    ghost view = { λ t. joined (L.grid t.plain) };

    ghost invariant = { λ t. (3 ≤ (L.grid t.plain).width) × (3 ≤ (L.grid t.plain).height) };
}

impl<L: Lattice> Torus<L> {
    /// The grid with its sides joined. Each side is at least 3.
    pub fn new(plain: L) -> Torus<L>
        requires width { 3 ≤ (L.grid plain).width }
        requires height { 3 ≤ (L.grid plain).height }
        ensures { result ≡ joined (L.grid plain) }
    {
        Torus { plain }
    }
}

impl<L: Lattice> Lattice for Torus<L> {
    ghost grid = { λ t. t };

    fn width(&self) -> u32 {
        self.plain.width()
    }

    fn height(&self) -> u32 {
        self.plain.height()
    }

    fn degree(&self) -> u32 {
        self.plain.degree()
    }

    fn neighbour(&self, site: Site, direction: u32) -> Option<Site> {
        let width = self.plain.width();
        let height = self.plain.height();
        Some(joined_neighbour(width, height, site, direction))
    }

    fn is_coloured(&self) -> bool {
        let colours = self.plain.colours();
        self.plain.width() % colours == 0 && self.plain.height() % colours == 0
    }
}
