// Hexagonal grids: six neighbours a site.
ghost use Rattle.std.specs.Prelude.{◌≡◌, ◌≤◌};
ghost use Rattle.surf_lattice.specs.Shapes.{hex};

use crate::shift::plain_neighbour;
use crate::{Lattice, Site};
use std::marker::Model;

/// The hexagonal grid of a width and a height, whose sides are not joined.
#[derive(Clone, Copy, Debug, PartialEq, Eq)]
pub struct Hex {
    width: u32,
    height: u32,
}

impl Model for Hex {
    ghost use Rattle.std.specs.Prelude.{◌≤◌};
    ghost use Rattle.surf_lattice.specs.Grids.{Grid};
    ghost use Rattle.surf_lattice.specs.Shapes.{hex};

    ghost Value = { Grid };

    ghost view = { λ s. hex s.width s.height };

    ghost inverse = { λ g. record { width = g.width; height = g.height } };

    ghost invariant = { λ s. (1 ≤ s.width) × (1 ≤ s.height) };
}

impl Hex {
    /// The grid of these sides, each at least 1.
    pub fn new(width: u32, height: u32) -> Hex
        requires width { 1 ≤ width }
        requires height { 1 ≤ height }
        ensures { result ≡ hex width height }
    {
        Hex { width, height }
    }
}

impl Lattice for Hex {
    ghost grid = { λ s. s };

    fn width(&self) -> u32 {
        self.width
    }

    fn height(&self) -> u32 {
        self.height
    }

    fn degree(&self) -> u32 {
        let _width = self.width;
        6
    }

    fn neighbour(&self, site: Site, direction: u32) -> Option<Site> {
        plain_neighbour(self.width, self.height, site, direction)
    }

    fn is_coloured(&self) -> bool {
        let _width = self.width;
        true
    }
}
