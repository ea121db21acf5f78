// Grids of any kind, as one type.
ghost use Rattle.std.specs.Prelude.{◌≡◌, ◌<◌, ◌≤◌, ◌↔◌, ◌⊎◌, true, IfOk, IsErrOf};
ghost use Rattle.surf_lattice.specs.AnyGrid.{grid_of};
ghost use Rattle.surf_lattice.specs.Grids.{IsGrid};

use crate::{GridError, GridKind, Hex, Lattice, Site, Square, Torus};

/// A grid of any kind, with or without joined sides.
#[derive(Debug, Drop)]
pub enum Grid {
    Square(Square),
    Hex(Hex),
    TorusSquare(Torus<Square>),
    TorusHex(Torus<Hex>),
}

impl Grid {
    /// The grid of this kind and these sides, which are joined where `wrap` is true.
    ///
    /// `Empty` exactly where a side is 0; `WrapSize` exactly where no side is 0, the sides are to
    /// be joined and one is below 3.
    pub fn new(kind: GridKind, wrap: bool, width: u32, height: u32) -> Result<Grid, GridError>
        ensures grid { IfOk result (λ g. grid_of g
            ≡ record { kind = kind; wrap = wrap; width = width; height = height }) }
        ensures sides { IfOk result (λ g. IsGrid (grid_of g)) }
        ensures empty { IsErrOf result GridError.Empty ↔ ((width ≡ 0) ⊎ (height ≡ 0)) }
        ensures wrap_size { IsErrOf result GridError.WrapSize
            ↔ ((1 ≤ width) × (1 ≤ height) × (wrap ≡ true) × ((width < 3) ⊎ (height < 3))) }
    {
        if width == 0 || height == 0 {
            return Err(GridError::Empty);
        }
        if wrap && (width < 3 || height < 3) {
            return Err(GridError::WrapSize);
        }
        Ok(match (kind, wrap) {
            (GridKind::Square, false) => Grid::Square(Square::new(width, height)),
            (GridKind::Hex, false) => Grid::Hex(Hex::new(width, height)),
            (GridKind::Square, true) => Grid::TorusSquare(Torus::new(Square::new(width, height))),
            (GridKind::Hex, true) => Grid::TorusHex(Torus::new(Hex::new(width, height))),
        })
    }
}

impl Lattice for Grid {
    ghost grid = { grid_of };

    fn width(&self) -> u32 {
        match self {
            Grid::Square(grid) => grid.width(),
            Grid::Hex(grid) => grid.width(),
            Grid::TorusSquare(grid) => grid.width(),
            Grid::TorusHex(grid) => grid.width(),
        }
    }

    fn height(&self) -> u32 {
        match self {
            Grid::Square(grid) => grid.height(),
            Grid::Hex(grid) => grid.height(),
            Grid::TorusSquare(grid) => grid.height(),
            Grid::TorusHex(grid) => grid.height(),
        }
    }

    fn degree(&self) -> u32 {
        match self {
            Grid::Square(grid) => grid.degree(),
            Grid::Hex(grid) => grid.degree(),
            Grid::TorusSquare(grid) => grid.degree(),
            Grid::TorusHex(grid) => grid.degree(),
        }
    }

    fn neighbour(&self, site: Site, direction: u32) -> Option<Site> {
        match self {
            Grid::Square(grid) => grid.neighbour(site, direction),
            Grid::Hex(grid) => grid.neighbour(site, direction),
            Grid::TorusSquare(grid) => grid.neighbour(site, direction),
            Grid::TorusHex(grid) => grid.neighbour(site, direction),
        }
    }

    fn is_coloured(&self) -> bool {
        match self {
            Grid::Square(grid) => grid.is_coloured(),
            Grid::Hex(grid) => grid.is_coloured(),
            Grid::TorusSquare(grid) => grid.is_coloured(),
            Grid::TorusHex(grid) => grid.is_coloured(),
        }
    }
}
