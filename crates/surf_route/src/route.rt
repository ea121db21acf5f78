//! Drawings that get their tiles.
ghost use Rattle.std.specs.Prelude.{◌≡◌, IfErr, IfOk};

use crate::draw::drawn_tiles;
use std::alloc::Global;
use surf_base::NoMemory;
use surf_place::{Drawing, Placed, Routed};

/// A drawing whose nets have rows and columns, and that can be given its tiles.
pub trait Route: Sized {
    /// Draws each tile, in constant time. On `NoMemory` the drawing comes back as it was.
    fn route(self, alloc: Global) -> Result<Drawing<Routed>, (Self, NoMemory)>;
}

impl Route for Drawing<Placed> {
    fn route(self, alloc: Global) -> Result<Drawing<Routed>, (Self, NoMemory)>
        ensures routed { IfOk result (λ d. d ≡ self) }
        ensures back { IfErr result (λ e. e.0 ≡ self) }
    {
        match drawn_tiles(alloc, &self) {
            Ok(tiles) => Ok(self.with_tiles(tiles)),
            Err(refused) => Err((self, refused)),
        }
    }
}
