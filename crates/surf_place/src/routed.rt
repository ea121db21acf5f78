//! Drawings with their tiles.
ghost use Rattle.std.specs.Prelude.{◌≡◌, ◌<◌, length};
ghost use Rattle.surf_tiles.specs.Netlists.{nets_of};
ghost use Rattle.surf_place.specs.Drawing.{rows_of, source_row, last_row, tile_of};
ghost use Rattle.surf_place.specs.Placed.{IsPlaced, placement_of, tiles_of};

use crate::drawing::Drawing;
use crate::placed::Placed;
use std::marker::Model;
use surf_tiles::{Netlist, Tile};

/// The state of a drawing whose tiles are there.
#[derive(Drop)]
pub struct Routed {
    placed: Placed,
    tiles: Vec<Tile>,
}

impl Model for Routed {
    ghost use Rattle.std.specs.Prelude.{◌≡◌};
    ghost use Rattle.surf_place.specs.Placed.{PlacedOf, placement_of, tiles_of};

    ghost Value = { PlacedOf };

    ghost view = { λ r. r.placed };

    ghost invariant = { λ r. r.tiles.items ≡ tiles_of r.placed.netlist (placement_of r.placed) };
}

impl Routed {
    pub(crate) fn of(placed: Placed, tiles: Vec<Tile>) -> Routed
        requires { tiles.items ≡ tiles_of placed.netlist (placement_of placed) }
        ensures { result ≡ placed }
    {
        Routed { placed, tiles }
    }

    fn tile(&self, column: u32, row: u32) -> Tile
        requires column { column < (placement_of self.now).columns }
        requires row { row < length (rows_of self.now.netlist) }
        ensures { result ≡ tile_of self.now.netlist (placement_of self.now) column row }
    {
        let place = row as usize * self.placed.columns() as usize + column as usize;
        self.tiles[place]
    }
}

impl Drawing<Routed> {
    /// How many columns of tiles there are.
    pub fn columns(&self) -> u32
        ensures { result ≡ (placement_of self.now).columns }
    {
        self.state.placed.columns()
    }

    /// How many rows of tiles there are.
    pub fn rows(&self) -> u32
        ensures { result ≡ length (rows_of self.now.netlist) }
    {
        self.state.placed.rows()
    }

    /// The netlist.
    pub fn netlist(&self) -> &Netlist
        ensures is { result.now ≡ self.now.netlist }
        ensures placed { IsPlaced self.now }
    {
        self.state.placed.netlist()
    }

    /// The row in which a net begins.
    pub fn source_row(&self, net: u32) -> u32
        requires { net < nets_of self.now.netlist }
        ensures { result ≡ source_row self.now.netlist net }
    {
        self.state.placed.source_row(net)
    }

    /// The last row that a net has.
    pub fn last_row(&self, net: u32) -> u32
        requires { net < nets_of self.now.netlist }
        ensures { result ≡ last_row self.now.netlist net }
    {
        self.state.placed.last_row(net)
    }

    /// The column of a net.
    pub fn column(&self, net: u32) -> u32
        requires { net < nets_of self.now.netlist }
        ensures { result ≡ (placement_of self.now).column net }
    {
        self.state.placed.column(net)
    }

    /// The tile in a column and a row.
    pub fn tile(&self, column: u32, row: u32) -> Tile
        requires column { column < (placement_of self.now).columns }
        requires row { row < length (rows_of self.now.netlist) }
        ensures { result ≡ tile_of self.now.netlist (placement_of self.now) column row }
    {
        self.state.tile(column, row)
    }

    /// The netlist, without its drawing.
    pub fn into_netlist(self) -> Netlist
        ensures { result ≡ self.netlist }
    {
        let Drawing { state } = self;
        let Routed { placed, tiles: _ } = state;
        placed.into_netlist()
    }
}
