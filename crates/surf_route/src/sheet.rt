//! A sheet of tiles that is drawn row by row.
ghost use Rattle.std.specs.Prelude.{◌≡◌, ◌+◌, ◌<◌, ◌^◌, ◌++◌, ◌∷◌, [], false, IfOk, OnOk, length};
ghost use Rattle.surf_place.specs.Placed.{IsPlaced};
ghost use Rattle.surf_route.specs.Routing.{IsNext, IsSheet, line_tiles};

use crate::line::Line;
use std::alloc::Global;
use surf_base::NoMemory;
use surf_place::{Drawing, Placed};
use surf_tiles::Tile;

/// The tiles of the rows above `row`, and for each column whether a net comes into that row.
#[derive(Drop)]
pub struct Sheet {
    pub table: Vec<bool>,
    pub tiles: Vec<Tile>,
    pub row: u32,
}

impl Sheet {
    /// An empty sheet for a drawing.
    pub fn new(alloc: Global, drawing: &Drawing<Placed>) -> Result<Sheet, NoMemory>
        requires { IsPlaced drawing.now }
        ensures sheet { IfOk result (IsSheet drawing.now) }
        ensures row { IfOk result (λ s. s.row ≡ 0) }
    {
        let columns = drawing.columns() as usize;
        let table = vec![in alloc; false; columns].map_err(|_| NoMemory)?;
        let count = columns * drawing.rows() as usize;
        let tiles = Vec::with_capacity(alloc, count).map_err(|_| NoMemory)?;
        Ok(Sheet {
            table,
            tiles,
            row: 0,
        })
    }

    /// Draws the next row.
    pub fn put(&mut self, drawing: &Drawing<Placed>, line: Line) -> Result<(), NoMemory>
        requires sheet { IsSheet drawing.now self.old }
        requires line { IsNext drawing.now.netlist self.old.row line }
        ensures sheet { OnOk result (IsSheet drawing.now self.new) }
        ensures row { OnOk result (self.new.row ≡ self.old.row + 1) }
    {
        let net = line.net();
        let lane = drawing.column(net);
        let below = self.row < drawing.last_row(net);
        put_tiles(&mut self.tiles, &self.table, line, lane, below)?;
        self.table[lane as usize] = below;
        self.row += 1;
        Ok(())
    }
}

// The tiles of a row, where `table` says in which columns a net comes from above.
fn put_tiles(
    tiles: &mut Vec<Tile>,
    table: &[bool],
    line: Line,
    lane: u32,
    below: bool,
) -> Result<(), NoMemory>
    requires { length table.now < 2 ^ 32 }
    ensures { let more = line_tiles line lane table.now below (length table.now) in
        OnOk result (tiles.new.items ≡ tiles.old.items ++ more) }
{
    for (column, passed) in table.iter().enumerate() {
        put_tile(tiles, line.tile(column as u32, lane, *passed, below))?;
    }
    Ok(())
}

fn put_tile(tiles: &mut Vec<Tile>, tile: Tile) -> Result<(), NoMemory>
    ensures { OnOk result (tiles.new.items ≡ tiles.old.items ++ tile ∷ []) }
{
    tiles.push(tile).map_err(|_| NoMemory)
}
