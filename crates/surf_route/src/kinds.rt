//! The kinds of the sites of a drawing.
ghost use Rattle.std.specs.Prelude.{◌≡◌, ◌+◌, ◌*◌, ◌<◌, ◌++◌, ◌∷◌, [], IfOk, OnOk, get_or, length, true};
ghost use Rattle.surf_place.specs.Drawing.{rows_of};
ghost use Rattle.surf_place.specs.Placed.{IsPlaced, placement_of};
ghost use Rattle.surf_route.specs.Sealed.{sealed_of};
ghost use Rattle.surf_tiles.specs.Tiles.{sites_of};
ghost use Rattle.surf_route.specs.Sealing.{AreKinds, line_start};

use std::alloc::Global;
use surf_base::NoMemory;
use surf_place::{Drawing, Routed};
use surf_settle::KindByte;
use surf_tiles::{Heading, Kind, Ports, Tile, sites};

/// The kinds of all sites, in row-major order. They stand once in memory.
pub fn all_kinds(alloc: Global, drawing: &Drawing<Routed>) -> Result<Vec<KindByte>, NoMemory>
    requires { IsPlaced drawing.now }
    ensures { IfOk result (λ kinds. kinds.items ≡ (sealed_of drawing.now).kinds) }
{
    let count = 9 * drawing.columns() as usize * drawing.rows() as usize;
    let mut kinds = with_room(alloc, count)?;
    for row in 0..drawing.rows() {
        put_tiles(&mut kinds, drawing, row)?;
    }
    Ok(kinds)
}

fn with_room(alloc: Global, count: usize) -> Result<Vec<KindByte>, NoMemory>
    ensures { IfOk result (λ kinds. kinds.items ≡ []) }
{
    Vec::with_capacity(alloc, count).map_err(|_| NoMemory)
}

// The sites of a row of tiles.
fn put_tiles(kinds: &mut Vec<KindByte>, drawing: &Drawing<Routed>, row: u32) -> Result<(), NoMemory>
    requires so_far { AreKinds drawing.now (line_start drawing.now row 0) kinds.old.items }
    requires within { row < length (rows_of drawing.now.netlist) }
    ensures { let end = line_start drawing.now (row + 1) 0 in
        OnOk result (AreKinds drawing.now end kinds.new.items) }
{
    for y in 0..3 {
        put_line(kinds, drawing, row, y)?;
    }
    Ok(())
}

fn are_same(p: Ports, q: Ports) -> bool
    ensures { result ≡ true → p ≡ q }
{
    p.north == q.north && p.east == q.east && p.south == q.south && p.west == q.west
}

// Whether two tiles are surely one. Wires and crossings often stand side by side, others seldom.
fn is_same(a: Tile, b: Tile) -> bool
    ensures { result ≡ true → a ≡ b }
{
    match (a, b) {
        (Tile::Empty, Tile::Empty) => true,
        (Tile::Wire(p), Tile::Wire(q)) => are_same(p, q),
        (Tile::Cross(Heading::East), Tile::Cross(Heading::East)) => true,
        (Tile::Cross(Heading::West), Tile::Cross(Heading::West)) => true,
        _ => false,
    }
}

// Kinds as bytes.
fn bytes_of(kinds: [Kind; 3]) -> [KindByte; 3]
    ensures { result ≡ kinds }
{
    let [first, second, third] = kinds;
    [
        KindByte::new(first),
        KindByte::new(second),
        KindByte::new(third),
    ]
}

// One of the three rows of sites of a tile.
fn sites_in(tile: Tile, y: u32) -> [KindByte; 3]
    requires { y < 3 }
    ensures { result ≡ get_or (sites_of tile) y [] }
{
    bytes_of(sites(tile)[y as usize])
}

// One of the three rows of sites of a row of tiles.
fn put_line(
    kinds: &mut Vec<KindByte>,
    drawing: &Drawing<Routed>,
    row: u32,
    y: u32,
) -> Result<(), NoMemory>
    requires so_far { AreKinds drawing.now (line_start drawing.now row y) kinds.old.items }
    requires within { row < length (rows_of drawing.now.netlist) }
    requires third { y < 3 }
    ensures { let end = line_start drawing.now row (y + 1) in
        OnOk result (AreKinds drawing.now end kinds.new.items) }
{
    let mut tile = Tile::Empty;
    let mut line = sites_in(tile, y);
    for column in 0..drawing.columns() {
        let next = drawing.tile(column, row);
        if !is_same(next, tile) {
            tile = next;
            line = sites_in(tile, y);
        }
        put_sites(kinds, &line)?;
    }
    Ok(())
}

fn put_sites(kinds: &mut Vec<KindByte>, sites: &[KindByte]) -> Result<(), NoMemory>
    ensures { OnOk result (kinds.new.items ≡ kinds.old.items ++ sites.now) }
{
    for site in sites {
        kinds.push(site.copy()).map_err(|_| NoMemory)?;
    }
    Ok(())
}
