//! What a row of tiles is for, and its tile in each column.
ghost use Rattle.std.specs.Prelude.{◌≡◌, cond, true, false};
ghost use Rattle.surf_tiles.specs.Tiles.{wires};
ghost use Rattle.surf_place.specs.Drawing.{Device, Left, Own, Right, net_of, place_in};
ghost use Rattle.surf_route.specs.Routing.{line_tile, row_by};

use surf_tiles::{Heading, Ports, Tile};

/// A row of tiles: it begins a net, brings one to a gate, or ends at an output. `device` stands in
/// column 0.
#[derive(Clone, Copy)]
pub enum Line {
    Source { net: u32, device: Tile },
    Tap { net: u32, device: Tile },
    End { net: u32 },
}

/// A wire tile with these ports.
pub fn wire(north: bool, east: bool, south: bool, west: bool) -> Tile
    ensures { result ≡ wires north east south west }
{
    Tile::Wire(Ports {
        north,
        east,
        south,
        west,
    })
}

impl Line {
    /// The net of the row.
    pub fn net(self) -> u32
        ensures { result ≡ net_of (row_by self) }
    {
        match self {
            Line::Source { net, .. } | Line::Tap { net, .. } | Line::End { net } => net,
        }
    }

    fn device(self) -> Tile
        ensures { result ≡ line_tile self Device false false }
    {
        match self {
            Line::Source { device, .. } | Line::Tap { device, .. } => device,
            Line::End { .. } => Tile::Empty,
        }
    }

    // The tile between column 0 and the row's own lane.
    fn left(self, passed: bool) -> Tile
        ensures { result ≡ line_tile self Left passed false }
    {
        match self {
            Line::Source { .. } if passed => Tile::Cross(Heading::East),
            Line::Tap { .. } if passed => Tile::Cross(Heading::West),
            Line::Source { .. } | Line::Tap { .. } => wire(false, true, false, true),
            Line::End { .. } => passing(passed),
        }
    }

    // The tile in the row's own lane.
    fn own(self, below: bool) -> Tile
        ensures { result ≡ line_tile self Own false below }
    {
        match self {
            Line::Source { .. } => wire(false, false, below, true),
            Line::Tap { .. } => wire(true, false, below, true),
            Line::End { .. } => Tile::Output(below),
        }
    }

    /// The tile in a column. `passed` says that another net comes from above there, and `below`
    /// that the row's own net goes on below.
    pub fn tile(self, column: u32, lane: u32, passed: bool, below: bool) -> Tile
        ensures { result ≡ line_tile self (place_in column lane) passed below }
    {
        if column == 0 {
            self.device()
        } else if column < lane {
            self.left(passed)
        } else if column == lane {
            self.own(below)
        } else {
            passing(passed)
        }
    }
}

// The tile of a column that the row leaves alone.
fn passing(passed: bool) -> Tile
    ensures { result ≡ cond passed (wires true false true false) Tile.Empty }
{
    if passed {
        wire(true, false, true, false)
    } else {
        Tile::Empty
    }
}
