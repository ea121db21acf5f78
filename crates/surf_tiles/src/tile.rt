//! Tiles of three by three sites.
ghost use Rattle.std.specs.Prelude.{◌≡◌, cond};
ghost use Rattle.surf_tiles.specs.Tiles.{sites_of};

use crate::kind::Kind;

/// The sides on which a wire tile has a port.
#[derive(Clone, Copy, Debug, PartialEq, Eq)]
pub struct Ports {
    pub north: bool,
    pub east: bool,
    pub south: bool,
    pub west: bool,
}

/// Which way the horizontal value of a crossing goes. The vertical one goes south.
#[derive(Clone, Copy, Debug, PartialEq, Eq)]
pub enum Heading {
    East,
    West,
}

/// What stands on three by three sites. A port is the middle site of a side.
#[derive(Clone, Copy, Debug, PartialEq, Eq)]
pub enum Tile {
    Empty,
    /// Joins its ports: a value comes in by one and goes out by the others.
    Wire(Ports),
    /// An input of the circuit, which goes out to the east.
    Input,
    /// A value, which goes out to the east.
    Constant(bool),
    /// A one-input gate: in from the north, out to the east.
    Gate1(bool, bool),
    /// A two-input gate: in from the north (first) and the east (second), out to the south.
    Gate2(bool, bool, bool, bool),
    /// Two values that cross.
    Cross(Heading),
    /// An output of the circuit, from the north. `Output(true)` passes its value on to the south.
    Output(bool),
}

fn wire_if(there: bool) -> Kind
    ensures { result ≡ cond there Kind.Wire Kind.Empty }
{
    if there { Kind::Wire } else { Kind::Empty }
}

/// The kinds of a tile's sites, rows first: `sites(tile)[1][1]` is its centre. Takes no memory.
pub fn sites(tile: Tile) -> [[Kind; 3]; 3]
    ensures { result ≡ sites_of tile }
{
    let none = Kind::Empty;
    let wire = Kind::Wire;
    let (north, west, centre, east, south) = match tile {
        Tile::Empty => (none, none, none, none, none),
        Tile::Wire(ports) => (
            wire_if(ports.north),
            wire_if(ports.west),
            wire,
            wire_if(ports.east),
            wire_if(ports.south),
        ),
        Tile::Input => (none, none, Kind::Input, wire, none),
        Tile::Constant(value) => (none, none, Kind::Value(value), wire, none),
        Tile::Gate1(zero, one) => (wire, none, Kind::Gate1(zero, one), wire, none),
        Tile::Gate2(t00, t01, t10, t11) => {
            (
                Kind::A,
                none,
                Kind::Gate2(t00, t01, t10, t11),
                Kind::B,
                wire,
            )
        }
        Tile::Cross(Heading::East) => (Kind::V, Kind::H, Kind::Centre, Kind::P, Kind::Q),
        Tile::Cross(Heading::West) => (Kind::V, Kind::P, Kind::Centre, Kind::H, Kind::Q),
        Tile::Output(on) => (wire, none, wire, none, wire_if(on)),
    };
    [
        [none, north, none],
        [west, centre, east],
        [none, south, none],
    ]
}
