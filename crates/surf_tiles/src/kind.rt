//! Kinds of sites, their blank names, and how often a run changes them.
ghost use Rattle.std.specs.Prelude.{◌≡◌, None};
ghost use Rattle.surf_tiles.specs.Kinds.{blank, changes_of, name_of};

use crate::state::{Port, State};

/// What a site of a compiled surface is for.
#[derive(Clone, Copy, Debug, PartialEq, Eq)]
pub enum Kind {
    /// Nothing, `.`.
    Empty,
    /// An input that is not yet set, `?`.
    Input,
    /// A value, `0` or `1`.
    Value(bool),
    /// A wire, `w`.
    Wire,
    /// The first port of a two-input gate, `a`.
    A,
    /// The second port of a two-input gate, `b`.
    B,
    /// The horizontal way into a crossing, `h`.
    H,
    /// The vertical way into a crossing, `v`.
    V,
    /// The horizontal way out of a crossing, `p`.
    P,
    /// The vertical way out of a crossing, `q`.
    Q,
    /// A one-input gate: its values for input 0 and 1, as in `n10`.
    Gate1(bool, bool),
    /// A two-input gate: its values for 00, 01, 10 and 11, as in `g0001`.
    Gate2(bool, bool, bool, bool),
    /// The centre of a crossing, `c--`.
    Centre,
}

// The blank name of a kind.
fn blank_state(kind: Kind) -> State
    ensures { result ≡ blank kind }
{
    match kind {
        Kind::Empty => State::Dot,
        Kind::Input => State::Unset,
        Kind::Value(value) => State::Bit(value),
        Kind::Wire => State::BlankWire,
        Kind::A => State::Held(Port::AtA, None),
        Kind::B => State::Held(Port::AtB, None),
        Kind::H => State::Held(Port::AtH, None),
        Kind::V => State::Held(Port::AtV, None),
        Kind::P => State::BlankP,
        Kind::Q => State::BlankQ,
        Kind::Gate1(zero, one) => State::OneGate(zero, one),
        Kind::Gate2(t00, t01, t10, t11) => State::TwoGate(t00, t01, t10, t11),
        Kind::Centre => State::Crossing(None, None),
    }
}

/// The name that a site of this kind begins with. Takes no memory.
pub fn kind_name(kind: Kind) -> &'static [u8]
    ensures { result.now ≡ name_of kind }
{
    blank_state(kind).name()
}

/// How many events change a site of this kind from its start to a stuck surface. Takes no memory.
pub fn changes(kind: Kind) -> u32
    ensures { result ≡ changes_of kind }
{
    match kind {
        Kind::Empty | Kind::Input | Kind::Value(_) => 0,
        Kind::Wire | Kind::A | Kind::B | Kind::H | Kind::V | Kind::P | Kind::Q => 1,
        Kind::Gate1(_, _) => 1,
        Kind::Gate2(_, _, _, _) => 2,
        Kind::Centre => 2,
    }
}
