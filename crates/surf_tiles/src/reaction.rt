//! The reactions, by families, and the names that they ask for and make.
ghost use Rattle.std.specs.Prelude.{◌≡◌, ◌++◌, [], IfOk, OnOk, if◌then◌else◌, flat_map};
ghost use Rattle.surf_tiles.specs.Reactions.{giver, reader, outcome};

use crate::state::{Port, State};

/// A reaction of two neighbouring sites: the second reads a value of the first, which keeps its
/// name. `value` is the value that is read.
#[derive(Clone, Copy)]
pub enum Reaction {
    /// A wire reads a value.
    WireReads {
        value: bool,
    },
    /// An in port reads a value.
    PortReads {
        port: Port,
        value: bool,
    },
    /// A one-input gate reads a value and becomes its own.
    OneReads {
        zero: bool,
        one: bool,
        value: bool,
    },
    /// A centre reads into its horizontal slot.
    AcrossReads {
        down: Option<bool>,
        value: bool,
    },
    /// A centre reads into its vertical slot.
    DownReads {
        across: Option<bool>,
        value: bool,
    },
    /// The horizontal way out reads the horizontal slot.
    PReads {
        down: Option<bool>,
        value: bool,
    },
    /// The vertical way out reads the vertical slot.
    QReads {
        across: Option<bool>,
        value: bool,
    },
    /// A two-input gate reads its first port first.
    GateReadsA {
        t00: bool,
        t01: bool,
        t10: bool,
        t11: bool,
        value: bool,
    },
    /// A two-input gate reads its second port first.
    GateReadsB {
        t00: bool,
        t01: bool,
        t10: bool,
        t11: bool,
        value: bool,
    },
    /// A two-input gate that has read its second port reads the first.
    ReadsLastA {
        zero: bool,
        one: bool,
        value: bool,
    },
    /// A two-input gate that has read its first port reads the second.
    ReadsLastB {
        zero: bool,
        one: bool,
        value: bool,
    },
}

fn choose(value: bool, zero: bool, one: bool) -> bool
    ensures { result ≡ (if value then one else zero) }
{
    if value { one } else { zero }
}

impl Reaction {
    /// The name that the first site holds, and keeps.
    pub fn giver(self) -> State
        ensures { result ≡ giver self }
    {
        match self {
            Reaction::WireReads { value }
            | Reaction::PortReads { value, .. }
            | Reaction::OneReads { value, .. } => State::Bit(value),
            Reaction::AcrossReads { value, .. } => State::Held(Port::AtH, Some(value)),
            Reaction::DownReads { value, .. } => State::Held(Port::AtV, Some(value)),
            Reaction::PReads { down, value } => State::Crossing(Some(value), down),
            Reaction::QReads { across, value } => State::Crossing(across, Some(value)),
            Reaction::GateReadsA { value, .. } | Reaction::ReadsLastA { value, .. } => {
                State::Held(Port::AtA, Some(value))
            }
            Reaction::GateReadsB { value, .. } | Reaction::ReadsLastB { value, .. } => {
                State::Held(Port::AtB, Some(value))
            }
        }
    }

    /// The name that the second site holds.
    pub fn reader(self) -> State
        ensures { result ≡ reader self }
    {
        match self {
            Reaction::WireReads { .. } => State::BlankWire,
            Reaction::PortReads { port, .. } => State::Held(port, None),
            Reaction::OneReads { zero, one, .. } => State::OneGate(zero, one),
            Reaction::AcrossReads { down, .. } => State::Crossing(None, down),
            Reaction::DownReads { across, .. } => State::Crossing(across, None),
            Reaction::PReads { .. } => State::BlankP,
            Reaction::QReads { .. } => State::BlankQ,
            Reaction::GateReadsA {
                t00,
                t01,
                t10,
                t11,
                ..
            }
            | Reaction::GateReadsB {
                t00,
                t01,
                t10,
                t11,
                ..
            } => State::TwoGate(t00, t01, t10, t11),
            Reaction::ReadsLastA { zero, one, .. } => State::WaitsA(zero, one),
            Reaction::ReadsLastB { zero, one, .. } => State::WaitsB(zero, one),
        }
    }

    /// The name that the second site then has.
    pub fn outcome(self) -> State
        ensures { result ≡ outcome self }
    {
        match self {
            Reaction::WireReads { value }
            | Reaction::PReads { value, .. }
            | Reaction::QReads { value, .. } => State::Bit(value),
            Reaction::PortReads { port, value } => State::Held(port, Some(value)),
            Reaction::OneReads { zero, one, value }
            | Reaction::ReadsLastA { zero, one, value }
            | Reaction::ReadsLastB { zero, one, value } => State::Bit(choose(value, zero, one)),
            Reaction::AcrossReads { down, value } => State::Crossing(Some(value), down),
            Reaction::DownReads { across, value } => State::Crossing(across, Some(value)),
            Reaction::GateReadsA {
                t00,
                t01,
                t10,
                t11,
                value,
            } => State::WaitsB(choose(value, t00, t10), choose(value, t01, t11)),
            Reaction::GateReadsB {
                t00,
                t01,
                t10,
                t11,
                value,
            } => State::WaitsA(choose(value, t00, t01), choose(value, t10, t11)),
        }
    }
}
