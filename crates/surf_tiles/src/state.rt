//! The names that sites can hold, and their texts.
ghost use Rattle.std.specs.Prelude.{◌≡◌, [], ◌∷◌, ◌++◌};
ghost use Rattle.surf_tiles.specs.States.{digit, mark, letter, filling, spell};

/// The in ports: first and second of a gate, horizontal and vertical of a crossing.
#[derive(Clone, Copy)]
pub enum Port {
    AtA,
    AtB,
    AtH,
    AtV,
}

/// A name on a site. The booleans of gates are their values, in the order of their inputs' values.
#[derive(Clone, Copy)]
pub enum State {
    /// Nothing.
    Dot,
    /// An input that is not yet set.
    Unset,
    /// A value.
    Bit(bool),
    BlankWire,
    /// An in port, blank or with its value.
    Held(Port, Option<bool>),
    BlankP,
    BlankQ,
    OneGate(bool, bool),
    TwoGate(bool, bool, bool, bool),
    /// A two-input gate that has read its second port and waits for the first.
    WaitsA(bool, bool),
    /// A two-input gate that has read its first port and waits for the second.
    WaitsB(bool, bool),
    /// The centre of a crossing: its horizontal and its vertical slot.
    Crossing(Option<bool>, Option<bool>),
}

impl State {
    /// The text of the name.
    pub fn name(self) -> &'static [u8]
        ensures { result.now ≡ spell self }
    {
        match self {
            State::Dot => b".",
            State::Unset => b"?",
            State::Bit(value) => bit_name(value),
            State::BlankWire => b"w",
            State::Held(port, None) => port_name(port),
            State::Held(port, Some(value)) => held_name(port, value),
            State::BlankP => b"p",
            State::BlankQ => b"q",
            State::OneGate(zero, one) => one_gate_name(zero, one),
            State::TwoGate(t00, t01, t10, t11) => two_gate_name(t00, t01, t10, t11),
            State::WaitsA(zero, one) => waits_a_name(zero, one),
            State::WaitsB(zero, one) => waits_b_name(zero, one),
            State::Crossing(across, down) => crossing_name(across, down),
        }
    }
}

fn bit_name(value: bool) -> &'static [u8]
    ensures { result.now ≡ digit value ∷ [] }
{
    match value {
        false => b"0",
        true => b"1",
    }
}

fn port_name(port: Port) -> &'static [u8]
    ensures { result.now ≡ letter port ∷ [] }
{
    match port {
        Port::AtA => b"a",
        Port::AtB => b"b",
        Port::AtH => b"h",
        Port::AtV => b"v",
    }
}

fn held_name(port: Port, value: bool) -> &'static [u8]
    ensures { result.now ≡ letter port ∷ digit value ∷ [] }
{
    match (port, value) {
        (Port::AtA, false) => b"a0",
        (Port::AtA, true) => b"a1",
        (Port::AtB, false) => b"b0",
        (Port::AtB, true) => b"b1",
        (Port::AtH, false) => b"h0",
        (Port::AtH, true) => b"h1",
        (Port::AtV, false) => b"v0",
        (Port::AtV, true) => b"v1",
    }
}

fn one_gate_name(zero: bool, one: bool) -> &'static [u8]
    ensures { result.now ≡ 110 ∷ digit zero ∷ digit one ∷ [] }
{
    match (zero, one) {
        (false, false) => b"n00",
        (false, true) => b"n01",
        (true, false) => b"n10",
        (true, true) => b"n11",
    }
}

fn two_gate_name(t00: bool, t01: bool, t10: bool, t11: bool) -> &'static [u8]
    ensures { result.now ≡ 103 ∷ digit t00 ∷ digit t01 ∷ digit t10 ∷ digit t11 ∷ [] }
{
    match (t00, t01, t10, t11) {
        (false, false, false, false) => b"g0000",
        (false, false, false, true) => b"g0001",
        (false, false, true, false) => b"g0010",
        (false, false, true, true) => b"g0011",
        (false, true, false, false) => b"g0100",
        (false, true, false, true) => b"g0101",
        (false, true, true, false) => b"g0110",
        (false, true, true, true) => b"g0111",
        (true, false, false, false) => b"g1000",
        (true, false, false, true) => b"g1001",
        (true, false, true, false) => b"g1010",
        (true, false, true, true) => b"g1011",
        (true, true, false, false) => b"g1100",
        (true, true, false, true) => b"g1101",
        (true, true, true, false) => b"g1110",
        (true, true, true, true) => b"g1111",
    }
}

fn waits_a_name(zero: bool, one: bool) -> &'static [u8]
    ensures { result.now ≡ 116 ∷ 97 ∷ digit zero ∷ digit one ∷ [] }
{
    match (zero, one) {
        (false, false) => b"ta00",
        (false, true) => b"ta01",
        (true, false) => b"ta10",
        (true, true) => b"ta11",
    }
}

fn waits_b_name(zero: bool, one: bool) -> &'static [u8]
    ensures { result.now ≡ 116 ∷ 98 ∷ digit zero ∷ digit one ∷ [] }
{
    match (zero, one) {
        (false, false) => b"tb00",
        (false, true) => b"tb01",
        (true, false) => b"tb10",
        (true, true) => b"tb11",
    }
}

fn crossing_name(across: Option<bool>, down: Option<bool>) -> &'static [u8]
    ensures { result.now ≡ 99 ∷ mark across ∷ mark down ∷ [] }
{
    match (across, down) {
        (None, None) => b"c--",
        (None, Some(false)) => b"c-0",
        (None, Some(true)) => b"c-1",
        (Some(false), None) => b"c0-",
        (Some(false), Some(false)) => b"c00",
        (Some(false), Some(true)) => b"c01",
        (Some(true), None) => b"c1-",
        (Some(true), Some(false)) => b"c10",
        (Some(true), Some(true)) => b"c11",
    }
}
