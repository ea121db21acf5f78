//! Gates of at most two inputs, and the nets between them.
ghost use Rattle.std.specs.Prelude.{◌≡◌};
ghost use Rattle.surf_tiles.specs.Netlists.{IsNetlist};

use std::marker::Model;

/// A gate by its table, and the nets that it reads.
#[derive(Clone, Copy, Debug, PartialEq, Eq)]
pub enum Gate {
    /// This value.
    Constant(bool),
    /// `zero` where the input is false, `one` where it is true.
    One {
        zero: bool,
        one: bool,
        input: u32,
    },
    /// `t01` where the first input is false and the second true, and so on.
    Two {
        t00: bool,
        t01: bool,
        t10: bool,
        t11: bool,
        first: u32,
        second: u32,
    },
}

/// A net for each input, in order, then one for each gate. A gate uses lower nets only, and each
/// output is the number of a net.
#[derive(Drop)]
pub struct Netlist {
    pub inputs: u32,
    pub gates: Vec<Gate>,
    pub outputs: Vec<u32>,
}

impl Model for Netlist {
    ghost use Rattle.surf_tiles.specs.Netlists.{NetlistOf, IsNetlist};

    ghost Value = { NetlistOf };

    ghost view = { λ n.
        record { inputs = n.inputs; gates = n.gates.items; outputs = n.outputs.items } };

    ghost invariant = { λ n.
        IsNetlist (record {
          inputs = n.inputs;
          gates = n.gates.items;
          outputs = n.outputs.items;
        }) };
}

impl Netlist {
    /// How many inputs there are.
    pub fn inputs(&self) -> u32
        ensures is { result ≡ self.now.inputs }
        ensures netlist { IsNetlist self.now }
    {
        self.inputs
    }

    /// The gates, in the order of their nets.
    pub fn gates(&self) -> &[Gate]
        ensures is { result.now ≡ self.now.gates }
        ensures netlist { IsNetlist self.now }
    {
        &self.gates
    }

    /// The net of each output.
    pub fn outputs(&self) -> &[u32]
        ensures is { result.now ≡ self.now.outputs }
        ensures netlist { IsNetlist self.now }
    {
        &self.outputs
    }
}
