// Circuits: equations in an order in which they can be solved.
ghost use Rattle.std.specs.Prelude.{◌≡◌, ◌+◌, ◌<◌, ◌^◌, min, ◌-◌, length};
ghost use Rattle.surf_logic.specs.Equations.{cost_of};
ghost use Rattle.surf_logic.specs.Order.{IsCircuit};

use crate::equation::{Equation, Parts};
use std::marker::Model;
use surf_rules::Names;

/// Parts without a fault, in which each equation uses inputs and earlier outputs only.
#[derive(Drop)]
pub struct Circuit {
    parts: Parts,
}

impl Model for Circuit {
    ghost use Rattle.surf_logic.specs.Equations.{Numbered};
    ghost use Rattle.surf_logic.specs.Order.{IsCircuit};

    ghost Value = { Numbered };

    ghost view = { λ c. c.parts };

    ghost invariant = { λ c. IsCircuit c.parts };
}

impl Circuit {
    // Parts that are a circuit.
    pub(crate) fn of(parts: Parts) -> Circuit
        requires { IsCircuit parts }
        ensures { result ≡ parts }
    {
        Circuit { parts }
    }

    /// The texts of the names.
    pub fn names(&self) -> &Names
        ensures { result.now ≡ self.now.names }
    {
        &self.parts.names
    }

    /// The names of the inputs.
    pub fn inputs(&self) -> &[u32]
        ensures is { result.now ≡ self.now.parts.inputs }
        ensures circuit { IsCircuit self.now }
    {
        &self.parts.inputs
    }

    /// The names of the outputs.
    pub fn outputs(&self) -> &[u32]
        ensures { result.now ≡ self.now.parts.outputs }
    {
        &self.parts.outputs
    }

    /// The equations in order.
    pub fn equations(&self) -> &[Equation]
        ensures is { result.now ≡ self.now.parts.equations }
        ensures circuit { IsCircuit self.now }
    {
        &self.parts.equations
    }

    /// 1 for each input, output, equation and row, and 1 for each literal of a row that asks
    /// something; the greatest u128 where that is less. Takes no memory.
    pub fn cost(&self) -> u128
        ensures { result ≡ min (cost_of self.now.parts) (2 ^ 128 - 1) }
    {
        self.parts.cost()
    }
}
