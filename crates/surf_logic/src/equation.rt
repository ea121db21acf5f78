// Equations: an output and the cover that says when it is true.
ghost use Rattle.std.specs.Prelude.{◌≡◌, ◌^◌, ◌-◌, min};
ghost use Rattle.surf_logic.specs.Equations.{cost_of};

use crate::costs::of_parts;
use std::marker::Model;
use surf_rules::Names;

/// What a row asks of one input.
#[derive(Clone, Copy, Debug, PartialEq, Eq)]
pub enum Literal {
    /// That it is false.
    Zero,
    /// That it is true.
    One,
    /// Nothing.
    Any,
}

/// One row of a cover: a literal for each input. It matches where each literal fits its input.
#[derive(Drop)]
pub struct Row {
    pub literals: Vec<Literal>,
}

impl Model for Row {
    ghost use Rattle.std.specs.Prelude.{List};
    ghost use Rattle.surf_logic.specs.declared.equation.Literal.{Literal};

    ghost Value = { List Literal };

    ghost view = { λ r. r.literals.items };
}

impl Row {
    /// What the row asks of each input.
    pub fn literals(&self) -> &[Literal]
        ensures { result.now ≡ self.now }
    {
        &self.literals
    }
}

/// A signal by its inputs, as places in a list of names. The output has the value `polarity`
/// exactly where some row matches; without rows it is false.
#[derive(Drop)]
pub struct Equation {
    pub output: u32,
    pub inputs: Vec<u32>,
    pub rows: Vec<Row>,
    pub polarity: bool,
}

impl Model for Equation {
    ghost use Rattle.std.specs.Prelude.{ℕ};
    ghost use Rattle.surf_logic.specs.Equations.{EquationOf};

    ghost Value = { EquationOf ℕ };

    ghost view = { λ q.
        record {
          output = q.output;
          inputs = q.inputs.items;
          rows = q.rows.items;
          polarity = q.polarity;
        } };
}

impl Equation {
    /// The name that the equation gives.
    pub fn output(&self) -> u32
        ensures { result ≡ self.now.output }
    {
        self.output
    }

    /// The names that the equation reads.
    pub fn inputs(&self) -> &[u32]
        ensures { result.now ≡ self.now.inputs }
    {
        &self.inputs
    }

    /// The rows of the cover.
    pub fn rows(&self) -> &[Row]
        ensures { result.now ≡ self.now.rows }
    {
        &self.rows
    }

    /// The output's value where some row matches.
    pub fn polarity(&self) -> bool
        ensures { result ≡ self.now.polarity }
    {
        self.polarity
    }
}

/// What a circuit is made of, in any order. Numbers are places in `names`.
#[derive(Drop)]
pub struct Parts {
    pub names: Names,
    pub inputs: Vec<u32>,
    pub outputs: Vec<u32>,
    pub equations: Vec<Equation>,
}

impl Model for Parts {
    ghost use Rattle.surf_logic.specs.Equations.{Numbered};

    ghost Value = { Numbered };

    ghost view = { λ p.
        record {
          names = p.names;
          parts = record {
            inputs = p.inputs.items;
            outputs = p.outputs.items;
            equations = p.equations.items;
          };
        } };
}

impl Parts {
    /// The texts of the names.
    pub fn names(&self) -> &Names
        ensures { result.now ≡ self.now.names }
    {
        &self.names
    }

    /// The names of the inputs.
    pub fn inputs(&self) -> &[u32]
        ensures { result.now ≡ self.now.parts.inputs }
    {
        &self.inputs
    }

    /// The names of the outputs.
    pub fn outputs(&self) -> &[u32]
        ensures { result.now ≡ self.now.parts.outputs }
    {
        &self.outputs
    }

    /// The equations.
    pub fn equations(&self) -> &[Equation]
        ensures { result.now ≡ self.now.parts.equations }
    {
        &self.equations
    }

    /// 1 for each input, output, equation and row, and 1 for each literal of a row that asks
    /// something; the greatest u128 where that is less. Takes no memory.
    pub fn cost(&self) -> u128
        ensures { result ≡ min (cost_of self.now.parts) (2 ^ 128 - 1) }
    {
        of_parts(self)
    }
}
