// Models that place each other.
ghost use Rattle.std.specs.Prelude.{◌≡◌};

use surf_base::Text;
use surf_logic::Row;

/// A formal signal of the placed model, and the signal of the placing one that stands for it.
#[derive(Drop)]
pub struct Bind {
    pub formal: Text,
    pub actual: Text,
}

/// A line that places a model.
#[derive(Drop)]
pub struct Placing {
    pub line: u64,
    pub model: Text,
    pub binds: Vec<Bind>,
}

impl std::marker::Model for Placing {
    ghost use Rattle.surf_flatten.specs.Placements.{Placement};

    ghost Value = { Placement };

    ghost view = { λ p. record { line = p.line; model = p.model; binds = p.binds.items } };
}

impl Placing {
    /// The name of the model that the line places.
    pub fn model(&self) -> &[u8]
        ensures { result.now ≡ self.now.model }
    {
        self.model.bytes()
    }

    /// What the line binds.
    pub fn binds(&self) -> &[Bind]
        ensures { result.now ≡ self.now.binds }
    {
        &self.binds
    }
}

/// A signal by others, the last of which it is.
#[derive(Drop)]
pub struct Cover {
    pub signals: Vec<Text>,
    pub rows: Vec<Row>,
    pub polarity: bool,
}

impl std::marker::Model for Cover {
    ghost use Rattle.std.specs.Prelude.{ℕ, List, ◌<◌, length};
    ghost use Rattle.surf_logic.specs.Equations.{EquationOf};
    ghost use Rattle.surf_flatten.specs.Covers.{cover_of};

    ghost Value = { EquationOf (List ℕ) };

    ghost view = { λ c. cover_of c.signals.items c.rows.items c.polarity };

    ghost invariant = { λ c. 0 < length c.signals.items };
}

impl Cover {
    /// The signal that the cover gives.
    pub fn output(&self) -> &[u8]
        ensures { result.now ≡ self.now.output }
    {
        self.signals[self.signals.len() - 1].bytes()
    }

    /// The signals that it reads.
    pub fn inputs(&self) -> &[Text]
        ensures { result.now ≡ self.now.inputs }
    {
        &self.signals[..self.signals.len() - 1]
    }

    /// Its rows.
    pub fn rows(&self) -> &[Row]
        ensures { result.now ≡ self.now.rows }
    {
        &self.rows
    }

    /// The signal's value where some row matches.
    pub fn polarity(&self) -> bool
        ensures { result ≡ self.now.polarity }
    {
        self.polarity
    }
}

/// What a model is made of.
#[derive(Drop)]
pub enum Item {
    Cover(Cover),
    Place(Placing),
}

/// A model: where it begins, its name, its signals to the outside and its items in order.
#[derive(Drop)]
pub struct Model {
    pub line: u64,
    pub name: Option<Text>,
    pub inputs: Vec<Text>,
    pub outputs: Vec<Text>,
    pub items: Vec<Item>,
}

impl std::marker::Model for Model {
    ghost use Rattle.surf_flatten.specs.Designs.{Design};

    ghost Value = { Design };

    ghost view = { λ m.
        record {
          line = m.line;
          name = m.name;
          inputs = m.inputs.items;
          outputs = m.outputs.items;
          items = m.items.items;
        } };
}

impl Model {
    /// The inputs, which a line that places the model has to bind.
    pub fn inputs(&self) -> &[Text]
        ensures { result.now ≡ self.now.inputs }
    {
        &self.inputs
    }

    /// The outputs.
    pub fn outputs(&self) -> &[Text]
        ensures { result.now ≡ self.now.outputs }
    {
        &self.outputs
    }

    /// The items in order.
    pub fn items(&self) -> &[Item]
        ensures { result.now ≡ self.now.items }
    {
        &self.items
    }
}
