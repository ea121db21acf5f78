// Legends of compiled surfaces.
use std::marker::Model;
use surf_base::Text;
use surf_lattice::Site;

/// A named site.
#[derive(Debug, Drop)]
pub struct Place {
    pub name: Text,
    pub site: Site,
}

/// The places of inputs and outputs, and the number of events of a whole run.
#[derive(Debug, Drop)]
pub struct Legend {
    pub inputs: Vec<Place>,
    pub outputs: Vec<Place>,
    pub events: u64,
}

impl Model for Legend {
    ghost use Rattle.surf_manifest_print.specs.Legends.{LegendText};

    ghost Value = { LegendText };

    ghost view = { λ l. record { inputs = l.inputs.items; outputs = l.outputs.items; events = l.events } };
}
