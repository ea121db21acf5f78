//! A drawing, whatever its state.
ghost use Rattle.std.specs.Prelude.{◌≡◌};

use std::marker::Model;

/// A netlist on its way to a surface: `Sketched`, `Placed` or `Routed`.
#[derive(Drop)]
pub struct Drawing<S> {
    pub(crate) state: S,
}

impl<S> Model for Drawing<S> {
    ghost Value = { S };

    ghost view = { λ d. d.state };
}
