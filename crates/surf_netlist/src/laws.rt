//! What holds of the gates of every equation.
ghost use Rattle.surf_netlist.specs.Circuits.{EquationsMakeGates};

/// An equation without rows, or with a row that asks nothing, makes one gate; any other makes one
/// less than its rows have literals that ask something, and at least one.
pub fn gate_laws()
    ensures { EquationsMakeGates }
{}
