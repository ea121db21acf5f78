// Laws of surfaces, each the contract of a function that does nothing.
ghost use Rattle.surf_circuit.specs.Compiled.{SurfaceIsOne};
ghost use Rattle.surf_circuit.specs.Surfaces.{CircuitsAreSet, LayoutsCompute, SetsKeepForm};

/// The surface of every layout that settles, of a netlist whose outputs evaluate as the circuit's,
/// computes the circuit.
pub fn layouts_compute()
    ensures { LayoutsCompute }
{}

/// The inputs of a surface of a circuit can be set, to as many bits as there are inputs.
pub fn circuits_are_set()
    ensures { CircuitsAreSet }
{}

/// A manifest whose inputs are set is well formed, so it is printed and read back.
pub fn sets_keep_form()
    ensures { SetsKeepForm }
{}

/// A circuit has one surface and one legend.
pub fn surface_is_one()
    ensures { SurfaceIsOne }
{}
