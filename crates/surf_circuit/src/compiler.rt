// A circuit as a manifest and a legend.
ghost use Rattle.std.specs.Prelude.{◌<◌, ◌≡◌, ◌≤◌, IfOk, List, Some, length, ℕ};
ghost use Rattle.surf_circuit.specs.Circuits.{CircuitHolds};
ghost use Rattle.surf_circuit.specs.Compiled.{IsDrawn, IsPrinted, IsSurfaceOf};
ghost use Rattle.surf_circuit.specs.Numbering.{AreStateNames};
ghost use Rattle.surf_circuit.specs.Surfaces.{AreWords, Decomposes, IsSpelled};
ghost use Rattle.surf_manifest_print.specs.Legends.{IsLegend};
ghost use Rattle.surf_logic.specs.Equations.{PartsOf, cost_of};
ghost use Rattle.surf_netlist.specs.Circuits.{gates_of};
ghost use Rattle.surf_place.specs.Drawing.{rows_of};
ghost use Rattle.surf_place.specs.Placed.{placement_of};
ghost use Rattle.surf_route.specs.Sealed.{sealed};
ghost use Rattle.surf_tiles.specs.Netlists.{nets_of};

use crate::legend::legend_of;
use crate::surface::manifest_of;
use crate::text::print_layout;
use std::alloc::Global;
use surf_base::NoMemory;
use surf_logic::Circuit;
use surf_manifest::Manifest;
use surf_manifest_print::Legend;
use surf_netlist::decompose;
use surf_place::{Drawing, Placed};
use surf_route::{Route, Seal};
use surf_settle::Layout;
use surf_tiles::Netlist;

// The layout of a netlist whose nets have their columns.
fn seal(alloc: Global, placed: Drawing<Placed>) -> Result<Layout, NoMemory>
    ensures { IfOk result (λ l. l ≡ sealed placed.netlist (placement_of placed)) }
{
    let routed = placed.route(alloc).map_err(|_| NoMemory)?;
    routed.seal(alloc).map_err(|_| NoMemory)
}

// The layout of a netlist.
fn draw(alloc: Global, netlist: Netlist) -> Result<Layout, NoMemory>
    requires nets { nets_of netlist ≤ 1000 }
    requires outputs { 0 < length netlist.outputs }
    requires rows { length (rows_of netlist) ≤ 3000 }
    ensures { IfOk result (IsDrawn netlist) }
{
    match Drawing::new(netlist).place(alloc) {
        Ok(placed) => seal(alloc, placed),
        Err(_) => Err(NoMemory),
    }
}

// The layout of a circuit's netlist.
fn layout_of(alloc: Global, circuit: &Circuit) -> Result<Layout, NoMemory>
    requires { cost_of circuit.now.parts ≤ 1000 }
    ensures drawn { IfOk result (IsDrawn (gates_of circuit.now.parts)) }
    ensures values { IfOk result (λ l. Decomposes l.netlist circuit.now) }
{
    // the circuit tells that it is one, and so has an output
    let _inputs = circuit.inputs();
    let netlist = decompose(alloc, circuit)?;
    draw(alloc, netlist)
}

// The surface of a layout of a circuit's netlist, and its legend.
fn on_surface(
    alloc: Global,
    circuit: &Circuit,
    layout: &Layout,
) -> Result<(Manifest, Legend), NoMemory>
    requires drawn { IsDrawn (gates_of circuit.now.parts) layout.now }
    requires values { Decomposes layout.now.netlist circuit.now }
    ensures surface { IfOk result (λ r. IsSurfaceOf circuit.now r.0.text r.1) }
    ensures holds { IfOk result (λ r. (B : PartsOf (List ℕ)) → IsSpelled B circuit.now
        → CircuitHolds B r.0.text.system r.1) }
    ensures form { IfOk result (λ r. (B : PartsOf (List ℕ)) → IsSpelled B circuit.now → AreWords B
        → IsLegend (Some r.1)) }
    ensures names { IfOk result (λ r. AreStateNames r.0.names) }
{
    let manifest = manifest_of(alloc, layout)?;
    let legend = legend_of(alloc, circuit, layout)?;
    Ok((manifest, legend))
}

// The text of the surface of a layout of a circuit's netlist.
fn printed(alloc: Global, circuit: &Circuit, layout: &Layout) -> Result<Vec<u8>, NoMemory>
    requires drawn { IsDrawn (gates_of circuit.now.parts) layout.now }
    requires values { Decomposes layout.now.netlist circuit.now }
    ensures { IfOk result (λ v. IsPrinted circuit.now v.items) }
{
    let legend = legend_of(alloc, circuit, layout)?;
    print_layout(alloc, layout, &legend)
}

/// The text of the surface of a circuit, with its legend: what `print_manifest` gives of what
/// `compile` answers, with no list of the sites' numbers in memory.
pub fn compile_text(alloc: Global, circuit: &Circuit) -> Result<Vec<u8>, NoMemory>
    requires { cost_of circuit.now.parts ≤ 1000 }
    ensures { IfOk result (λ v. IsPrinted circuit.now v.items) }
{
    let layout = layout_of(alloc, circuit)?;
    printed(alloc, circuit, &layout)
}

/// The surface of a circuit as a manifest, and its legend.
///
/// The cost of the circuit is at most 1,000. The surface has all rules of circuits, and is set to
/// bits by `set_inputs`. In every run it shows at its outputs what the circuit evaluates to. The
/// manifest has the names of the 56 states, `0` and `1` among them.
pub fn compile(alloc: Global, circuit: &Circuit) -> Result<(Manifest, Legend), NoMemory>
    requires { cost_of circuit.now.parts ≤ 1000 }
    ensures surface { IfOk result (λ r. IsSurfaceOf circuit.now r.0.text r.1) }
    ensures holds { IfOk result (λ r. (B : PartsOf (List ℕ)) → IsSpelled B circuit.now
        → CircuitHolds B r.0.text.system r.1) }
    ensures form { IfOk result (λ r. (B : PartsOf (List ℕ)) → IsSpelled B circuit.now → AreWords B
        → IsLegend (Some r.1)) }
    ensures names { IfOk result (λ r. AreStateNames r.0.names) }
{
    let layout = layout_of(alloc, circuit)?;
    on_surface(alloc, circuit, &layout)
}
