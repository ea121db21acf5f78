// The legend of a layout.
ghost use Rattle.std.specs.Prelude.{◌<◌, ◌^◌, ◌≡◌, All, IfOk, OnOk, length, map};
ghost use Rattle.surf_circuit.specs.Surfaces.{Decomposes, layout_legend, places};
ghost use Rattle.surf_rules.specs.Names.{text_of};
ghost use Rattle.surf_settle.specs.Settling.{SettlesAlways, events_of};

use std::alloc::Global;
use surf_base::{NoMemory, Text};
use surf_lattice::Site;
use surf_logic::Circuit;
use surf_manifest_print::{Legend, Place};
use surf_rules::Names;
use surf_settle::Layout;

fn named_place(alloc: Global, names: &Names, name: u32, site: Site) -> Result<Place, NoMemory>
    requires { name < length names.now }
    ensures { IfOk result (λ p. p ≡ record { name = text_of names.now name; site = site }) }
{
    let text = names.text(name).to_vec(alloc).map_err(|_| NoMemory)?;
    Ok(Place {
        name: Text::new(text),
        site,
    })
}

// The names with the sites of the inputs.
fn input_places(
    alloc: Global,
    names: &Names,
    inputs: &[u32],
    layout: &Layout,
) -> Result<Vec<Place>, NoMemory>
    requires named { All (λ n. n < length names.now) inputs.now }
    requires same { length inputs.now ≡ layout.now.netlist.inputs }
    ensures { IfOk result (λ v.
        v.items ≡ places (map (text_of names.now) inputs.now) layout.now.inputs) }
{
    let mut found = Vec::with_capacity(alloc, inputs.len()).map_err(|_| NoMemory)?;
    for i in 0..layout.inputs() {
        let place = named_place(alloc, names, inputs[i as usize], layout.input(i))?;
        found.push(place).map_err(|_| NoMemory)?;
    }
    Ok(found)
}

// The names with the sites of the outputs.
fn output_places(
    alloc: Global,
    names: &Names,
    outputs: &[u32],
    layout: &Layout,
) -> Result<Vec<Place>, NoMemory>
    requires named { All (λ n. n < length names.now) outputs.now }
    requires same { length outputs.now ≡ length layout.now.netlist.outputs }
    ensures { IfOk result (λ v.
        v.items ≡ places (map (text_of names.now) outputs.now) layout.now.outputs) }
{
    let mut found = Vec::with_capacity(alloc, outputs.len()).map_err(|_| NoMemory)?;
    for i in 0..layout.outputs() {
        let place = named_place(alloc, names, outputs[i as usize], layout.output(i))?;
        found.push(place).map_err(|_| NoMemory)?;
    }
    Ok(found)
}

/// The legend of a circuit on a layout of its netlist.
pub(crate) fn legend_of(
    alloc: Global,
    circuit: &Circuit,
    layout: &Layout,
) -> Result<Legend, NoMemory>
    requires { Decomposes layout.now.netlist circuit.now }
    ensures is { let text = text_of circuit.now.names in
        let parts = circuit.now.parts in
        IfOk result (λ l. l ≡ layout_legend (map text parts.inputs) (map text parts.outputs) layout.now) }
    ensures settles { OnOk result (SettlesAlways layout.now) }
    ensures events { OnOk result (events_of layout.now < 2 ^ 64) }
{
    let names = circuit.names();
    let events = layout.events();
    Ok(Legend {
        inputs: input_places(alloc, names, circuit.inputs(), layout)?,
        outputs: output_places(alloc, names, circuit.outputs(), layout)?,
        events,
    })
}
