//! The rows of a netlist, drawn one after another.
ghost use Rattle.std.specs.Prelude.{◌≡◌, ◌+◌, [], false, true, IfOk, OnOk, drop, length, map};
ghost use Rattle.surf_tiles.specs.Tiles.{wires};
ghost use Rattle.surf_place.specs.Drawing.{Ends, gate_rows, input_rows, rows_of};
ghost use Rattle.surf_route.specs.Sealed.{tiles_by};
ghost use Rattle.surf_route.specs.Routing.{AreLeft, AreNext, IsSheet, band_of, gates_below};

use crate::line::{Line, wire};
use crate::sheet::Sheet;
use std::alloc::Global;
use surf_base::NoMemory;
use surf_place::{Drawing, Placed};
use surf_tiles::{Gate, Tile};

/// The tiles of a drawing, row by row.
pub fn drawn_tiles(alloc: Global, drawing: &Drawing<Placed>) -> Result<Vec<Tile>, NoMemory>
    ensures { IfOk result (λ tiles. tiles.items ≡ tiles_by drawing.now) }
{
    let netlist = drawing.netlist();
    let mut sheet = Sheet::new(alloc, drawing)?;
    put_inputs(&mut sheet, drawing, netlist.inputs())?;
    put_gates(&mut sheet, drawing, netlist.inputs(), netlist.gates())?;
    put_outputs(&mut sheet, drawing, netlist.outputs())?;
    Ok(sheet.tiles)
}

fn put_inputs(sheet: &mut Sheet, drawing: &Drawing<Placed>, inputs: u32) -> Result<(), NoMemory>
    requires sheet { IsSheet drawing.now sheet.old }
    requires first { sheet.old.row ≡ 0 }
    requires all { inputs ≡ drawing.now.netlist.inputs }
    ensures sheet { OnOk result (IsSheet drawing.now sheet.new) }
    ensures rest { let rows = gates_below drawing.now.netlist 0 in
        OnOk result (AreLeft drawing.now sheet.new.row rows) }
{
    for net in 0..inputs {
        let line = Line::Source {
            net,
            device: Tile::Input,
        };
        sheet.put(drawing, line)?;
    }
    Ok(())
}

fn put_gates(
    sheet: &mut Sheet,
    drawing: &Drawing<Placed>,
    inputs: u32,
    gates: &[Gate],
) -> Result<(), NoMemory>
    requires sheet { IsSheet drawing.now sheet.old }
    requires rest { AreLeft drawing.now sheet.old.row (gates_below drawing.now.netlist 0) }
    requires inputs { inputs ≡ drawing.now.netlist.inputs }
    requires all { gates.now ≡ drawing.now.netlist.gates }
    ensures sheet { OnOk result (IsSheet drawing.now sheet.new) }
    ensures rest { let rows = map Ends drawing.now.netlist.outputs in
        OnOk result (AreLeft drawing.now sheet.new.row rows) }
{
    for (j, gate) in gates.iter().enumerate() {
        put_gate(sheet, drawing, inputs + j as u32, *gate)?;
    }
    Ok(())
}

fn put_gate(
    sheet: &mut Sheet,
    drawing: &Drawing<Placed>,
    net: u32,
    gate: Gate,
) -> Result<(), NoMemory>
    requires sheet { IsSheet drawing.now sheet.old }
    requires band { AreNext drawing.now.netlist sheet.old.row (band_of net gate) }
    ensures sheet { OnOk result (IsSheet drawing.now sheet.new) }
    ensures row { OnOk result (sheet.new.row ≡ sheet.old.row + length (band_of net gate)) }
{
    match gate {
        Gate::Constant(value) => {
            let device = Tile::Constant(value);
            sheet.put(drawing, Line::Source { net, device })
        }
        Gate::One { zero, one, input } => {
            sheet.put(drawing, turned(input))?;
            let device = Tile::Gate1(zero, one);
            sheet.put(drawing, Line::Source { net, device })
        }
        Gate::Two {
            t00,
            t01,
            t10,
            t11,
            first,
            second,
        } => {
            sheet.put(drawing, turned(first))?;
            let device = Tile::Gate2(t00, t01, t10, t11);
            sheet.put(
                drawing,
                Line::Tap {
                    net: second,
                    device,
                },
            )?;
            let device = wire(true, true, false, false);
            sheet.put(drawing, Line::Source { net, device })
        }
    }
}

// A tap row above a gate: its wire turns from the east to the south.
fn turned(net: u32) -> Line
    ensures { result ≡ Line.Tap net (wires false true true false) }
{
    Line::Tap {
        net,
        device: wire(false, true, true, false),
    }
}

fn put_outputs(
    sheet: &mut Sheet,
    drawing: &Drawing<Placed>,
    outputs: &[u32],
) -> Result<(), NoMemory>
    requires sheet { IsSheet drawing.now sheet.old }
    requires rest { AreLeft drawing.now sheet.old.row (map Ends outputs.now) }
    ensures sheet { OnOk result (IsSheet drawing.now sheet.new) }
    ensures rest { OnOk result (AreLeft drawing.now sheet.new.row []) }
{
    for net in outputs {
        sheet.put(drawing, Line::End { net: *net })?;
    }
    Ok(())
}
