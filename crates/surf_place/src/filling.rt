//! The source rows and last rows of nets, filled row by row.
ghost use Rattle.std.specs.Prelude.{◌≡◌, ℕ, ◌+◌, ◌*◌, ◌<◌, ◌≤◌, ◌^◌, Some, [], ◌∷◌, length, map, slice_get, vec_len, IfOk, OnOk};
ghost use Rattle.std.specs.List.{range_with_len, All};
ghost use Rattle.surf_tiles.specs.Netlists.{nets_of, UsesBelow};
ghost use Rattle.surf_place.specs.Drawing.{Ends, gate_rows, input_rows, last_row, rows_of, source_row};
ghost use Rattle.surf_place.specs.Filling.{filled, filled_of, nothing, with_source, with_use};
ghost use Rattle.surf_place.specs.Placed.{IsDrawable};

use std::alloc::Global;
use surf_base::NoMemory;
use surf_tiles::{Gate, Netlist};

// The first and the last row of each net so far, and the next row.
#[derive(Drop)]
pub(crate) struct Filling {
    pub(crate) source: Vec<u32>,
    pub(crate) last: Vec<u32>,
    pub(crate) row: u32,
}

impl Filling {
    // Nothing, with room for so many nets.
    fn with_room(alloc: Global, nets: usize) -> Result<Filling, NoMemory>
        ensures { IfOk result (λ f. filled_of f ≡ nothing) }
    {
        Ok(Filling {
            source: Vec::with_capacity(alloc, nets).map_err(|_| NoMemory)?,
            last: Vec::with_capacity(alloc, nets).map_err(|_| NoMemory)?,
            row: 0,
        })
    }

    // The next net begins in the next row.
    fn begin(&mut self) -> Result<(), NoMemory>
        requires { self.old.row + 1 < 2 ^ 32 }
        ensures { OnOk result (filled_of self.new ≡ with_source (filled_of self.old)) }
    {
        self.source.push(self.row).map_err(|_| NoMemory)?;
        self.last.push(self.row).map_err(|_| NoMemory)?;
        self.row += 1;
        Ok(())
    }

    // A net is used in the next row.
    fn take(&mut self, net: u32)
        requires within { net < vec_len self.old.last }
        requires room { self.old.row + 1 < 2 ^ 32 }
        ensures { filled_of self.new ≡ with_use (filled_of self.old) net }
    {
        self.last[net as usize] = self.row;
        self.row += 1;
    }

    // The rows of so many inputs.
    fn add_inputs(&mut self, count: u32) -> Result<(), NoMemory>
        requires { self.old.row + count < 2 ^ 32 }
        ensures { OnOk result (filled_of self.new
            ≡ filled (filled_of self.old) (input_rows count 0 [])) }
    {
        for _net in 0..count {
            self.begin()?;
        }
        Ok(())
    }

    // The rows of a gate.
    fn add_gate(&mut self, gate: Gate) -> Result<(), NoMemory>
        requires uses { UsesBelow (vec_len self.old.last) gate }
        requires room { self.old.row + 3 < 2 ^ 32 }
        ensures { OnOk result ((net : ℕ) → filled_of self.new
            ≡ filled (filled_of self.old) (gate_rows net (gate ∷ []) [])) }
    {
        match gate {
            Gate::Constant(_) => {}
            Gate::One {
                zero: _,
                one: _,
                input,
            } => self.take(input),
            Gate::Two {
                t00: _,
                t01: _,
                t10: _,
                t11: _,
                first,
                second,
            } => {
                self.take(first);
                self.take(second);
            }
        }
        self.begin()
    }

    // The rows of gates.
    fn add_gates(&mut self, gates: &[Gate]) -> Result<(), NoMemory>
        requires lower { (j : ℕ) (g : Gate) → slice_get gates.now j ≡ Some g
            → UsesBelow (vec_len self.old.last + j) g }
        requires room { self.old.row + 3 * length gates.now < 2 ^ 32 }
        ensures { OnOk result (filled_of self.new
            ≡ filled (filled_of self.old) (gate_rows (vec_len self.old.last) gates.now [])) }
    {
        for gate in gates {
            self.add_gate(*gate)?;
        }
        Ok(())
    }

    // The rows of outputs.
    fn add_outputs(&mut self, outputs: &[u32])
        requires within { All (λ n. n < vec_len self.old.last) outputs.now }
        requires room { self.old.row + length outputs.now < 2 ^ 32 }
        ensures { filled_of self.new ≡ filled (filled_of self.old) (map Ends outputs.now) }
    {
        for net in outputs {
            self.take(*net);
        }
    }
}

// The rows of a netlist's nets.
pub(crate) fn fill(alloc: Global, netlist: &Netlist) -> Result<Filling, NoMemory>
    requires { IsDrawable netlist.now }
    ensures rows { IfOk result (λ f. f.row ≡ length (rows_of netlist.now)) }
    ensures sources { IfOk result (λ f. f.source.items
        ≡ map (source_row netlist.now) (range_with_len 0 (nets_of netlist.now))) }
    ensures lasts { IfOk result (λ f. f.last.items
        ≡ map (last_row netlist.now) (range_with_len 0 (nets_of netlist.now))) }
{
    let inputs = netlist.inputs();
    let gates = netlist.gates();
    let mut rows = Filling::with_room(alloc, inputs as usize + gates.len())?;
    rows.add_inputs(inputs)?;
    rows.add_gates(gates)?;
    rows.add_outputs(netlist.outputs());
    Ok(rows)
}
