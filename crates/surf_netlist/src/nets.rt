//! The netlist of a circuit.
ghost use Rattle.std.specs.Prelude.{◌≡◌, ◌+◌, ◌<◌, ◌≤◌, ◌^◌, List, Bool, length, map, replicate, sum, IfOk, OnOk};
ghost use Rattle.std.specs.List.{All};
ghost use Rattle.surf_logic.specs.Answers.{IsEval};
ghost use Rattle.surf_logic.specs.Equations.{cost_of};
ghost use Rattle.surf_logic.specs.Order.{IsCircuit};
ghost use Rattle.surf_tiles.specs.Netlists.{IsNetlist};
ghost use Rattle.surf_netlist.specs.Circuits.{gates_of, outputs_at};
ghost use Rattle.surf_netlist.specs.Gates.{gate_count};
ghost use Rattle.surf_netlist.specs.Making.{net_at, numbered};

use crate::gate_list::GateList;
use std::alloc::Global;
use surf_base::NoMemory;
use surf_logic::Circuit;
use surf_tiles::Netlist;

// Gives the names the nets from 0 on.
fn number(names: &[u32], nets: &mut [u32])
    requires within { All (λ n. n < length nets.old) names.now }
    requires few { length names.now < 2 ^ 32 }
    ensures is { nets.new ≡ numbered nets.old 0 names.now }
    ensures length { length nets.new ≡ length nets.old }
{
    for (i, name) in names.iter().enumerate() {
        nets[*name as usize] = i as u32;
    }
}

// The nets of names.
fn nets_of(alloc: Global, names: &[u32], nets: &[u32]) -> Result<Vec<u32>, NoMemory>
    requires { All (λ n. n < length nets.now) names.now }
    ensures { IfOk result (λ v. v.items ≡ map (net_at nets.now) names.now) }
{
    let mut found = Vec::with_capacity(alloc, names.len()).map_err(|_| NoMemory)?;
    for name in names {
        found.push(nets[*name as usize]).map_err(|_| NoMemory)?;
    }
    Ok(found)
}

// The gates of a circuit, with room made for all at once, and the nets of its names. No name has
// one at first.
fn list_gates(alloc: Global, circuit: &Circuit, nets: &mut [u32]) -> Result<GateList, NoMemory>
    requires cost { cost_of circuit.now.parts ≤ 1000 }
    requires none { nets.old ≡ replicate (length circuit.now.names) 0 }
    ensures inputs { IfOk result (λ g. g.inputs ≡ (gates_of circuit.now.parts).inputs) }
    ensures gates { IfOk result (λ g. g.gates.items ≡ (gates_of circuit.now.parts).gates) }
    ensures nets { OnOk result (map (net_at nets.new) circuit.now.parts.outputs
        ≡ (gates_of circuit.now.parts).outputs) }
    ensures length { length nets.new ≡ length nets.old }
    ensures circuit { IsCircuit circuit.now }
{
    let inputs = circuit.inputs();
    number(inputs, nets);
    let room = circuit.cost() as usize - inputs.len() - circuit.outputs().len();
    let mut list = GateList::with_room(alloc, inputs.len() as u32, room)?;
    list.add_all(nets, circuit.equations())?;
    Ok(list)
}

/// The gates of a circuit's equations, one equation after another.
pub fn decompose(alloc: Global, circuit: &Circuit) -> Result<Netlist, NoMemory>
    requires { cost_of circuit.now.parts ≤ 1000 }
    ensures gates { IfOk result (λ n. n ≡ gates_of circuit.now.parts) }
    ensures values { IfOk result (λ n. (bits : List Bool) → length bits ≡ n.inputs
        → IsEval circuit.now bits (outputs_at n bits)) }
    ensures lower { IfOk result IsNetlist }
    ensures count { IfOk result (λ n.
        length n.gates ≡ sum (map gate_count circuit.now.parts.equations)) }
    ensures cost { IfOk result (λ n.
        n.inputs + length n.gates + length n.outputs ≤ cost_of circuit.now.parts) }
{
    let names = circuit.names().len() as usize;
    let mut nets = vec![in alloc; 0u32; names].map_err(|_| NoMemory)?;
    let list = list_gates(alloc, circuit, &mut nets)?;
    let outputs = nets_of(alloc, circuit.outputs(), &nets)?;
    let GateList { inputs, gates } = list;
    Ok(Netlist {
        inputs,
        gates,
        outputs,
    })
}
