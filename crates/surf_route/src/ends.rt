//! The sites of inputs and outputs.
ghost use Rattle.std.specs.Prelude.{◌≡◌, ◌++◌, ◌<◌, ◌≤◌, ◌∷◌, [], IfOk, OnOk, length, map};
ghost use Rattle.std.specs.List.{range_with_len};
ghost use Rattle.surf_place.specs.Placed.{IsPlaced, placement_of};
ghost use Rattle.surf_route.specs.Sealed.{centre, sealed_of};

use std::alloc::Global;
use surf_base::NoMemory;
use surf_lattice::Site;
use surf_place::{Drawing, Routed};

// The centre of a tile.
fn centre(column: u32, row: u32) -> Site
    requires column { column ≤ 3000 }
    requires row { row ≤ 3000 }
    ensures { result ≡ centre column row }
{
    Site {
        x: 3 * column + 1,
        y: 3 * row + 1,
    }
}

fn with_room(alloc: Global, count: usize) -> Result<Vec<Site>, NoMemory>
    ensures { IfOk result (λ sites. sites.items ≡ []) }
{
    Vec::with_capacity(alloc, count).map_err(|_| NoMemory)
}

fn put(sites: &mut Vec<Site>, site: Site) -> Result<(), NoMemory>
    ensures { OnOk result (sites.new.items ≡ sites.old.items ++ site ∷ []) }
{
    sites.push(site).map_err(|_| NoMemory)
}

/// The site of each input, in the first rows of tiles.
pub fn input_sites(alloc: Global, inputs: u32) -> Result<Vec<Site>, NoMemory>
    requires { inputs ≤ 1000 }
    ensures { IfOk result (λ sites. sites.items ≡ map (centre 0) (range_with_len 0 inputs)) }
{
    let mut sites = with_room(alloc, inputs as usize)?;
    for i in 0..inputs {
        put(&mut sites, centre(0, i))?;
    }
    Ok(sites)
}

/// The site of each output, in the last rows of tiles.
pub fn output_sites(
    alloc: Global,
    drawing: &Drawing<Routed>,
    outputs: &[u32],
) -> Result<Vec<Site>, NoMemory>
    requires placed { IsPlaced drawing.now }
    requires all { outputs.now ≡ drawing.now.netlist.outputs }
    ensures { IfOk result (λ sites. sites.items ≡ (sealed_of drawing.now).outputs) }
{
    let first = drawing.rows() - outputs.len() as u32;
    let mut sites = with_room(alloc, outputs.len())?;
    for (k, net) in outputs.iter().enumerate() {
        put(&mut sites, centre(drawing.column(*net), first + k as u32))?;
    }
    Ok(sites)
}
