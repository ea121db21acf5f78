// The surface of a layout as a manifest.
ghost use Rattle.std.specs.Prelude.{◌<◌, ◌^◌, ◌≡◌, IfOk, OnOk, length, map, slice_index_or};
ghost use Rattle.surf_settle.specs.Indices.{kind_index};
ghost use Rattle.surf_circuit.specs.Numbering.{AreStateNames, NumbersAll};
ghost use Rattle.surf_circuit.specs.Surfaces.{layout_system, plain_manifest};
ghost use Rattle.surf_settle.specs.Plans.{IsLayout};

use crate::numbering::number_kinds;
use std::alloc::Global;
use surf_base::NoMemory;
use surf_lattice::{Grid, Square};
use surf_manifest::Manifest;
use surf_rules::Names;
use surf_settle::{KindByte, Layout};
use surf_tiles::circuit_rules;

// The number of each site's name.
fn start_of(alloc: Global, kinds: &[KindByte], numbers: &[u32]) -> Result<Vec<u32>, NoMemory>
    requires { length numbers.now ≡ 32 }
    ensures { IfOk result (λ v.
        v.items ≡ map (λ k. slice_index_or numbers.now (kind_index k) 0) kinds.now) }
{
    let mut start = Vec::with_capacity(alloc, kinds.len()).map_err(|_| NoMemory)?;
    for kind in kinds {
        start.push(numbers[kind.index()]).map_err(|_| NoMemory)?;
    }
    Ok(start)
}

/// The manifest of the surface of a layout: the rules of circuits, the blank name of each site's
/// kind, no options and no colormap.
pub(crate) fn manifest_of(alloc: Global, layout: &Layout) -> Result<Manifest, NoMemory>
    ensures text { IfOk result (λ m. m.text ≡ plain_manifest (layout_system layout.now)) }
    ensures names { IfOk result (λ m. AreStateNames m.names) }
    ensures layout { OnOk result (IsLayout layout.now) }
    ensures sides { OnOk result ((layout.now.width < 2 ^ 32) × (layout.now.height < 2 ^ 32)) }
{
    let mut names = Names::new(alloc);
    let rules = circuit_rules(alloc, &mut names)?;
    let numbers = number_kinds(alloc, &mut names)?;
    // the list tells that no two of its names are the same
    let _count = names.len();
    let start = start_of(alloc, layout.kinds(), &numbers)?;
    let grid = Grid::Square(Square::new(layout.width(), layout.height()));
    Ok(Manifest::assemble(alloc, grid, names, rules, start))
}
