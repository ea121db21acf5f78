// The numbers of the names that sites begin with.
ghost use Rattle.std.specs.Prelude.{◌-◌, ◌<◌, ◌^◌, ◌≡◌, ◌≤◌, IfOk, Some, length, slice_get};
ghost use Rattle.surf_circuit.specs.Numbering.{NumbersAll};
ghost use Rattle.surf_tiles.specs.Kinds.{name_of};
ghost use Rattle.surf_tiles.specs.Rules.{IsGrown};

use std::alloc::Global;
use surf_base::NoMemory;
use surf_rules::Names;
use surf_settle::KINDS;
use surf_tiles::{Kind, kind_name};

// The number of the name that a kind begins with.
fn number_of(names: &mut Names, kind: Kind) -> Result<u32, NoMemory>
    requires { length names.old < 2 ^ 32 - 1 }
    ensures found { IfOk result (λ n. slice_get names.new n ≡ Some (name_of kind)) }
    ensures grown { IsGrown 1 names.old names.new }
{
    names.intern(kind_name(kind))
}

/// The number of the name of each kind, by its index. The names are added to the others.
pub(crate) fn number_kinds(alloc: Global, names: &mut Names) -> Result<Vec<u32>, NoMemory>
    requires few { length names.old ≤ 1000 }
    ensures numbers { IfOk result (λ v. NumbersAll names.new v.items) }
    ensures count { IfOk result (λ v. length v.items ≡ 32) }
    ensures grown { IsGrown 32 names.old names.new }
{
    let mut numbers = Vec::with_capacity(alloc, KINDS.len()).map_err(|_| NoMemory)?;
    for kind in KINDS {
        let number = number_of(names, kind)?;
        numbers.push(number).map_err(|_| NoMemory)?;
    }
    Ok(numbers)
}
