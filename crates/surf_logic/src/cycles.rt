// Which equation depends on itself.
ghost use Rattle.std.specs.Prelude.{◌≡◌, ◌<◌, ℕ, List, [], length, IfOk, nat_eq};
ghost use Rattle.std.specs.List.{All};
ghost use Rattle.surf_logic.specs.Equations.{EquationOf};
ghost use Rattle.surf_logic.specs.Order.{EquationInRange, FirstCyclic, SomeCyclic, outputs_of};
ghost use Rattle.surf_logic.specs.Marks.{AreSources, Marks, Tells};

use crate::equation::Equation;
use crate::sources::{Sources, gather, sources_of};
use std::alloc::Global;
use surf_base::NoMemory;

// Whether a name depends on itself. No flag is up at first. Each name is looked at once: those that
// are reached and wait for it are on a list.
fn depends_on_itself(
    alloc: Global,
    sources: &[Sources],
    name: u32,
    reached: &mut [bool],
) -> Result<bool, NoMemory>
    requires length { length sources.now ≡ length reached.old }
    requires range { All (All (λ n. n < length sources.now)) sources.now }
    requires name { name < length reached.old }
    requires marks { Marks reached.old [] }
    ensures { IfOk result
        (λ b. (qs : List (EquationOf ℕ)) → AreSources qs sources.now → Tells qs name b) }
{
    let mut waiting = vec![in alloc; name].map_err(|_| NoMemory)?;
    while let Some(next) = waiting.pop() {
        gather(sources[next as usize].names(), reached, &mut waiting)?;
    }
    Ok(reached[name as usize])
}

// The output of the first equation that depends on itself. There is one.
fn first_by(alloc: Global, sources: &[Sources], left: &[Equation]) -> Result<u32, NoMemory>
    requires left { All (EquationInRange (length sources.now)) left.now }
    requires sources { AreSources left.now sources.now }
    requires range { All (All (λ n. n < length sources.now)) sources.now }
    requires some { SomeCyclic left.now }
    ensures within { IfOk result (λ n. n < length sources.now) }
    ensures first { IfOk result (FirstCyclic nat_eq left.now (outputs_of left.now)) }
{
    for equation in left {
        let name = equation.output();
        let mut reached = vec![in alloc; false; sources.len()].map_err(|_| NoMemory)?;
        if depends_on_itself(alloc, sources, name, &mut reached)? {
            return Ok(name);
        }
    }
    unreachable!()
}

// The same, where the names are so many.
pub(crate) fn first_cyclic(alloc: Global, count: usize, left: &[Equation]) -> Result<u32, NoMemory>
    requires range { All (EquationInRange count) left.now }
    requires some { SomeCyclic left.now }
    ensures within { IfOk result (λ n. n < count) }
    ensures first { IfOk result (FirstCyclic nat_eq left.now (outputs_of left.now)) }
{
    let sources = sources_of(alloc, count, left)?;
    first_by(alloc, &sources, left)
}
