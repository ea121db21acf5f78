// Which equation is ready.
ghost use Rattle.std.specs.Prelude.{◌≡◌, ◌<◌, false, length, IfNone, IfSome};
ghost use Rattle.std.specs.List.{All, list_all, list_any};
ghost use Rattle.surf_logic.specs.Equations.{at};
ghost use Rattle.surf_logic.specs.Order.{EquationInRange};
ghost use Rattle.surf_logic.specs.Marks.{ArePassed, IsPassed, ReadyAt, ready_by};

use crate::equation::Equation;

// How many of the first names are known, all of them or as many as stand before one that isn't.
// So many were known before.
fn known_from(known: &[bool], names: &[u32], before: usize) -> usize
    requires range { All (λ n. n < length known.now) names.now }
    requires passed { IsPassed known.now names.now before }
    ensures passed { IsPassed known.now names.now result }
    ensures all { result < length names.now → list_all (at known.now) names.now ≡ false }
{
    let mut count = before;
    while count < names.len() {
        if !known[names[count] as usize] {
            return count;
        }
        count += 1;
    }
    count
}

// The place of the first equation that is ready. So many of each equation's first inputs are known
// as `passed` says, and are not looked at again.
pub(crate) fn first_ready(known: &[bool], rest: &[Equation], passed: &mut [usize]) -> Option<usize>
    requires range { All (EquationInRange (length known.now)) rest.now }
    requires passed { ArePassed known.now rest.now passed.old }
    ensures some { IfSome result (ReadyAt known.now rest.now) }
    ensures none { IfNone result (list_any (ready_by known.now) rest.now ≡ false) }
    ensures passed { ArePassed known.now rest.now passed.new }
{
    let mut i = 0;
    while i < rest.len() {
        let inputs = rest[i].inputs();
        let count = known_from(known, inputs, passed[i]);
        passed[i] = count;
        if count == inputs.len() {
            return Some(i);
        }
        i += 1;
    }
    None
}
