// The order of equations by turns.
ghost use Rattle.std.specs.Prelude.{◌≡◌, ◌<◌, ℕ, Bool, List, [], false, length, IfOk, IfNone, IfSome, MatchResult, nat_eq, None, Some};
ghost use Rattle.std.specs.List.{All};
ghost use Rattle.surf_logic.specs.Equations.{EquationOf, Numbered};
ghost use Rattle.surf_logic.specs.Order.{EquationInRange, FirstCyclic, InRange, IsOrderOf, SomeCyclic, Turns, first_twice, list_fault, outputs_of};
ghost use Rattle.surf_logic.specs.Marks.{ArePassed, FlawIn, Marks, fault_of};
ghost use Rattle.surf_logic.specs.Answers.{HasCircuitFault, TellsCycle, map_fault, told_fault};
ghost use Rattle.surf_rules.specs.Names.{text_of};

use crate::circuit::Circuit;
use crate::cycles::first_cyclic;
use crate::equation::{Equation, Parts};
use crate::faults::{Flaw, list_flaw, mark};
use crate::ready::first_ready;
use std::alloc::Global;
use surf_base::{NoMemory, Text};
use surf_rules::Names;
use thiserror::Error;

/// Why parts are no circuit. A `Text` is the text of the name.
#[derive(Debug, Drop, Error)]
pub enum CircuitError {
    /// The first name that stands earlier in the same list: the inputs', then the outputs'.
    #[error("a name is declared twice")]
    DeclaredTwice(Text),
    /// The first equation's output that is an input or an earlier equation's output.
    #[error("a name is driven twice")]
    DrivenTwice(Text),
    /// The first name of the equations' inputs, then of the outputs, that nothing drives.
    #[error("a name is not driven")]
    Undriven(Text),
    /// There is no output.
    #[error("there is no output")]
    NoOutputs,
    /// The output of the first equation that depends on itself.
    #[error("an equation depends on itself")]
    Cycle(Text),
    #[error("out of memory")]
    NoMemory,
}

// The text of a name.
fn text(alloc: Global, names: &Names, id: u32) -> Result<Text, NoMemory>
    requires { id < length names.now }
    ensures { IfOk result (λ t. t ≡ text_of names.now id) }
{
    let bytes = names.text(id).to_vec(alloc).map_err(|_| NoMemory)?;
    Ok(Text::new(bytes))
}

// A flaw with the text of its name.
fn named(alloc: Global, names: &Names, flaw: Flaw) -> Result<CircuitError, NoMemory>
    requires { FlawIn (length names.now) flaw }
    ensures { IfOk result
        (λ e. told_fault e ≡ Some (map_fault (text_of names.now) (fault_of flaw))) }
{
    Ok(match flaw {
        Flaw::DeclaredTwice(id) => CircuitError::DeclaredTwice(text(alloc, names, id)?),
        Flaw::DrivenTwice(id) => CircuitError::DrivenTwice(text(alloc, names, id)?),
        Flaw::Undriven(id) => CircuitError::Undriven(text(alloc, names, id)?),
        Flaw::NoOutputs => CircuitError::NoOutputs,
        Flaw::Cycle(id) => CircuitError::Cycle(text(alloc, names, id)?),
    })
}

// The same, or want of memory.
fn told(alloc: Global, names: &Names, flaw: Flaw) -> CircuitError
    requires { FlawIn (length names.now) flaw }
    ensures { IfSome (told_fault result) (λ g. g ≡ map_fault (text_of names.now) (fault_of flaw)) }
{
    match named(alloc, names, flaw) {
        Ok(error) => error,
        Err(_) => CircuitError::NoMemory,
    }
}

// Takes equations in turns until none is ready, and leaves the others. The flags of the names are up at first.
fn take_turns(
    alloc: Global,
    names: &[u32],
    known: &mut [bool],
    rest: &mut Vec<Equation>,
) -> Result<Vec<Equation>, NoMemory>
    requires range { All (EquationInRange (length known.old)) rest.old.items }
    requires marks { Marks known.old names.now }
    ensures turns { IfOk result
        (λ taken. Turns nat_eq names.now rest.old.items taken.items rest.new.items) }
    ensures range { IfOk result (λ _. All (EquationInRange (length known.old)) rest.new.items) }
{
    let mut passed = vec![in alloc; 0; rest.len()].map_err(|_| NoMemory)?;
    turns_by(alloc, names, known, rest, &mut passed)
}

// The same. So many of each equation's first inputs are known as `passed` says: a turn looks at no
// input that an earlier one found to be known.
fn turns_by(
    alloc: Global,
    names: &[u32],
    known: &mut [bool],
    rest: &mut Vec<Equation>,
    passed: &mut Vec<usize>,
) -> Result<Vec<Equation>, NoMemory>
    requires range { All (EquationInRange (length known.old)) rest.old.items }
    requires marks { Marks known.old names.now }
    requires passed { ArePassed known.old rest.old.items passed.old.items }
    ensures turns { IfOk result
        (λ taken. Turns nat_eq names.now rest.old.items taken.items rest.new.items) }
    ensures range { IfOk result (λ _. All (EquationInRange (length known.old)) rest.new.items) }
{
    let mut taken = Vec::new(alloc);
    while let Some(place) = first_ready(known, rest, passed) {
        let equation = rest.remove(place);
        passed.remove(place);
        known[equation.output() as usize] = true;
        taken.push(equation).map_err(|_| NoMemory)?;
    }
    Ok(taken)
}

/// A circuit of the parts. At each turn it takes the first equation that is left and whose inputs
/// are inputs or outputs of taken ones. The faults are looked for in the order of `CircuitError`.
pub fn order(alloc: Global, parts: Parts) -> Result<Circuit, CircuitError>
    requires { InRange parts }
    ensures { MatchResult result (IsOrderOf parts) (HasCircuitFault parts) }
{
    match list_flaw(alloc, &parts) {
        Err(_) => Err(CircuitError::NoMemory),
        Ok(Some(flaw)) => Err(told(alloc, parts.names(), flaw)),
        Ok(None) => in_turns(alloc, parts),
    }
}

// The same, where lists show no fault.
fn in_turns(alloc: Global, parts: Parts) -> Result<Circuit, CircuitError>
    requires range { InRange parts }
    requires sound { list_fault nat_eq parts.parts ≡ None }
    ensures { MatchResult result (IsOrderOf parts) (HasCircuitFault parts) }
{
    let count = parts.names().len() as usize;
    let Parts {
        names,
        inputs,
        outputs,
        mut equations,
    } = parts;
    let taken = match taken_of(alloc, count, &inputs, &mut equations) {
        Ok(taken) => taken,
        Err(_) => return Err(CircuitError::NoMemory),
    };
    if !equations.is_empty() {
        return Err(cycle(alloc, &names, &equations));
    }
    Ok(Circuit::of(Parts {
        names,
        inputs,
        outputs,
        equations: taken,
    }))
}

// The refusal where equations are left.
fn cycle(alloc: Global, names: &Names, left: &[Equation]) -> CircuitError
    requires range { All (EquationInRange (length names.now)) left.now }
    requires some { SomeCyclic left.now }
    ensures { IfSome (told_fault result) (TellsCycle names.now left.now) }
{
    match first_cyclic(alloc, names.len() as usize, left) {
        Ok(id) => told(alloc, names, Flaw::Cycle(id)),
        Err(_) => CircuitError::NoMemory,
    }
}

// The equations that the turns take. Those left stay.
fn taken_of(
    alloc: Global,
    count: usize,
    inputs: &[u32],
    rest: &mut Vec<Equation>,
) -> Result<Vec<Equation>, NoMemory>
    requires inputs { All (λ n. n < count) inputs.now }
    requires once { first_twice nat_eq [] inputs.now ≡ None }
    requires range { All (EquationInRange count) rest.old.items }
    ensures turns { IfOk result
        (λ taken. Turns nat_eq inputs.now rest.old.items taken.items rest.new.items) }
    ensures range { IfOk result (λ _. All (EquationInRange count) rest.new.items) }
{
    let mut known = vec![in alloc; false; count].map_err(|_| NoMemory)?;
    first_turns(alloc, inputs, &mut known, rest)
}

// All turns, where no flag is up at first.
fn first_turns(
    alloc: Global,
    inputs: &[u32],
    known: &mut [bool],
    rest: &mut Vec<Equation>,
) -> Result<Vec<Equation>, NoMemory>
    requires inputs { All (λ n. n < length known.old) inputs.now }
    requires once { first_twice nat_eq [] inputs.now ≡ None }
    requires range { All (EquationInRange (length known.old)) rest.old.items }
    requires marks { Marks known.old [] }
    ensures turns { IfOk result
        (λ taken. Turns nat_eq inputs.now rest.old.items taken.items rest.new.items) }
    ensures range { IfOk result (λ _. All (EquationInRange (length known.old)) rest.new.items) }
{
    mark(known, inputs);
    take_turns(alloc, inputs, known, rest)
}
