// The faults that lists of names show, looked for with a flag for each name.
ghost use Rattle.std.specs.Prelude.{◌≡◌, ◌<◌, ℕ, [], length, IfOk, IfNone, IfSome};
ghost use Rattle.std.specs.List.{All};
ghost use Rattle.std.specs.Option.{option_map};
ghost use Rattle.surf_logic.specs.Order.{EquationInRange, InRange, inputs_of, list_fault, outputs_of};
ghost use Rattle.surf_logic.specs.Marks.{FlawIn, fault_of, flags_fault, marked, missing_by, twice_by, undriven_by};
ghost use Rattle.std.specs.Prelude.{nat_eq};

use crate::equation::{Equation, Parts};
use std::alloc::Global;
use surf_base::NoMemory;

// A fault by the number of its name.
#[derive(Clone, Copy, Debug, PartialEq, Eq)]
pub(crate) enum Flaw {
    DeclaredTwice(u32),
    DrivenTwice(u32),
    Undriven(u32),
    NoOutputs,
    Cycle(u32),
}

// Puts up the flags of the names, up to one whose flag is up.
pub(crate) fn mark(flags: &mut [bool], names: &[u32]) -> Option<u32>
    requires { All (λ n. n < length flags.old) names.now }
    ensures first { result ≡ twice_by flags.old names.now }
    ensures flags { IfNone result (flags.new ≡ marked flags.old names.now) }
    ensures within { IfSome result (λ n. n < length flags.old) }
    ensures length { length flags.new ≡ length flags.old }
{
    for name in names {
        if flags[*name as usize] {
            return Some(*name);
        }
        flags[*name as usize] = true;
    }
    None
}

// The same of the equations' outputs.
fn mark_outputs(flags: &mut [bool], equations: &[Equation]) -> Option<u32>
    requires { All (EquationInRange (length flags.old)) equations.now }
    ensures first { result ≡ twice_by flags.old (outputs_of equations.now) }
    ensures flags { IfNone result (flags.new ≡ marked flags.old (outputs_of equations.now)) }
    ensures within { IfSome result (λ n. n < length flags.old) }
    ensures length { length flags.new ≡ length flags.old }
{
    for equation in equations {
        let name = equation.output();
        if flags[name as usize] {
            return Some(name);
        }
        flags[name as usize] = true;
    }
    None
}

// The first name whose flag isn't up.
fn unmarked(flags: &[bool], names: &[u32]) -> Option<u32>
    requires { All (λ n. n < length flags.now) names.now }
    ensures is { result ≡ missing_by flags.now names.now }
    ensures within { IfSome result (λ n. n < length flags.now) }
{
    for name in names {
        if !flags[*name as usize] {
            return Some(*name);
        }
    }
    None
}

// The same of the equations' inputs.
fn unmarked_input(flags: &[bool], equations: &[Equation]) -> Option<u32>
    requires { All (EquationInRange (length flags.now)) equations.now }
    ensures is { result ≡ missing_by flags.now (inputs_of equations.now) }
    ensures within { IfSome result (λ n. n < length flags.now) }
{
    for equation in equations {
        match unmarked(flags, equation.inputs()) {
            Some(name) => return Some(name),
            None => {}
        }
    }
    None
}

// The first name whose flag isn't up, of the equations' inputs and of the outputs.
fn undriven(flags: &[bool], parts: &Parts) -> Option<u32>
    requires range { InRange parts.now }
    requires flags { length flags.now ≡ length parts.now.names }
    ensures is { result ≡ undriven_by flags.now parts.now.parts }
    ensures within { IfSome result (λ n. n < length flags.now) }
{
    match unmarked_input(flags, parts.equations()) {
        Some(name) => Some(name),
        None => unmarked(flags, parts.outputs()),
    }
}

// The fault that the flags show. No flag is up at first.
fn flaw_by(parts: &Parts, driven: &mut [bool], seen: &mut [bool]) -> Option<Flaw>
    requires range { InRange parts.now }
    requires driven { length driven.old ≡ length parts.now.names }
    requires seen { length seen.old ≡ length parts.now.names }
    ensures is { option_map fault_of result ≡ flags_fault driven.old seen.old parts.now.parts }
    ensures within { IfSome result (FlawIn (length parts.now.names)) }
{
    if let Some(name) = mark(driven, parts.inputs()) {
        return Some(Flaw::DeclaredTwice(name));
    }
    if let Some(name) = mark(seen, parts.outputs()) {
        return Some(Flaw::DeclaredTwice(name));
    }
    if let Some(name) = mark_outputs(driven, parts.equations()) {
        return Some(Flaw::DrivenTwice(name));
    }
    if let Some(name) = undriven(driven, parts) {
        return Some(Flaw::Undriven(name));
    }
    if parts.outputs().is_empty() {
        return Some(Flaw::NoOutputs);
    }
    None
}

// The first of the faults that lists show.
pub(crate) fn list_flaw(alloc: Global, parts: &Parts) -> Result<Option<Flaw>, NoMemory>
    requires range { InRange parts.now }
    ensures is { IfOk result
        (λ flaw. option_map fault_of flaw ≡ list_fault nat_eq parts.now.parts) }
    ensures within { IfOk result (λ flaw. IfSome flaw (FlawIn (length parts.now.names))) }
{
    let count = parts.names().len() as usize;
    let mut driven = vec![in alloc; false; count].map_err(|_| NoMemory)?;
    let mut seen = vec![in alloc; false; count].map_err(|_| NoMemory)?;
    Ok(flaw_by(parts, &mut driven, &mut seen))
}
