// From which names each name is given.
ghost use Rattle.std.specs.Prelude.{◌≡◌, ◌++◌, ◌<◌, ℕ, List, [], length, replicate, IfOk};
ghost use Rattle.std.specs.List.{All};
ghost use Rattle.surf_logic.specs.Order.{EquationInRange};
ghost use Rattle.surf_logic.specs.Marks.{added, all_added, fresh, marked};

use crate::equation::Equation;
use std::alloc::Global;
use std::marker::Model;
use surf_base::NoMemory;

// The names that one name is given from, each of them once for each equation that gives it.
#[derive(Drop)]
pub(crate) struct Sources {
    names: Vec<u32>,
}

impl Model for Sources {
    ghost use Rattle.std.specs.Prelude.{ℕ, List};

    ghost Value = { List ℕ };

    ghost view = { λ s. s.names.items };
}

impl Sources {
    fn none(alloc: Global) -> Sources
        ensures { result ≡ [] }
    {
        Sources {
            names: Vec::new(alloc),
        }
    }

    pub(crate) fn names(&self) -> &[u32]
        ensures { result.now ≡ self.now }
    {
        &self.names
    }

    // Adds the names whose flags are down.
    fn add(&mut self, names: &[u32], seen: &mut [bool]) -> Result<(), NoMemory>
        requires { All (λ n. n < length seen.old) names.now }
        ensures { IfOk result (λ _. self.new ≡ self.old ++ fresh seen.old names.now) }
    {
        gather(names, seen, &mut self.names)
    }
}

// Puts up the flags of the names, and adds each name whose flag was down to the list.
pub(crate) fn gather(names: &[u32], flags: &mut [bool], list: &mut Vec<u32>) -> Result<(), NoMemory>
    requires { All (λ n. n < length flags.old) names.now }
    ensures flags { IfOk result (λ _. flags.new ≡ marked flags.old names.now) }
    ensures list { IfOk result (λ _. list.new.items ≡ list.old.items ++ fresh flags.old names.now) }
    ensures length { length flags.new ≡ length flags.old }
{
    for name in names {
        if !flags[*name as usize] {
            flags[*name as usize] = true;
            list.push(*name).map_err(|_| NoMemory)?;
        }
    }
    Ok(())
}

// Adds the inputs of an equation to the sources of its output.
fn add_equation(alloc: Global, equation: &Equation, sources: &mut [Sources]) -> Result<(), NoMemory>
    requires { EquationInRange (length sources.old) equation.now }
    ensures is { IfOk result (λ _. sources.new ≡ added sources.old equation.now) }
    ensures length { length sources.new ≡ length sources.old }
{
    let mut seen = vec![in alloc; false; sources.len()].map_err(|_| NoMemory)?;
    sources[equation.output() as usize].add(equation.inputs(), &mut seen)
}

fn add_all(alloc: Global, equations: &[Equation], sources: &mut [Sources]) -> Result<(), NoMemory>
    requires { All (EquationInRange (length sources.old)) equations.now }
    ensures is { IfOk result (λ _. sources.new ≡ all_added sources.old equations.now) }
{
    for equation in equations {
        add_equation(alloc, equation, sources)?;
    }
    Ok(())
}

fn no_sources(alloc: Global, count: usize) -> Result<Vec<Sources>, NoMemory>
    ensures { IfOk result (λ sources. sources.items ≡ replicate count []) }
{
    let mut sources = Vec::new(alloc);
    for _name in 0..count {
        sources.push(Sources::none(alloc)).map_err(|_| NoMemory)?;
    }
    Ok(sources)
}

// The sources of so many names. However often an equation repeats an input, it is kept once.
pub(crate) fn sources_of(
    alloc: Global,
    count: usize,
    equations: &[Equation],
) -> Result<Vec<Sources>, NoMemory>
    requires { All (EquationInRange count) equations.now }
    ensures { IfOk result
        (λ sources. sources.items ≡ all_added (replicate count []) equations.now) }
{
    let mut sources = no_sources(alloc, count)?;
    add_all(alloc, equations, &mut sources)?;
    Ok(sources)
}
