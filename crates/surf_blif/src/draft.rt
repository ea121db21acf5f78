// The parts of a circuit that were read so far.
ghost use Rattle.std.specs.Prelude.{◌≡◌, ◌+◌, ◌<◌, ◌≤◌, ◌++◌, [], IfOk, length};
ghost use Rattle.surf_text.specs.Bytes.{tokens_of};
ghost use Rattle.surf_blif.specs.Drafts.{HasRoom, IsDraft, IsWithin, held_by};
ghost use Rattle.surf_blif.specs.Kinds.{row_said};
ghost use Rattle.surf_blif.specs.Steps.{keeping, add_row, nothing_held, on_last, with_equation, with_inputs, with_outputs, with_row};

use crate::numbering::{count_tokens, numbers_of};
use crate::rows::RowText;
use std::alloc::Global;
use surf_base::NoMemory;
use surf_logic::{Equation, Row};
use surf_rules::Names;

/// The parts of a circuit that were read so far, and their cost. What comes once the cost is above
/// the limit is counted and not kept.
#[derive(Drop)]
pub struct Draft {
    pub names: Names,
    pub inputs: Vec<u32>,
    pub outputs: Vec<u32>,
    pub equations: Vec<Equation>,
    pub cost: u64,
}

/// The greatest cost of a circuit.
pub const COST_LIMIT: u64 = 1_000;

// Adds numbers behind others.
fn extend(list: &mut Vec<u32>, more: &[u32]) -> Result<(), NoMemory>
    ensures { IfOk result (λ _. list.new.items ≡ list.old.items ++ more.now) }
{
    list.extend_from_slice(more).map_err(|_| NoMemory)?;
    Ok(())
}

// Adds a row to an equation. The first row gives the polarity.
fn put_row(equation: &mut Equation, row: Row, output: bool) -> Result<(), NoMemory>
    ensures { IfOk result (λ _. equation.new
        ≡ add_row (record { literals = row; output = output }) equation.old) }
{
    if equation.rows.is_empty() {
        equation.polarity = output;
    }
    equation.rows.push(row).map_err(|_| NoMemory)?;
    Ok(())
}

// Adds a row to the last equation.
fn put_last(equations: &mut Vec<Equation>, row: Row, output: bool) -> Result<(), NoMemory>
    ensures { IfOk result (λ _. equations.new.items
        ≡ on_last (add_row (record { literals = row; output = output })) equations.old.items) }
{
    if equations.is_empty() {
        return Ok(());
    }
    let last = equations.len() - 1;
    put_row(&mut equations[last], row, output)?;
    Ok(())
}

impl Draft {
    pub fn new(alloc: Global) -> Draft
        ensures draft { IsDraft result }
        ensures held { held_by result ≡ nothing_held }
        ensures names { result.names ≡ [] }
    {
        Draft {
            names: Names::new(alloc),
            inputs: Vec::new(alloc),
            outputs: Vec::new(alloc),
            equations: Vec::new(alloc),
            cost: 0,
        }
    }

    /// Adds the tokens of a line as inputs.
    pub fn add_inputs(&mut self, alloc: Global, line: &[u8]) -> Result<(), NoMemory>
        requires draft { IsDraft self.old }
        requires room { HasRoom self.old (length line.now) }
        ensures draft { IfOk result (λ _. IsDraft self.new) }
        ensures room { IfOk result (λ _. IsWithin (length line.now) self.old self.new) }
        ensures held { IfOk result
            (λ _. held_by self.new
            ≡ keeping (held_by self.old) (length (tokens_of line.now))
            (with_inputs (held_by self.old).parts (tokens_of line.now))) }
    {
        self.cost += count_tokens(line) as u64;
        if self.cost > COST_LIMIT {
            return Ok(());
        }
        let more = numbers_of(alloc, &mut self.names, line)?;
        extend(&mut self.inputs, &more)?;
        Ok(())
    }

    /// Adds the tokens of a line as outputs.
    pub fn add_outputs(&mut self, alloc: Global, line: &[u8]) -> Result<(), NoMemory>
        requires draft { IsDraft self.old }
        requires room { HasRoom self.old (length line.now) }
        ensures draft { IfOk result (λ _. IsDraft self.new) }
        ensures room { IfOk result (λ _. IsWithin (length line.now) self.old self.new) }
        ensures held { IfOk result
            (λ _. held_by self.new
            ≡ keeping (held_by self.old) (length (tokens_of line.now))
            (with_outputs (held_by self.old).parts (tokens_of line.now))) }
    {
        self.cost += count_tokens(line) as u64;
        if self.cost > COST_LIMIT {
            return Ok(());
        }
        let more = numbers_of(alloc, &mut self.names, line)?;
        extend(&mut self.outputs, &more)?;
        Ok(())
    }

    /// Adds an equation without rows. The last token of the line is its output.
    pub fn add_equation(&mut self, alloc: Global, line: &[u8]) -> Result<(), NoMemory>
        requires draft { IsDraft self.old }
        requires room { HasRoom self.old (length line.now) }
        requires some { 0 < length (tokens_of line.now) }
        ensures draft { IfOk result (λ _. IsDraft self.new) }
        ensures room { IfOk result (λ _. IsWithin (length line.now) self.old self.new) }
        ensures held { IfOk result
            (λ _. held_by self.new
            ≡ keeping (held_by self.old) 1
            (with_equation (held_by self.old).parts (tokens_of line.now))) }
    {
        self.cost += 1;
        if self.cost > COST_LIMIT {
            return Ok(());
        }
        let mut inputs = numbers_of(alloc, &mut self.names, line)?;
        let output = inputs.pop().unwrap();
        let equation = Equation {
            output,
            inputs,
            rows: Vec::new(alloc),
            polarity: true,
        };
        self.equations.push(equation).map_err(|_| NoMemory)?;
        Ok(())
    }

    /// Adds a row to the last equation.
    pub fn add_row(&mut self, alloc: Global, row: RowText<'_>) -> Result<(), NoMemory>
        requires draft { IsDraft self.old }
        requires room { HasRoom self.old (1 + length row.literals.now) }
        ensures draft { IfOk result (λ _. IsDraft self.new) }
        ensures room { IfOk result
            (λ _. IsWithin (1 + length row.entry.literals.now) self.old self.new) }
        ensures held { IfOk result
            (λ _. held_by self.new ≡ with_row (held_by self.old) (row_said row.entry)) }
    {
        self.cost += row.cost();
        if self.cost > COST_LIMIT {
            return Ok(());
        }
        let kept = row.row(alloc)?;
        put_last(&mut self.equations, kept, row.output)?;
        Ok(())
    }
}
