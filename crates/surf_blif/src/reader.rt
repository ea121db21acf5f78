// The reader of a text.
ghost use Rattle.std.specs.Prelude.{◌≡◌, ◌<◌, ◌≤◌, Ok, IfOk, IfErr, true, length};
ghost use Rattle.std.specs.List.{list_all};
ghost use Rattle.surf_logic.specs.declared.turns.CircuitError.{CircuitError};
ghost use Rattle.surf_logic.specs.Answers.{HasCircuitFault};
ghost use Rattle.surf_logic.specs.Order.{IsOrderOf};
ghost use Rattle.surf_logic.specs.Renamed.{AreNamed};
ghost use Rattle.surf_blif.specs.Answers.{HoldsError, IsReadAs, Tells};
ghost use Rattle.surf_blif.specs.Blifs.{IsRead, Refuses, text_fault};
ghost use Rattle.surf_blif.specs.Drafts.{IsDraft, held_by, numbered_by, rows_fit};

use crate::draft::{COST_LIMIT, Draft};
use crate::error::BlifError;
use crate::logical::LogicalLines;
use crate::reading::{Extent, Reading};
use std::alloc::Global;
use surf_logic::{Circuit, CircuitError, Parts, naming_laws, order};

// Reads the first model of a text, up to the first fault.
fn read_model(alloc: Global, bytes: &[u8]) -> Result<Draft, BlifError>
    requires { length bytes.now ≤ 2147483648 }
    ensures draft { IfOk result IsDraft }
    ensures read { IfOk result (λ d. IsReadAs bytes.now (held_by d)) }
    ensures refused { IfErr result (Tells (text_fault bytes.now)) }
{
    let mut reading = Reading::new(alloc);
    let mut lines = LogicalLines::new(alloc, bytes);
    while let Some(line) = lines.next().map_err(|_| BlifError::NoMemory)? {
        match reading.take_line(alloc, line.number, lines.text(&line))? {
            Extent::GoesOn => {}
            Extent::Stops | Extent::Ends => return Ok(reading.draft),
        }
    }
    Ok(reading.draft)
}

// The refusal of an error of the equations.
fn refusal(error: CircuitError) -> BlifError
    ensures { HoldsError error result }
{
    match error {
        CircuitError::NoMemory => BlifError::NoMemory,
        error => BlifError::Circuit(error),
    }
}

// The circuit of the parts of a draft.
fn circuit_of(alloc: Global, draft: Draft) -> Result<Circuit, BlifError>
    requires draft { IsDraft draft }
    requires rows { list_all rows_fit draft.equations.items ≡ true }
    ensures named { AreNamed (numbered_by draft) }
    ensures order { IfOk result (IsOrderOf (numbered_by draft)) }
    ensures refused { IfErr result
        (λ e. (error : CircuitError) × HasCircuitFault (numbered_by draft) error
        × HoldsError error e) }
{
    // the names tell that they are distinct
    let _name_count = draft.names.len();
    let parts = Parts {
        names: draft.names,
        inputs: draft.inputs,
        outputs: draft.outputs,
        equations: draft.equations,
    };
    match order(alloc, parts) {
        Ok(circuit) => Ok(circuit),
        Err(error) => Err(refusal(error)),
    }
}

/// The circuit of a text of at most 2,147,483,648 bytes: the inputs, outputs and equations of its
/// first model, the equations in the order of `surf_logic::order`. Or the text's fault: the first
/// faulty line; else a cost above 1,000; else what `order` refuses.
///
/// One pass over the bytes. Rows, equations and names beyond the cost are counted and not kept.
pub fn read_blif(alloc: Global, bytes: &[u8]) -> Result<Circuit, BlifError>
    requires { length bytes.now ≤ 2147483648 }
    ensures ok { IfOk result (IsRead bytes.now) }
    ensures refused { IfErr result (Refuses bytes.now) }
{
    let draft = read_model(alloc, bytes)?;
    if draft.cost > COST_LIMIT {
        return Err(BlifError::TooLarge(u128::from(draft.cost)));
    }
    // the faults, the order and the cost of numbers are those of the texts that they name
    naming_laws();
    circuit_of(alloc, draft)
}
