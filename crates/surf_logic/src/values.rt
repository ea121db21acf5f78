// The outputs of a circuit at some bits.
ghost use Rattle.std.specs.Prelude.{◌≡◌, ◌<◌, ◌≤◌, Bool, ℕ, List, length, map, MatchResult, IfOk, IfErr};
ghost use Rattle.std.specs.List.{All};
ghost use Rattle.surf_logic.specs.Equations.{at, literal_fits, row_matches, some_matches, value_of, evaluated, placed};
ghost use Rattle.surf_logic.specs.Order.{EquationInRange};
ghost use Rattle.surf_logic.specs.Answers.{IsEval, HasEvalFault};

use crate::circuit::Circuit;
use crate::equation::{Equation, Literal, Row};
use std::alloc::Global;
use thiserror::Error;

/// Why `eval` has no answer.
#[derive(Debug, Drop, Error)]
pub enum EvalError {
    /// There are so many bits, and so many inputs.
    #[error("found {found} bits for {wanted} inputs")]
    Length { found: u64, wanted: u64 },
    #[error("out of memory")]
    NoMemory,
}

// Whether a value is as the literal asks.
fn fits(literal: Literal, value: bool) -> bool
    ensures { result ≡ literal_fits literal value }
{
    match literal {
        Literal::Zero => !value,
        Literal::One => value,
        Literal::Any => true,
    }
}

// Whether each literal fits the value of its input.
fn matches_at(literals: &[Literal], inputs: &[u32], values: &[bool]) -> bool
    requires same { length literals.now ≡ length inputs.now }
    requires within { All (λ n. n < length values.now) inputs.now }
    ensures { result ≡ row_matches literals.now (map (at values.now) inputs.now) }
{
    let mut i = 0;
    while i < inputs.len() {
        if !fits(literals[i], values[inputs[i] as usize]) {
            return false;
        }
        i += 1;
    }
    true
}

// Whether some row matches the values of the inputs.
fn some_row(rows: &[Row], inputs: &[u32], values: &[bool]) -> bool
    requires same { All (λ row. length row ≡ length inputs.now) rows.now }
    requires within { All (λ n. n < length values.now) inputs.now }
    ensures { result ≡ some_matches rows.now (map (at values.now) inputs.now) }
{
    for row in rows {
        if matches_at(row.literals(), inputs, values) {
            return true;
        }
    }
    false
}

// The value that an equation gives its output.
fn value(equation: &Equation, values: &[bool]) -> bool
    requires { EquationInRange (length values.now) equation.now }
    ensures { result ≡ value_of equation.now.rows equation.now.polarity (map (at values.now) equation.now.inputs) }
{
    let rows = equation.rows();
    let some = some_row(rows, equation.inputs(), values);
    match (rows.is_empty(), equation.polarity()) {
        (true, _) => false,
        (false, true) => some,
        (false, false) => !some,
    }
}

// The values after all equations in order.
fn run(equations: &[Equation], values: &mut [bool])
    requires { All (EquationInRange (length values.old)) equations.now }
    ensures is { values.new ≡ evaluated values.old equations.now }
    ensures length { length values.new ≡ length values.old }
{
    for equation in equations {
        let value = value(equation, values);
        values[equation.output() as usize] = value;
    }
}

// Puts the bits at the places of the names.
fn place(names: &[u32], bits: &[bool], values: &mut [bool])
    requires same { length names.now ≡ length bits.now }
    requires within { All (λ n. n < length values.old) names.now }
    ensures is { values.new ≡ placed values.old names.now bits.now }
    ensures length { length values.new ≡ length values.old }
{
    let mut i = 0;
    while i < names.len() {
        values[names[i] as usize] = bits[i];
        i += 1;
    }
}

// The values at the places of the names.
fn read(alloc: Global, names: &[u32], values: &[bool]) -> Result<Vec<bool>, EvalError>
    requires within { All (λ n. n < length values.now) names.now }
    ensures ok { IfOk result (λ v. v.items ≡ map (at values.now) names.now) }
    ensures err { IfErr result (λ e. e ≡ EvalError.NoMemory) }
{
    let mut bits = Vec::new(alloc);
    for name in names {
        bits.push(values[*name as usize])
            .map_err(|_| EvalError::NoMemory)?;
    }
    Ok(bits)
}

// The outputs at bits that are as many as the inputs. The values are written over.
fn answer(
    alloc: Global,
    circuit: &Circuit,
    bits: &[bool],
    values: &mut [bool],
) -> Result<Vec<bool>, EvalError>
    requires bits { length bits.now ≡ length circuit.now.parts.inputs }
    requires values { length values.old ≡ length circuit.now.names }
    ensures { MatchResult result
        (λ v. IsEval circuit.now bits.now v.items) (HasEvalFault circuit.now bits.now) }
{
    place(circuit.inputs(), bits, values);
    run(circuit.equations(), values);
    read(alloc, circuit.outputs(), values)
}

/// The values of the outputs in order, where the inputs have these bits in order. `Length` exactly
/// where there are not as many bits as inputs.
pub fn eval(alloc: Global, circuit: &Circuit, bits: &[bool]) -> Result<Vec<bool>, EvalError>
    ensures { MatchResult result
        (λ v. IsEval circuit.now bits.now v.items) (HasEvalFault circuit.now bits.now) }
{
    let wanted = circuit.inputs().len();
    if bits.len() != wanted {
        return Err(EvalError::Length {
            found: bits.len() as u64,
            wanted: wanted as u64,
        });
    }
    let count = circuit.names().len() as usize;
    let mut values = vec![in alloc; false; count].map_err(|_| EvalError::NoMemory)?;
    answer(alloc, circuit, bits, &mut values)
}
