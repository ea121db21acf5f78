// Rows of covers.
ghost use Rattle.std.specs.List.{list_all};
ghost use Rattle.std.specs.Prelude.{◌≡◌, ◌+◌, ◌<◌, ◌≤◌, ◌^◌, length, map, IfOk, IfSome, MatchOption, None, Some};
ghost use Rattle.surf_text.specs.Bytes.{tokens_of};
ghost use Rattle.surf_logic.specs.Equations.{row_cost};
ghost use Rattle.surf_blif.specs.Covers.{bit_of, constant_row, is_literal, literal_of, row_of, signed_row};
ghost use Rattle.surf_blif.specs.Kinds.{row_said};

use std::alloc::Global;
use surf_base::NoMemory;
use surf_logic::{Literal, Row};
use surf_text::next_token;

/// A row of a cover as it stands: a byte `0`, `1` or `-` for each input, and the output.
#[derive(Clone, Copy, Debug)]
pub struct RowText<'a> {
    pub literals: &'a [u8],
    pub output: bool,
}

// Whether each byte is `0`, `1` or `-`.
fn are_literals(token: &[u8]) -> bool
    ensures { result ≡ list_all is_literal token.now }
{
    token
        .iter()
        .all(|byte| *byte == b'0' || *byte == b'1' || *byte == b'-')
}

fn read_bit(token: &[u8]) -> Option<bool>
    ensures { result ≡ bit_of token.now }
{
    if token == b"0".as_slice() {
        return Some(false);
    }
    if token == b"1".as_slice() {
        return Some(true);
    }
    None
}

fn read_constant(line: &[u8]) -> Option<RowText<'_>>
    ensures within { IfSome result (λ r. 1 + length r.literals.now ≤ length line.now) }
    ensures row { MatchOption result (constant_row (tokens_of line.now) ≡ None)
        (λ r. constant_row (tokens_of line.now) ≡ Some (row_said r)) }
{
    let (output, rest) = next_token(line)?;
    if next_token(rest).is_some() {
        return None;
    }
    let output = read_bit(output)?;
    Some(RowText {
        literals: &line[..0],
        output,
    })
}

fn read_signed(inputs: usize, line: &[u8]) -> Option<RowText<'_>>
    ensures within { IfSome result (λ r. 1 + length r.literals.now ≤ length line.now) }
    ensures row { MatchOption result (signed_row inputs (tokens_of line.now) ≡ None)
        (λ r. signed_row inputs (tokens_of line.now) ≡ Some (row_said r)) }
{
    let (literals, rest) = next_token(line)?;
    let (output, rest) = next_token(rest)?;
    if next_token(rest).is_some() {
        return None;
    }
    if !are_literals(literals) || literals.len() != inputs {
        return None;
    }
    let output = read_bit(output)?;
    Some(RowText { literals, output })
}

/// The row of a cover of so many inputs that a line spells.
pub fn read_row(inputs: usize, line: &[u8]) -> Option<RowText<'_>>
    ensures row { MatchOption result (row_of inputs (tokens_of line.now) ≡ None)
        (λ r. row_of inputs (tokens_of line.now) ≡ Some (row_said r)) }
    ensures within { IfSome result (λ r. 1 + length r.literals.now ≤ length line.now) }
{
    if inputs == 0 {
        read_constant(line)
    } else {
        read_signed(inputs, line)
    }
}

fn literal(byte: u8) -> Literal
    ensures { result ≡ literal_of byte }
{
    match byte {
        b'0' => Literal::Zero,
        b'1' => Literal::One,
        _ => Literal::Any,
    }
}

impl RowText<'_> {
    /// 1, and 1 for each literal that asks something.
    pub fn cost(&self) -> u64
        requires { length self.now.literals.now < 2 ^ 63 }
        ensures is { result ≡ row_cost (row_said self.now).literals }
        ensures within { result ≤ 1 + length self.now.literals.now }
    {
        let asked = self
            .literals
            .iter()
            .filter(|byte| **byte == b'0' || **byte == b'1')
            .count();
        1 + asked as u64
    }

    /// The row of the equation.
    pub fn row(&self, alloc: Global) -> Result<Row, NoMemory>
        ensures { IfOk result (λ row. row ≡ (row_said self.now).literals) }
    {
        let literals = self.literals.iter().map(|byte| literal(*byte));
        let literals = literals.collect(alloc).map_err(|_| NoMemory)?;
        Ok(Row { literals })
    }
}
