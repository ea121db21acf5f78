// How much a circuit costs, with sums that stop at the greatest u128.
ghost use Rattle.std.specs.Prelude.{◌≡◌, ◌+◌, sum, map};
ghost use Rattle.surf_logic.specs.Equations.{capped, cost_of, equation_cost, literal_cost, row_cost};

use crate::equation::{Equation, Literal, Parts};

fn of_literal(literal: Literal) -> u128
    ensures { result ≡ literal_cost literal }
{
    match literal {
        Literal::Zero | Literal::One => 1,
        Literal::Any => 0,
    }
}

fn of_row(literals: &[Literal]) -> u128
    ensures { result ≡ capped (row_cost literals.now) }
{
    let mut cost = 1u128;
    for literal in literals {
        cost = cost.saturating_add(of_literal(*literal));
    }
    cost
}

fn of_equation(equation: &Equation) -> u128
    ensures { result ≡ capped (equation_cost equation.now) }
{
    let mut cost = 1u128;
    for row in equation.rows() {
        cost = cost.saturating_add(of_row(row.literals()));
    }
    cost
}

fn of_equations(equations: &[Equation]) -> u128
    ensures { result ≡ capped (sum (map equation_cost equations.now)) }
{
    let mut cost = 0u128;
    for equation in equations {
        cost = cost.saturating_add(of_equation(equation));
    }
    cost
}

// The cost of parts.
pub(crate) fn of_parts(parts: &Parts) -> u128
    ensures { result ≡ capped (cost_of parts.now.parts) }
{
    let ends = parts.inputs().len() as u128 + parts.outputs().len() as u128;
    ends.saturating_add(of_equations(parts.equations()))
}
