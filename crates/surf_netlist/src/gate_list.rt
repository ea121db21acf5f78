//! Gates in the order in which they are made.
ghost use Rattle.std.specs.Prelude.{◌≡◌, ◌+◌, ◌-◌, ◌<◌, ◌≤◌, ◌^◌, ◌++◌, ◌&&◌, [], ◌∷◌, None, nat_eq, not, length, map, take, drop, sum, IfOk, OnOk, vec_len};
ghost use Rattle.std.specs.List.{All};
ghost use Rattle.surf_logic.specs.Equations.{equation_cost};
ghost use Rattle.surf_logic.specs.Order.{EquationInRange};
ghost use Rattle.surf_netlist.specs.Gates.{plain, signed_row, complement_last, finished, gates_of_equation};
ghost use Rattle.surf_netlist.specs.Circuits.{gates_from, nets_from};
ghost use Rattle.surf_netlist.specs.Making.{and_row, making_of, net_at, next_net, or_rows, with_and, with_or};

use crate::signed::{Signed, and_gate, asked_net, complement, one_gate, or_gate};
use std::alloc::Global;
use surf_base::NoMemory;
use surf_logic::{Equation, Literal, Row};
use surf_tiles::Gate;

// The number of the inputs, whose nets come first, and the gates, which have the nets after them.
#[derive(Drop)]
pub(crate) struct GateList {
    pub(crate) inputs: u32,
    pub(crate) gates: Vec<Gate>,
}

// The gate of an equation that is constant: without rows it is false, else it is the polarity.
fn constant(equation: &Equation) -> Gate
    ensures { let some = not (nat_eq (length equation.now.rows) 0) in
        result ≡ Gate.Constant (equation.now.polarity && some) }
{
    Gate::Constant(equation.polarity() && !equation.rows().is_empty())
}

impl GateList {
    // No gates, with room for so many.
    pub(crate) fn with_room(alloc: Global, inputs: u32, room: usize) -> Result<Self, NoMemory>
        ensures inputs { IfOk result (λ g. g.inputs ≡ inputs) }
        ensures gates { IfOk result (λ g. g.gates.items ≡ []) }
    {
        let gates = Vec::with_capacity(alloc, room).map_err(|_| NoMemory)?;
        Ok(GateList { inputs, gates })
    }

    // One gate more, and its net.
    fn push(&mut self, gate: Gate) -> Result<Signed, NoMemory>
        requires { next_net self.old < 2 ^ 32 }
        ensures gates { OnOk result (self.new.gates.items ≡ self.old.gates.items ++ gate ∷ []) }
        ensures net { IfOk result (λ s. s ≡ plain (next_net self.old)) }
        ensures same { self.new.inputs ≡ self.old.inputs }
    {
        let net = self.inputs + self.gates.len() as u32;
        self.gates.push(gate).map_err(|_| NoMemory)?;
        Ok(Signed {
            net,
            positive: true,
        })
    }

    // The AND of what was made so far and one signed net.
    fn and(&mut self, so_far: Option<Signed>, next: Signed) -> Result<Signed, NoMemory>
        requires { next_net self.old < 2 ^ 32 }
        ensures is { IfOk result (λ s. making_of self.new (Some s)
            ≡ with_and self.old.inputs self.old.gates.items so_far next) }
        ensures same { self.new.inputs ≡ self.old.inputs }
    {
        match so_far {
            None => Ok(next),
            Some(first) => self.push(and_gate(first, next)),
        }
    }

    // The OR of the rows so far and one more.
    fn or(&mut self, so_far: Option<Signed>, next: Signed) -> Result<Signed, NoMemory>
        requires { next_net self.old < 2 ^ 32 }
        ensures is { IfOk result (λ s. making_of self.new (Some s)
            ≡ with_or self.old.inputs self.old.gates.items so_far next) }
        ensures same { self.new.inputs ≡ self.old.inputs }
    {
        match so_far {
            None => Ok(next),
            Some(first) => self.push(or_gate(first, next)),
        }
    }

    // The AND of the literals of a row, or nothing where it asks nothing.
    fn row(
        &mut self,
        nets: &[u32],
        inputs: &[u32],
        literals: &[Literal],
    ) -> Result<Option<Signed>, NoMemory>
        requires same { length literals.now ≡ length inputs.now }
        requires within { All (λ n. n < length nets.now) inputs.now }
        requires room { let row = signed_row (net_at nets.now) inputs.now literals.now in
            self.old.inputs + length (and_row self.old row).gates < 2 ^ 32 }
        ensures is { let row = signed_row (net_at nets.now) inputs.now literals.now in
            IfOk result (λ o. making_of self.new o ≡ and_row self.old row) }
        ensures inputs { self.new.inputs ≡ self.old.inputs }
    {
        let mut so_far = None;
        let mut i = 0;
        while i < inputs.len() {
            let net = nets[inputs[i] as usize];
            if let Some(next) = asked_net(literals[i], net) {
                so_far = Some(self.and(so_far, next)?);
            }
            i += 1;
        }
        Ok(so_far)
    }

    // The OR of rows, or nothing where there is none or one asks nothing.
    fn cover(
        &mut self,
        nets: &[u32],
        inputs: &[u32],
        rows: &[Row],
    ) -> Result<Option<Signed>, NoMemory>
        requires same { All (λ row. length row ≡ length inputs.now) rows.now }
        requires within { All (λ n. n < length nets.now) inputs.now }
        requires room { let signed = map (signed_row (net_at nets.now) inputs.now) rows.now in
            self.old.inputs + length (or_rows self.old signed).gates < 2 ^ 32 }
        ensures is { let signed = map (signed_row (net_at nets.now) inputs.now) rows.now in
            IfOk result (λ o. making_of self.new o ≡ or_rows self.old signed) }
        ensures inputs { self.new.inputs ≡ self.old.inputs }
    {
        let mut so_far = None;
        for row in rows {
            let Some(next) = self.row(nets, inputs, row.literals())? else {
                return Ok(None);
            };
            so_far = Some(self.or(so_far, next)?);
        }
        Ok(so_far)
    }

    // Gives the gates from a place on the values by the polarity: where there is none, by one gate
    // of one input.
    fn finish(&mut self, start: usize, input: Signed, polarity: bool) -> Result<(), NoMemory>
        requires begun { start ≤ vec_len self.old.gates }
        requires room { next_net self.old < 2 ^ 32 }
        ensures gates { OnOk result (self.new.gates.items ≡ take start self.old.gates.items
            ++ finished polarity (drop start self.old.gates.items) input) }
        ensures inputs { self.new.inputs ≡ self.old.inputs }
    {
        let count = self.gates.len();
        if start == count {
            self.push(one_gate(input, polarity))?;
        } else if !polarity {
            self.gates[count - 1] = complement(self.gates[count - 1]);
        }
        Ok(())
    }

    // The gates of an equation.
    fn add(&mut self, nets: &[u32], equation: &Equation) -> Result<(), NoMemory>
        requires range { EquationInRange (length nets.now) equation.now }
        requires room { next_net self.old + equation_cost equation.now < 2 ^ 32 }
        ensures gates { OnOk result (self.new.gates.items ≡ self.old.gates.items
            ++ gates_of_equation (next_net self.old) (net_at nets.now) equation.now) }
        ensures inputs { self.new.inputs ≡ self.old.inputs }
    {
        let start = self.gates.len();
        let rows = equation.rows();
        match self.cover(nets, equation.inputs(), rows)? {
            None => {
                self.gates.truncate(start);
                self.push(constant(equation))?;
            }
            Some(input) => self.finish(start, input, equation.polarity())?,
        }
        Ok(())
    }

    // The gates of equations in order, and the nets of their outputs.
    pub(crate) fn add_all(
        &mut self,
        nets: &mut [u32],
        equations: &[Equation],
    ) -> Result<(), NoMemory>
        requires range { All (EquationInRange (length nets.old)) equations.now }
        requires room { next_net self.old + sum (map equation_cost equations.now) < 2 ^ 32 }
        ensures gates { OnOk result (self.new.gates.items ≡ self.old.gates.items
            ++ gates_from (next_net self.old) (net_at nets.old) equations.now) }
        ensures nets { OnOk result (net_at nets.new
            ≡ nets_from (next_net self.old) (net_at nets.old) equations.now) }
        ensures inputs { self.new.inputs ≡ self.old.inputs }
        ensures length { length nets.new ≡ length nets.old }
    {
        for equation in equations {
            self.add(nets, equation)?;
            nets[equation.output() as usize] = self.inputs + self.gates.len() as u32 - 1;
        }
        Ok(())
    }
}
