//! Nets with a sign, and the gates of two of them.
ghost use Rattle.std.specs.Prelude.{◌≡◌, [], ◌∷◌};
ghost use Rattle.surf_netlist.specs.Gates.{and_gate, or_gate, complement, finished, signed_literal};

use surf_logic::Literal;
use surf_tiles::Gate;

// A net as it is, or its complement.
#[derive(Clone, Copy)]
pub(crate) struct Signed {
    pub(crate) net: u32,
    pub(crate) positive: bool,
}

// The net of an input, as a literal asks for it.
pub(crate) fn asked_net(literal: Literal, net: u32) -> Option<Signed>
    ensures { result ≡ signed_literal literal net }
{
    match literal {
        Literal::One => Some(Signed {
            net,
            positive: true,
        }),
        Literal::Zero => Some(Signed {
            net,
            positive: false,
        }),
        Literal::Any => None,
    }
}

// The gate that is true where both are.
pub(crate) fn and_gate(first: Signed, second: Signed) -> Gate
    ensures { result ≡ and_gate first second }
{
    Gate::Two {
        t00: !first.positive && !second.positive,
        t01: !first.positive && second.positive,
        t10: first.positive && !second.positive,
        t11: first.positive && second.positive,
        first: first.net,
        second: second.net,
    }
}

// The gate that is true where one of both is.
pub(crate) fn or_gate(first: Signed, second: Signed) -> Gate
    ensures { result ≡ or_gate first second }
{
    Gate::Two {
        t00: !first.positive || !second.positive,
        t01: !first.positive || second.positive,
        t10: first.positive || !second.positive,
        t11: first.positive || second.positive,
        first: first.net,
        second: second.net,
    }
}

// The gate of one input that is `polarity` where the signed net is true.
pub(crate) fn one_gate(input: Signed, polarity: bool) -> Gate
    ensures { finished polarity [] input ≡ result ∷ [] }
{
    let one = polarity == input.positive;
    Gate::One {
        zero: !one,
        one,
        input: input.net,
    }
}

// The gate of the other values.
pub(crate) fn complement(gate: Gate) -> Gate
    ensures { result ≡ complement gate }
{
    match gate {
        Gate::Constant(value) => Gate::Constant(!value),
        Gate::One { zero, one, input } => Gate::One {
            zero: !zero,
            one: !one,
            input,
        },
        Gate::Two {
            t00,
            t01,
            t10,
            t11,
            first,
            second,
        } => Gate::Two {
            t00: !t00,
            t01: !t01,
            t10: !t10,
            t11: !t11,
            first,
            second,
        },
    }
}
