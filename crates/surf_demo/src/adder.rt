// The adder: its text, and the bits at which it is shown.
ghost use Rattle.std.specs.Prelude.{◌≡◌, ◌≤◌, ◌<◌, ◌++◌, ◌∷◌, [], IfOk, OnOk};
ghost use Rattle.surf_demo.specs.Adders.{adder_bits, adder_text, carry_text, covers_text, inputs_text, name_text, names_text, one_bits, outputs_text, sum_text};

use crate::pieces::put_pieces;
use std::alloc::Global;
use surf_base::{NoMemory, Piece};

// Appends a name: its kind behind a blank, and a number.
fn put_name(out: &mut Vec<u8>, kind: &[u8], i: u32) -> Result<(), NoMemory>
    ensures { OnOk result (out.new.items ≡ out.old.items ++ name_text kind.now i) }
{
    put_pieces(out, &[Piece::Text(kind), Piece::Number(u64::from(i))])
}

// Appends the names of a kind with the numbers below n.
fn put_names(out: &mut Vec<u8>, kind: &[u8], n: u32) -> Result<(), NoMemory>
    ensures { OnOk result (out.new.items ≡ out.old.items ++ names_text kind.now n) }
{
    for i in 0..n {
        put_name(out, kind, i)?;
    }
    Ok(())
}

// Appends the line of the inputs: two numbers and a carry.
fn put_inputs(out: &mut Vec<u8>, n: u32) -> Result<(), NoMemory>
    ensures { OnOk result (out.new.items ≡ out.old.items ++ inputs_text n) }
{
    put_pieces(out, &[Piece::Text(b".inputs")])?;
    put_names(out, b" a", n)?;
    put_names(out, b" b", n)?;
    put_pieces(out, &[Piece::Text(b" c0\n")])
}

// Appends the line of the outputs: the sum and a carry.
fn put_outputs(out: &mut Vec<u8>, n: u32) -> Result<(), NoMemory>
    ensures { OnOk result (out.new.items ≡ out.old.items ++ outputs_text n) }
{
    put_pieces(out, &[Piece::Text(b".outputs")])?;
    put_names(out, b" s", n)?;
    put_name(out, b" c", n)?;
    put_pieces(out, &[Piece::Text(b"\n")])
}

// Appends the cover of the sum at one bit.
fn put_sum(out: &mut Vec<u8>, i: u32) -> Result<(), NoMemory>
    ensures { OnOk result (out.new.items ≡ out.old.items ++ sum_text i) }
{
    let i = Piece::Number(u64::from(i));
    put_pieces(
        out,
        &[
            Piece::Text(b".names a"),
            i,
            Piece::Text(b" b"),
            i,
            Piece::Text(b" c"),
            i,
            Piece::Text(b" s"),
            i,
            Piece::Text(b"\n100 1\n010 1\n001 1\n111 1\n"),
        ],
    )
}

// Appends the cover of the carry from one bit to the next.
fn put_carry(out: &mut Vec<u8>, i: u32) -> Result<(), NoMemory>
    requires { i < 32 }
    ensures { OnOk result (out.new.items ≡ out.old.items ++ carry_text i) }
{
    let next = Piece::Number(u64::from(i + 1));
    let i = Piece::Number(u64::from(i));
    put_pieces(
        out,
        &[
            Piece::Text(b".names a"),
            i,
            Piece::Text(b" b"),
            i,
            Piece::Text(b" c"),
            i,
            Piece::Text(b" c"),
            next,
            Piece::Text(b"\n11- 1\n1-1 1\n-11 1\n"),
        ],
    )
}

// Appends the covers of all bits.
fn put_covers(out: &mut Vec<u8>, n: u32) -> Result<(), NoMemory>
    requires { n ≤ 32 }
    ensures { OnOk result (out.new.items ≡ out.old.items ++ covers_text n) }
{
    for i in 0..n {
        put_sum(out, i)?;
        put_carry(out, i)?;
    }
    Ok(())
}

/// The text of a circuit that adds two numbers of `n` bits, at most 32, and a carry.
pub fn adder_text(alloc: Global, n: u32) -> Result<Vec<u8>, NoMemory>
    requires { n ≤ 32 }
    ensures { IfOk result (λ v. v.items ≡ adder_text n) }
{
    let mut text = Vec::new(alloc);
    put_pieces(&mut text, &[Piece::Text(b".model adder\n")])?;
    put_inputs(&mut text, n)?;
    put_outputs(&mut text, n)?;
    put_covers(&mut text, n)?;
    put_pieces(&mut text, &[Piece::Text(b".end\n")])?;
    Ok(text)
}

// Appends a bit.
fn put_bit(bits: &mut Vec<bool>, bit: bool) -> Result<(), NoMemory>
    ensures { OnOk result (bits.new.items ≡ bits.old.items ++ bit ∷ []) }
{
    bits.push(bit).map_err(|_| NoMemory)
}

// Appends the number 1 in n bits, the lowest first.
fn put_one(bits: &mut Vec<bool>, n: u32) -> Result<(), NoMemory>
    ensures { OnOk result (bits.new.items ≡ bits.old.items ++ one_bits n) }
{
    for i in 0..n {
        put_bit(bits, i == 0)?;
    }
    Ok(())
}

/// The bits at which the adder is shown: all ones, the number 1, and no carry.
pub fn adder_bits(alloc: Global, n: u32) -> Result<Vec<bool>, NoMemory>
    requires { n ≤ 32 }
    ensures { IfOk result (λ v. v.items ≡ adder_bits n) }
{
    let mut bits = vec![in alloc; true; n as usize].map_err(|_| NoMemory)?;
    put_one(&mut bits, n)?;
    put_bit(&mut bits, false)?;
    Ok(bits)
}
