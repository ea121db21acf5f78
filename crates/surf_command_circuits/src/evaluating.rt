// The command `eval`.
ghost use Rattle.std.specs.Prelude.{◌≡◌, ◌≤◌, ◌<◌, All, IfOk, length, map};
ghost use Rattle.surf_base.specs.Emits.{Emits, outlet};
ghost use Rattle.surf_rules.specs.Names.{text_of};
ghost use Rattle.surf_status.specs.Calls.{IsQuiet};
ghost use Rattle.surf_status.specs.Calls.{EndsAs};
ghost use Rattle.surf_command_circuits.specs.Bits.{bits_of};
ghost use Rattle.surf_command_circuits.specs.Values.{bit_byte, values_text};
ghost use Rattle.surf_status.specs.Writes.{Wrote, writes};
ghost use Rattle.surf_command_circuits.specs.Calls.{eval_call};

use crate::bits::bits_of;
use std::alloc::Global;
use surf_base::{Outbox, Piece, Sink, WriteFault};
use surf_blif::read_blif;
use surf_logic::eval;
use surf_rules::Names;
use surf_status::{Status, ended, refused_bits, refused_blif};

fn bit_byte(value: bool) -> u8
    ensures { result ≡ bit_byte value }
{
    if value { b'1' } else { b'0' }
}

/// A line for each output, with its name and its value.
pub(crate) fn print_values<K: Sink>(
    names: &Names,
    outputs: &[u32],
    values: &[bool],
    outbox: &mut Outbox,
    out: &mut K,
) -> Result<(), WriteFault>
    requires range { All (λ n. n < length names.now) outputs.now }
    requires same { length values.now ≡ length outputs.now }
    ensures { Emits (outlet (K.written out.old) outbox.old (K.faults out.old))
        (outlet (K.written out.new) outbox.new (K.faults out.new))
        (values_text (map (text_of names.now) outputs.now) values.now) result }
{
    for i in 0..outputs.len() {
        let name = Piece::Text(names.text(outputs[i]));
        let value = Piece::Byte(bit_byte(values[i]));
        outbox.put_pieces(out, &[name, Piece::Byte(b' '), value, Piece::Byte(b'\n')])?;
    }
    Ok(())
}

// Writes the lines of all outputs.
fn write_values<K: Sink>(
    names: &Names,
    outputs: &[u32],
    values: &[bool],
    out: &mut K,
) -> Result<(), WriteFault>
    requires range { All (λ n. n < length names.now) outputs.now }
    requires same { length values.now ≡ length outputs.now }
    ensures { Wrote (writes K.written K.faults out.old out.new)
        (values_text (map (text_of names.now) outputs.now) values.now) result }
{
    let mut outbox = Outbox::new();
    print_values(names, outputs, values, &mut outbox, out)?;
    outbox.flush(out)
}

/// Writes the outputs' values of the circuit that a text spells, where its inputs have the bits
/// that the word spells.
pub fn evaluate<K: Sink>(alloc: Global, input: Vec<u8>, word: &[u8], out: &mut K) -> Status
    requires { length input.items ≤ 268435456 }
    ensures ends { EndsAs (eval_call (bits_of word.now) input.items)
        (writes K.written K.faults out.old out.new) result }
    ensures quiet { IsQuiet result → out.new ≡ out.old }
{
    let circuit = match read_blif(alloc, &input) {
        Ok(circuit) => circuit,
        Err(error) => return refused_blif(error),
    };
    drop(input);
    let Ok(bits) = bits_of(alloc, word) else {
        return Status::NoMemory;
    };
    let values = match eval(alloc, &circuit, &bits) {
        Ok(values) => values,
        Err(error) => return refused_bits(error),
    };
    // the inputs tell that the numbers of the outputs are those of names
    let _inputs = circuit.inputs();
    ended(write_values(circuit.names(), circuit.outputs(), &values, out))
}
