// The command `demo adder`.
ghost use Rattle.std.specs.Prelude.{◌≡◌, ◌≤◌, ◌<◌, ◌++◌, All, length, map};
ghost use Rattle.surf_base.specs.Emits.{Emits, outlet};
ghost use Rattle.surf_demo.specs.Summaries.{adder_lines};
ghost use Rattle.surf_rules.specs.Names.{text_of};
ghost use Rattle.surf_status.specs.Calls.{EndsAs, IsQuiet};
ghost use Rattle.surf_status.specs.Writes.{Wrote, writes};
ghost use Rattle.surf_command_circuits.specs.Calls.{adder_call};
ghost use Rattle.surf_command_circuits.specs.Values.{values_text};

use crate::evaluating::print_values;
use std::alloc::Global;
use surf_base::{Outbox, Piece, Sink, WriteFault};
use surf_blif::read_blif;
use surf_circuit::compile;
use surf_demo::{adder_bits, adder_text};
use surf_logic::{Circuit, eval};
use surf_status::{Status, ended, refused_bits, refused_blif};

// The lines of the cost, the gates and the events.
fn print_size<K: Sink>(
    n: u32,
    events: u64,
    outbox: &mut Outbox,
    out: &mut K,
) -> Result<(), WriteFault>
    requires { n ≤ 32 }
    ensures { Emits (outlet (K.written out.old) outbox.old (K.faults out.old))
        (outlet (K.written out.new) outbox.new (K.faults out.new))
        (adder_lines n events) result }
{
    let n = u64::from(n);
    outbox.put_pieces(
        out,
        &[
            Piece::Text(b"cost "),
            Piece::Number(30 * n + 2),
            Piece::Text(b"\ngates "),
            Piece::Number(16 * n),
            Piece::Text(b"\nevents "),
            Piece::Number(events),
            Piece::Byte(b'\n'),
        ],
    )
}

// These lines, and those of the outputs.
fn print_summary<K: Sink>(
    n: u32,
    events: u64,
    circuit: &Circuit,
    values: &[bool],
    outbox: &mut Outbox,
    out: &mut K,
) -> Result<(), WriteFault>
    requires size { n ≤ 32 }
    requires same { length values.now ≡ length circuit.now.parts.outputs }
    ensures { let c = circuit.now in
        Emits (outlet (K.written out.old) outbox.old (K.faults out.old))
        (outlet (K.written out.new) outbox.new (K.faults out.new))
        (adder_lines n events ++ values_text (map (text_of c.names) c.parts.outputs) values.now)
        result }
{
    // the inputs tell that the numbers of the outputs are those of names
    let _inputs = circuit.inputs();
    print_size(n, events, outbox, out)?;
    print_values(circuit.names(), circuit.outputs(), values, outbox, out)
}

// Writes the summary.
fn write_summary<K: Sink>(
    n: u32,
    events: u64,
    circuit: &Circuit,
    values: &[bool],
    out: &mut K,
) -> Result<(), WriteFault>
    requires size { n ≤ 32 }
    requires same { length values.now ≡ length circuit.now.parts.outputs }
    ensures { let c = circuit.now in
        Wrote (writes K.written K.faults out.old out.new)
        (adder_lines n events ++ values_text (map (text_of c.names) c.parts.outputs) values.now)
        result }
{
    let mut outbox = Outbox::new();
    print_summary(n, events, circuit, values, &mut outbox, out)?;
    outbox.flush(out)
}

/// Writes what the adder of `n` bits comes to, from 1 to 32: its cost, its gates, the events of
/// every run of its surface that cannot go on, and its outputs' values at the bits at which it is
/// shown.
pub fn show_adder<K: Sink>(alloc: Global, n: u32, out: &mut K) -> Status
    requires { (1 ≤ n) × (n ≤ 32) }
    ensures ends { EndsAs (adder_call n) (writes K.written K.faults out.old out.new) result }
    ensures quiet { IsQuiet result → out.new ≡ out.old }
{
    let Ok(text) = adder_text(alloc, n) else {
        return Status::NoMemory;
    };
    // the text is a circuit, and has as many inputs as there are bits
    let circuit = match read_blif(alloc, &text) {
        Ok(circuit) => circuit,
        Err(error) => return refused_blif(error),
    };
    let Ok(bits) = adder_bits(alloc, n) else {
        return Status::NoMemory;
    };
    let values = match eval(alloc, &circuit, &bits) {
        Ok(values) => values,
        Err(error) => return refused_bits(error),
    };
    let Ok((_manifest, legend)) = compile(alloc, &circuit) else {
        return Status::NoMemory;
    };
    ended(write_summary(n, legend.events, &circuit, &values, out))
}
