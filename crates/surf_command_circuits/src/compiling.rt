// The command `circuit`.
ghost use Rattle.std.specs.Prelude.{◌≡◌, ◌≤◌, length};
ghost use Rattle.surf_status.specs.Calls.{IsQuiet};
ghost use Rattle.surf_status.specs.Calls.{EndsAs};
ghost use Rattle.surf_status.specs.Writes.{writes};
ghost use Rattle.surf_command_circuits.specs.Calls.{circuit_call};

use std::alloc::Global;
use surf_base::{Sink, write_all};
use surf_blif::read_blif;
use surf_circuit::compile_text;
use surf_status::{Status, ended, refused_blif};

/// Writes the surface of the circuit that a text spells: its manifest, and a legend that names the
/// inputs and outputs.
pub fn compile_circuit<K: Sink>(alloc: Global, input: Vec<u8>, out: &mut K) -> Status
    requires { length input.items ≤ 268435456 }
    ensures ends { EndsAs (circuit_call input.items)
        (writes K.written K.faults out.old out.new) result }
    ensures quiet { IsQuiet result → out.new ≡ out.old }
{
    let circuit = match read_blif(alloc, &input) {
        Ok(circuit) => circuit,
        Err(error) => return refused_blif(error),
    };
    drop(input);
    let Ok(text) = compile_text(alloc, &circuit) else {
        return Status::NoMemory;
    };
    ended(write_all(out, &text))
}
