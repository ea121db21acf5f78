// The command `set`.
ghost use Rattle.std.specs.Prelude.{◌≡◌, ◌≤◌, length};
ghost use Rattle.surf_status.specs.Calls.{IsQuiet};
ghost use Rattle.surf_status.specs.Calls.{EndsAs};
ghost use Rattle.surf_command_circuits.specs.Bits.{bits_of};
ghost use Rattle.surf_status.specs.Writes.{writes};
ghost use Rattle.surf_command_circuits.specs.Calls.{set_call};

use crate::bits::bits_of;
use std::alloc::Global;
use surf_base::{Sink, write_all};
use surf_inputs::set_inputs;
use surf_manifest::read_manifest;
use surf_manifest_print::{print_manifest, read_legend};
use surf_status::{Status, ended, refused, refused_legend, refused_set};

/// Writes the manifest that a text spells with the bits of the word at the inputs of its legend,
/// and with the same legend.
pub fn set<K: Sink>(alloc: Global, input: Vec<u8>, word: &[u8], out: &mut K) -> Status
    requires { length input.items ≤ 268435456 }
    ensures ends { EndsAs (set_call (bits_of word.now) input.items)
        (writes K.written K.faults out.old out.new) result }
    ensures quiet { IsQuiet result → out.new ≡ out.old }
{
    let mut manifest = match read_manifest(alloc, &input) {
        Ok(manifest) => manifest,
        Err(fault) => return refused(fault),
    };
    let legend = match read_legend(alloc, &input) {
        Ok(legend) => legend,
        Err(fault) => return refused_legend(fault),
    };
    drop(input);
    let Ok(bits) = bits_of(alloc, word) else {
        return Status::NoMemory;
    };
    if let Err(error) = set_inputs(alloc, &mut manifest, &legend, &bits) {
        return refused_set(error);
    }
    let Ok(text) = print_manifest(alloc, &manifest, Some(&legend)) else {
        return Status::NoMemory;
    };
    ended(write_all(out, &text))
}
