// The command `format`.
ghost use Rattle.std.specs.Prelude.{◌≡◌, ◌≤◌, length};
ghost use Rattle.surf_status.specs.Calls.{IsQuiet};
ghost use Rattle.surf_status.specs.Calls.{EndsAs};
ghost use Rattle.surf_status.specs.Writes.{writes};
ghost use Rattle.surf_command_runs.specs.Calls.{format_call};

use std::alloc::Global;
use surf_base::{Sink, write_all};
use surf_manifest::read_manifest;
use surf_manifest_print::print_manifest;
use surf_status::{Status, ended, refused};

/// Writes the canonical print of the manifest that a text spells, without a legend.
pub fn format<K: Sink>(alloc: Global, input: Vec<u8>, out: &mut K) -> Status
    requires { length input.items ≤ 268435456 }
    ensures ends { EndsAs (format_call input.items) (writes K.written K.faults out.old out.new) result }
    ensures quiet { IsQuiet result → out.new ≡ out.old }
{
    let manifest = match read_manifest(alloc, &input) {
        Ok(manifest) => manifest,
        Err(fault) => return refused(fault),
    };
    drop(input);
    let Ok(text) = print_manifest(alloc, &manifest, None) else {
        return Status::NoMemory;
    };
    ended(write_all(out, &text))
}
