// The command `observe`.
ghost use Rattle.std.specs.Prelude.{◌≡◌, ◌≤◌, ◌<◌, ◌*◌, length, map};
ghost use Rattle.surf_text.specs.Bytes.{ended, rows_of, spaced};
ghost use Rattle.surf_status.specs.Calls.{IsQuiet};
ghost use Rattle.surf_status.specs.Calls.{EndsAs};
ghost use Rattle.surf_cells.specs.Rows.{state_word};
ghost use Rattle.surf_status.specs.Writes.{Wrote, writes};
ghost use Rattle.surf_command_traces.specs.Calls.{observe_call};

use std::alloc::Global;
use surf_base::{Outbox, Sink, WriteFault};
use surf_cells::{Observed, print_rows};
use surf_lattice::Lattice;
use surf_manifest::read_manifest;
use surf_status::{Status, ended, refused, refused_observe, refused_trace};
use surf_trace::{manifest_part, observe, read_trace};

// Writes the rows of states.
fn write_observed<K: Sink>(
    states: &[Option<u32>],
    width: u32,
    height: u32,
    out: &mut K,
) -> Result<(), WriteFault>
    requires some { 0 < width }
    requires sides { length states.now ≡ width * height }
    requires few { length states.now ≤ 33554432 }
    ensures { Wrote (writes K.written K.faults out.old out.new)
        (ended (map spaced (rows_of width height (map state_word states.now)))) result }
{
    let mut outbox = Outbox::new();
    print_rows(&Observed { states }, width, height, &mut outbox, out)?;
    outbox.flush(out)
}

/// Observes the trace of an input in the manifest before it, and writes the state of each site's
/// generation `k`.
pub fn show_observed<K: Sink>(alloc: Global, input: Vec<u8>, k: u64, out: &mut K) -> Status
    requires { length input.items ≤ 268435456 }
    ensures ends { EndsAs (observe_call k input.items)
        (writes K.written K.faults out.old out.new) result }
    ensures quiet { IsQuiet result → out.new ≡ out.old }
{
    let manifest = match read_manifest(alloc, manifest_part(&input)) {
        Ok(manifest) => manifest,
        Err(fault) => return refused(fault),
    };
    let events = match read_trace(alloc, &input) {
        Ok(events) => events,
        Err(fault) => return refused_trace(fault),
    };
    let Ok((mut world, names)) = manifest.into_world(alloc) else {
        return Status::NoMemory;
    };
    // the world tells that there are as many sites as the sides say, and not too many
    let _count = world.site_count();
    let width = world.grid().width();
    let height = world.grid().height();
    match observe(alloc, &mut world, &names, &events, k) {
        Ok(states) => ended(write_observed(&states, width, height, out)),
        Err(error) => refused_observe(error),
    }
}
