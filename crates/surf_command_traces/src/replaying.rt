// The command `replay`.
ghost use Rattle.std.specs.Prelude.{◌≡◌, ◌≤◌, length};
ghost use Rattle.surf_status.specs.Calls.{IsQuiet};
ghost use Rattle.surf_status.specs.Calls.{EndsAs};
ghost use Rattle.surf_command_traces.specs.Traced.{valid_text};
ghost use Rattle.surf_status.specs.Writes.{Wrote, writes};
ghost use Rattle.surf_command_traces.specs.Calls.{replay_call};

use std::alloc::Global;
use surf_base::{Piece, Sink, WriteFault, write_pieces};
use surf_manifest::read_manifest;
use surf_status::{Status, ended, refused, refused_trace};
use surf_trace::{Verdict, manifest_part, read_trace, replay};
use surf_world::Event;

// Writes the line of a trace that is a run.
fn write_valid<K: Sink>(events: &[Event], out: &mut K) -> Result<(), WriteFault>
    ensures { Wrote (writes K.written K.faults out.old out.new) (valid_text events.now) result }
{
    let count = Piece::Number(events.len() as u64);
    write_pieces(out, &[Piece::Text(b"valid "), count, Piece::Byte(b'\n')])
}

/// Replays the trace of an input in the manifest before it, and writes how many events it has
/// where each is enabled at its turn.
pub fn check_trace<K: Sink>(alloc: Global, input: Vec<u8>, out: &mut K) -> Status
    requires { length input.items ≤ 268435456 }
    ensures ends { EndsAs (replay_call input.items) (writes K.written K.faults out.old out.new) result }
    ensures quiet { IsQuiet result → out.new ≡ out.old }
{
    let manifest = match read_manifest(alloc, manifest_part(&input)) {
        Ok(manifest) => manifest,
        Err(fault) => return refused(fault),
    };
    let events = match read_trace(alloc, &input) {
        Ok(events) => events,
        Err(fault) => return refused_trace(fault),
    };
    let Ok((mut world, _names)) = manifest.into_world(alloc) else {
        return Status::NoMemory;
    };
    match replay(&mut world, &events) {
        Verdict::NotEnabled(k) => Status::NotEnabled(k),
        Verdict::Valid => ended(write_valid(&events, out)),
    }
}
