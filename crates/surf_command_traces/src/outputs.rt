// The command `outputs`.
ghost use Rattle.std.specs.Prelude.{◌≡◌, ◌≤◌, ◌<◌, All, IfNone, IfSome, None, Some, length, map};
ghost use Rattle.surf_base.specs.Emits.{Emits, outlet};
ghost use Rattle.surf_rules.specs.Names.{text_of};
ghost use Rattle.surf_world.specs.Choices.{inside_test};
ghost use Rattle.surf_status.specs.Calls.{IsQuiet};
ghost use Rattle.surf_status.specs.Calls.{EndsAs};
ghost use Rattle.surf_command_traces.specs.Finals.{final_byte, finals_text, first_outside};
ghost use Rattle.surf_status.specs.Writes.{Wrote, writes};
ghost use Rattle.surf_command_traces.specs.Calls.{outputs_call};

use std::alloc::Global;
use surf_base::{Outbox, Piece, Sink, WriteFault};
use surf_lattice::{Lattice, Site};
use surf_manifest::read_manifest;
use surf_manifest_print::{Place, read_legend};
use surf_rules::Names;
use surf_status::{Refusal, Status, ended, refused, refused_legend, refused_trace};
use surf_trace::{Verdict, manifest_part, read_trace, replay};
use surf_world::World;

// The value that a name tells, or `-`.
fn final_byte(name: &[u8]) -> u8
    ensures { result ≡ final_byte (Some name.now) }
{
    if name == b"0".as_slice() {
        b'0'
    } else if name == b"1".as_slice() {
        b'1'
    } else {
        b'-'
    }
}

fn is_inside<L: Lattice>(grid: &L, site: Site) -> bool
    ensures { result ≡ inside_test (L.grid grid.now) site }
{
    site.x < grid.width() && site.y < grid.height()
}

// The site of the first place outside a grid.
fn first_outside<L: Lattice>(grid: &L, places: &[Place]) -> Option<Site>
    ensures none { IfNone result (first_outside (L.grid grid.now) places.now ≡ None) }
    ensures some { IfSome result (λ s. first_outside (L.grid grid.now) places.now ≡ Some s) }
{
    for output in places {
        if !is_inside(grid, output.site) {
            return Some(output.site);
        }
    }
    None
}

// A line for each place, with its name and the value that stands at its site.
fn print_finals<L: Lattice, K: Sink>(
    world: &World<L>,
    names: &Names,
    places: &[Place],
    outbox: &mut Outbox,
    out: &mut K,
) -> Result<(), WriteFault>
    requires names { All (λ k. k < length names.now) world.now.names }
    requires inside { first_outside world.now.surface.grid places.now ≡ None }
    ensures { Emits (outlet (K.written out.old) outbox.old (K.faults out.old))
        (outlet (K.written out.new) outbox.new (K.faults out.new))
        (finals_text world.now.surface.grid (map (text_of names.now) world.now.names) places.now)
        result }
{
    for output in places {
        let value = final_byte(names.text(world.at(output.site)));
        let name = Piece::Text(output.name.bytes());
        let value = Piece::Byte(value);
        outbox.put_pieces(out, &[name, Piece::Byte(b' '), value, Piece::Byte(b'\n')])?;
    }
    Ok(())
}

// Writes the lines of all places.
fn write_finals<L: Lattice, K: Sink>(
    world: &World<L>,
    names: &Names,
    places: &[Place],
    out: &mut K,
) -> Result<(), WriteFault>
    requires names { All (λ k. k < length names.now) world.now.names }
    requires inside { first_outside world.now.surface.grid places.now ≡ None }
    ensures { Wrote (writes K.written K.faults out.old out.new)
        (finals_text world.now.surface.grid (map (text_of names.now) world.now.names) places.now)
        result }
{
    let mut outbox = Outbox::new();
    print_finals(world, names, places, &mut outbox, out)?;
    outbox.flush(out)
}

/// Replays the trace of an input in the manifest before it, and writes for each output of the
/// legend its name and the value that then stands there.
pub fn show_finals<K: Sink>(alloc: Global, input: Vec<u8>, out: &mut K) -> Status
    requires { length input.items ≤ 268435456 }
    ensures ends { EndsAs (outputs_call input.items) (writes K.written K.faults out.old out.new) result }
    ensures quiet { IsQuiet result → out.new ≡ out.old }
{
    let part = manifest_part(&input);
    let manifest = match read_manifest(alloc, part) {
        Ok(manifest) => manifest,
        Err(fault) => return refused(fault),
    };
    let legend = match read_legend(alloc, part) {
        Ok(legend) => legend,
        Err(fault) => return refused_legend(fault),
    };
    match first_outside(&manifest.grid(), &legend.outputs) {
        Some(site) => return Status::Refused(Refusal::LegendSite(site)),
        None => {}
    }
    let events = match read_trace(alloc, &input) {
        Ok(events) => events,
        Err(fault) => return refused_trace(fault),
    };
    let Ok((mut world, names)) = manifest.into_world(alloc) else {
        return Status::NoMemory;
    };
    match replay(&mut world, &events) {
        Verdict::NotEnabled(k) => Status::NotEnabled(k),
        Verdict::Valid => ended(write_finals(&world, &names, &legend.outputs, out)),
    }
}
