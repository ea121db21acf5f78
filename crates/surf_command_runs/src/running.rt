// The command `run`.
ghost use Rattle.std.specs.Prelude.{◌≡◌, ◌≤◌, ◌<◌, ℕ, List, Ok, IfOk, IfErr, length};
ghost use Rattle.surf_base.specs.Emits.{Emits, outlet};
ghost use Rattle.surf_manifest.specs.Grammar.{manifest_of};
ghost use Rattle.surf_pick.specs.Draws.{seeded, words_of};
ghost use Rattle.surf_rules.specs.Names.{text_of};
ghost use Rattle.surf_sim.specs.Totals.{most_total};
ghost use Rattle.surf_world.specs.Renamings.{AreBelow};
ghost use Rattle.surf_command_runs.specs.Prints.{placed_text};
ghost use Rattle.surf_status.specs.Calls.{EndsAs};
ghost use Rattle.surf_status.specs.Calls.{IsQuiet};
ghost use Rattle.surf_status.specs.Writes.{Wrote, writes};
ghost use Rattle.surf_command_runs.specs.Calls.{run_call};

use crate::events::print_trace;
use crate::print::print_end;
use std::alloc::Global;
use surf_base::{NoMemory, Outbox, Sink, WriteFault};
use surf_lattice::{Grid, Lattice};
use surf_manifest::{Manifest, read_manifest};
use surf_pick::{Draw, Picker, TreePicker, WidePicker};
use surf_rules::Names;
use surf_sim::{Sim, most_total};
use surf_status::{Status, ended, refused};
use surf_world::World;

// The trace, the final surface and the last word, as far as the outbox holds them.
fn print_held<L: Lattice, P: Picker, K: Sink>(
    sim: &mut Sim<L, P>,
    names: &Names,
    count: u64,
    outbox: &mut Outbox,
    out: &mut K,
) -> Result<(), WriteFault>
    requires { AreBelow (length names.now) sim.old.placed.surface sim.old.placed.names }
    ensures { Emits (outlet (K.written out.old) outbox.old (K.faults out.old))
        (outlet (K.written out.new) outbox.new (K.faults out.new))
        (placed_text (text_of names.now) sim.old.placed (words_of sim.old.generator) count) result }
{
    print_trace(sim, count, outbox, out)?;
    print_end(sim.world(), names, outbox, out)
}

// Takes events until there are so many or none is enabled, and prints the run.
fn print_run<L: Lattice, P: Picker, K: Sink>(
    sim: &mut Sim<L, P>,
    names: &Names,
    count: u64,
    out: &mut K,
) -> Result<(), WriteFault>
    requires { AreBelow (length names.now) sim.old.placed.surface sim.old.placed.names }
    ensures { Wrote (writes K.written K.faults out.old out.new)
        (placed_text (text_of names.now) sim.old.placed (words_of sim.old.generator) count) result }
{
    let mut outbox = Outbox::new();
    print_held(sim, names, count, &mut outbox, out)?;
    outbox.flush(out)
}

// Runs a world by one kind of picker, and prints the run.
fn print_by<L: Lattice + Drop, P: Picker + Drop, K: Sink>(
    alloc: Global,
    world: World<L>,
    names: &Names,
    seed: u64,
    count: u64,
    out: &mut K,
) -> Result<Result<(), WriteFault>, NoMemory>
    requires names { AreBelow (length names.now) world.surface world.names }
    requires fits { most_total world.surface < P.bound }
    ensures printed { IfOk result (λ r. Wrote (writes K.written K.faults out.old out.new)
        (placed_text (text_of names.now) world (words_of (seeded seed)) count) r) }
    ensures quiet { IfErr result (λ e. out.new ≡ out.old) }
{
    let mut sim = Sim::<L, P>::new(alloc, world, Draw::new(seed))?;
    Ok(print_run(&mut sim, names, count, out))
}

// The same by the fastest picker that holds the sum of the weights.
fn print_world<L: Lattice + Drop, K: Sink>(
    alloc: Global,
    world: World<L>,
    names: &Names,
    seed: u64,
    count: u64,
    out: &mut K,
) -> Result<Result<(), WriteFault>, NoMemory>
    requires { AreBelow (length names.now) world.surface world.names }
    ensures printed { IfOk result (λ r. Wrote (writes K.written K.faults out.old out.new)
        (placed_text (text_of names.now) world (words_of (seeded seed)) count) r) }
    ensures quiet { IfErr result (λ e. out.new ≡ out.old) }
{
    if most_total(&world) <= u128::from(u64::MAX) {
        print_by::<L, WidePicker, K>(alloc, world, names, seed, count, out)
    } else {
        print_by::<L, TreePicker, K>(alloc, world, names, seed, count, out)
    }
}

// Runs a manifest at the type of its grid.
fn run_on<L: Lattice + Drop, K: Sink>(
    alloc: Global,
    manifest: Manifest,
    grid: L,
    seed: u64,
    count: u64,
    out: &mut K,
) -> Status
    requires { L.grid grid ≡ manifest.text.system.surface.grid }
    ensures ends { (input : List ℕ) → manifest_of input ≡ Ok manifest.text
        → EndsAs (run_call seed count input) (writes K.written K.faults out.old out.new) result }
    ensures quiet { IsQuiet result → out.new ≡ out.old }
{
    let (world, names) = match manifest.into_world_on(alloc, grid) {
        Ok(pair) => pair,
        Err(NoMemory) => return Status::NoMemory,
    };
    match print_world(alloc, world, &names, seed, count, out) {
        Ok(written) => ended(written),
        Err(NoMemory) => Status::NoMemory,
    }
}

/// Runs the manifest that a text spells, and prints the run. The text is given up before the
/// world is built.
pub fn run<K: Sink>(alloc: Global, input: Vec<u8>, seed: u64, count: u64, out: &mut K) -> Status
    requires { length input.items ≤ 268435456 }
    ensures ends { EndsAs (run_call seed count input.items)
        (writes K.written K.faults out.old out.new) result }
    ensures quiet { IsQuiet result → out.new ≡ out.old }
{
    let manifest = match read_manifest(alloc, &input) {
        Ok(manifest) => manifest,
        Err(fault) => return refused(fault),
    };
    drop(input);
    match manifest.grid() {
        Grid::Square(grid) => run_on(alloc, manifest, grid, seed, count, out),
        Grid::Hex(grid) => run_on(alloc, manifest, grid, seed, count, out),
        Grid::TorusSquare(grid) => run_on(alloc, manifest, grid, seed, count, out),
        Grid::TorusHex(grid) => run_on(alloc, manifest, grid, seed, count, out),
    }
}
