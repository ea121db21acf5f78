// The command `demo vote`.
ghost use Rattle.std.specs.Prelude.{◌≡◌, ◌≤◌, ◌<◌, ◌+◌, ◌*◌, ◌/◌, ◌%◌, ◌∷◌, ◌++◌, [], All, IfErr, IfOk, OnOk, false, length, map, nat_eq};
ghost use Rattle.std.specs.List.{range_with_len};
ghost use Rattle.surf_auto.specs.Lines.{is_table};
ghost use Rattle.surf_auto.specs.Locals.{rule_count};
ghost use Rattle.surf_auto.specs.Sync.{box_of, universe};
ghost use Rattle.surf_colony.specs.Colonies.{StartsWithin, border};
ghost use Rattle.surf_pick.specs.Draws.{seeded, words_of};
ghost use Rattle.surf_sim.specs.Simulations.{sim_events};
ghost use Rattle.surf_sim.specs.Totals.{most_total};
ghost use Rattle.surf_trace.specs.Observations.{shown_in};
ghost use Rattle.surf_world.specs.Renamings.{AreBelow};
ghost use Rattle.surf_tally.specs.Tallies.{tally_of};
ghost use Rattle.surf_status.specs.Calls.{EndsAs, IsQuiet};
ghost use Rattle.surf_status.specs.Writes.{Wrote, writes};
ghost use Rattle.surf_command_vote.specs.Calls.{vote_call};
ghost use Rattle.surf_command_vote.specs.Shown.{IsVoteShown, cell_places, seed_tally, tally_lines, vote_tally};

use std::alloc::Global;
use surf_auto::{Automaton, Local, SourceError};
use surf_base::{NoMemory, Piece, Sink, WriteFault, write_pieces};
use surf_colony::compile_automaton;
use surf_demo::vote_text;
use surf_lattice::{Grid, Lattice};
use surf_manifest::Manifest;
use surf_pick::{Draw, Picker, TreePicker, WidePicker};
use surf_rle::{Pattern, read_rle};
use surf_rules::Names;
use surf_sim::{Sim, most_total};
use surf_status::{Status, ended, refused_source};
use surf_tally::{Tally, tally};
use surf_world::World;

// Puts a place at the end of a list.
fn push(out: &mut Vec<usize>, place: usize) -> Result<(), NoMemory>
    ensures { OnOk result (out.new.items ≡ out.old.items ++ place ∷ []) }
{
    out.push(place).map_err(|_| NoMemory)
}

// How wide the frame about the cells is: a torus has none.
fn border(wrap: bool) -> usize
    ensures border { result ≡ border wrap }
    ensures narrow { result ≤ 1 }
{
    if wrap { 0 } else { 1 }
}

// The places of an automaton's cells in its colony, in row-major order.
fn cell_places<L: Local>(alloc: Global, automaton: &Automaton<L>) -> Result<Vec<usize>, NoMemory>
    ensures { let a = automaton.now in
        let U = universe (box_of a.kind a.wrap a.width a.height) (L.rule a.local) a.edge
        a.cells.items in
        IfOk result (λ v. v.items ≡ cell_places U) }
{
    let border = border(automaton.wrap);
    let width = automaton.width as usize;
    let count = width * automaton.height as usize;
    let row = width + 2 * border;
    let mut places = Vec::with_capacity(alloc, count).map_err(|_| NoMemory)?;
    for cell in 0..count {
        push(
            &mut places,
            (cell / width + border) * row + (cell % width + border),
        )?;
    }
    Ok(places)
}

// What the cells at these places of a world come to in at most `count` events of seed 1, by one
// kind of picker.
fn tally_by<L: Lattice + Drop, P: Picker + Drop>(
    alloc: Global,
    world: World<L>,
    names: &Names,
    places: &[usize],
    count: u32,
) -> Result<Tally, NoMemory>
    requires names { AreBelow (length names.now) world.surface world.names }
    requires places { All (λ p. p < length world.names) places.now }
    requires fits { most_total world.surface < P.bound }
    ensures { IfOk result (λ t. t ≡ tally_of (shown_in names.now) world.surface world.names
        (sim_events nat_eq world.surface world.names (words_of (seeded 1)) count) 2 places.now) }
{
    let mut sim = Sim::<L, P>::new(alloc, world, Draw::new(1))?;
    tally(alloc, &mut sim, names, places, 2, count)
}

// The same by the fastest picker that holds the sum of the weights.
fn tally_world<L: Lattice + Drop>(
    alloc: Global,
    world: World<L>,
    names: &Names,
    places: &[usize],
    count: u32,
) -> Result<Tally, NoMemory>
    requires names { AreBelow (length names.now) world.surface world.names }
    requires places { All (λ p. p < length world.names) places.now }
    ensures { IfOk result (λ t. t ≡ tally_of (shown_in names.now) world.surface world.names
        (sim_events nat_eq world.surface world.names (words_of (seeded 1)) count) 2 places.now) }
{
    if most_total(&world) <= u128::from(u64::MAX) {
        tally_by::<L, WidePicker>(alloc, world, names, places, count)
    } else {
        tally_by::<L, TreePicker>(alloc, world, names, places, count)
    }
}

// What the cells at these places of a manifest come to, at the type of its grid.
fn tally_on<L: Lattice + Drop>(
    alloc: Global,
    manifest: Manifest,
    grid: L,
    places: &[usize],
    count: u32,
) -> Result<Tally, NoMemory>
    requires grid { L.grid grid ≡ manifest.text.system.surface.grid }
    requires places { All (λ p. p < length manifest.text.system.start) places.now }
    ensures { IfOk result (λ t. t ≡ seed_tally manifest.text.system places.now count) }
{
    let (world, names) = manifest.into_world_on(alloc, grid)?;
    tally_world(alloc, world, &names, places, count)
}

// The same of any manifest.
fn tally_manifest(
    alloc: Global,
    manifest: Manifest,
    places: &[usize],
    count: u32,
) -> Result<Tally, NoMemory>
    requires { All (λ p. p < length manifest.text.system.start) places.now }
    ensures { IfOk result (λ t. t ≡ seed_tally manifest.text.system places.now count) }
{
    match manifest.grid() {
        Grid::Square(grid) => tally_on(alloc, manifest, grid, places, count),
        Grid::Hex(grid) => tally_on(alloc, manifest, grid, places, count),
        Grid::TorusSquare(grid) => tally_on(alloc, manifest, grid, places, count),
        Grid::TorusHex(grid) => tally_on(alloc, manifest, grid, places, count),
    }
}

// What the cells of an automaton come to on its colony.
fn tally_colony<L: Local>(
    alloc: Global,
    automaton: &Automaton<L>,
    count: u32,
) -> Result<Tally, NoMemory>
    requires starts { let a = automaton.now in
        StartsWithin (universe (box_of a.kind a.wrap a.width a.height) (L.rule a.local) a.edge
        a.cells.items) }
    requires few { rule_count (L.rule automaton.now.local) ≤ 1048576 }
    ensures { let a = automaton.now in
        let U = universe (box_of a.kind a.wrap a.width a.height) (L.rule a.local) a.edge
        a.cells.items in
        IfOk result (λ t. t ≡ vote_tally U count) }
{
    let places = cell_places(alloc, automaton)?;
    let manifest = compile_automaton(alloc, automaton)?;
    tally_manifest(alloc, manifest, &places, count)
}

// How many events a vote is taken through.
fn event_count(n: u32) -> u32
    requires { n ≤ 64 }
    ensures { result ≡ 8 * n * n * n }
{
    8 * n * n * n
}

// What the cells of a vote come to. Its text is never refused.
fn tally_vote(alloc: Global, n: u32) -> Result<Tally, SourceError>
    requires { (1 ≤ n) × (n ≤ 64) }
    ensures shown { IfOk result (λ t. IsVoteShown n (tally_lines t)) }
    ensures cause { IfErr result (λ e. e ≡ SourceError.NoMemory) }
{
    let Ok(text) = vote_text(alloc, n) else {
        return Err(SourceError::NoMemory);
    };
    let automaton = match read_rle(alloc, &text, 0) {
        Ok(Pattern::Count(automaton)) => automaton,
        // the cells of a vote see four neighbours
        Ok(Pattern::Moore(_)) => unreachable!(),
        Err(error) => return Err(error),
    };
    match tally_colony(alloc, &automaton, event_count(n)) {
        Ok(tally) => Ok(tally),
        Err(NoMemory) => Err(SourceError::NoMemory),
    }
}

// Writes the lines of a tally.
fn write_tally<K: Sink>(tally: Tally, out: &mut K) -> Result<(), WriteFault>
    ensures { Wrote (writes K.written K.faults out.old out.new) (tally_lines tally) result }
{
    write_pieces(
        out,
        &[
            Piece::Text(b"cells "),
            Piece::Number(tally.cells),
            Piece::Text(b"\nevents "),
            Piece::Number(tally.events),
            Piece::Text(b"\nleast "),
            Piece::Number(tally.least),
            Piece::Text(b"\ngreatest "),
            Piece::Number(tally.greatest),
            Piece::Text(b"\nlive "),
            Piece::Number(tally.live),
            Piece::Byte(b'\n'),
        ],
    )
}

/// Writes what the cells of a vote come to: how many they are, the events, the least and the
/// greatest number of generations that a cell came to, and how many are live in the second.
pub fn show_vote<K: Sink>(alloc: Global, n: u32, out: &mut K) -> Status
    requires { (1 ≤ n) × (n ≤ 64) }
    ensures ends { EndsAs (vote_call n) (writes K.written K.faults out.old out.new) result }
    ensures quiet { IsQuiet result → out.new ≡ out.old }
{
    match tally_vote(alloc, n) {
        Ok(tally) => ended(write_tally(tally, out)),
        Err(error) => refused_source(error),
    }
}
