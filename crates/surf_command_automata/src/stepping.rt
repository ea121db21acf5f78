// The command `step`.
ghost use Rattle.std.specs.Prelude.{◌≡◌, ◌≤◌, ◌<◌, ◌*◌, ℕ, List, true, false, Ok, length, map};
ghost use Rattle.std.specs.Fmt.{decimal};
ghost use Rattle.surf_auto.specs.Sync.{box_of, universe};
ghost use Rattle.surf_auto.specs.Lines.{is_table};
ghost use Rattle.surf_rle.specs.Sources.{Eight, Plain};
ghost use Rattle.surf_text.specs.Bytes.{ended, rows_of, spaced};
ghost use Rattle.surf_status.specs.Calls.{IsQuiet};
ghost use Rattle.surf_status.specs.Calls.{EndsAs};
ghost use Rattle.surf_command_automata.specs.Generations.{source_of};
ghost use Rattle.surf_status.specs.Writes.{Wrote, writes};
ghost use Rattle.surf_command_automata.specs.Calls.{step_call};

use std::alloc::Global;
use surf_auto::{Automaton, Local, is_table};
use surf_base::{Outbox, Sink, WriteFault};
use surf_cells::{States, print_rows};
use surf_life::{MooreLocal, advance_moore};
use surf_rle::{Pattern, read_rle};
use surf_status::{Status, ended, refused_source};
use surf_table::read_table;

// Writes the rows of states.
fn write_rows<K: Sink>(
    states: &[u32],
    width: u32,
    height: u32,
    out: &mut K,
) -> Result<(), WriteFault>
    requires some { 0 < width }
    requires sides { length states.now ≡ width * height }
    requires few { length states.now ≤ 1000000 }
    ensures { Wrote (writes K.written K.faults out.old out.new)
        (ended (map spaced (rows_of width height (map decimal states.now)))) result }
{
    let mut outbox = Outbox::new();
    print_rows(&States { states }, width, height, &mut outbox, out)?;
    outbox.flush(out)
}

// Writes the states of an automaton's cells after so many steps.
fn show<L: Local + Drop, K: Sink>(
    alloc: Global,
    automaton: Automaton<L>,
    times: u32,
    out: &mut K,
) -> Status
    ensures ends { let a = automaton in let grid = box_of a.kind a.wrap a.width a.height in
        let U = universe grid (L.rule a.local) a.edge a.cells.items in
        (input : List ℕ) → source_of 0 input ≡ Ok (Plain U)
        → EndsAs (step_call times input) (writes K.written K.faults out.old out.new) result }
    ensures quiet { IsQuiet result → out.new ≡ out.old }
{
    let mut automaton = automaton;
    if automaton.advance(alloc, times).is_err() {
        return Status::NoMemory;
    }
    ended(write_rows(&automaton.cells, automaton.width, automaton.height, out))
}

// The same where eight neighbours are counted.
fn show_eight<K: Sink>(
    alloc: Global,
    automaton: Automaton<MooreLocal>,
    times: u32,
    out: &mut K,
) -> Status
    requires dead { automaton.edge ≡ 0 }
    ensures ends { let a = automaton in let grid = box_of a.kind a.wrap a.width a.height in
        (input : List ℕ) → source_of 0 input ≡ Ok (Eight a.local grid a.cells.items)
        → EndsAs (step_call times input) (writes K.written K.faults out.old out.new) result }
    ensures quiet { IsQuiet result → out.new ≡ out.old }
{
    let mut automaton = automaton;
    if advance_moore(alloc, &mut automaton, times).is_err() {
        return Status::NoMemory;
    }
    ended(write_rows(&automaton.cells, automaton.width, automaton.height, out))
}

fn show_table<K: Sink>(alloc: Global, input: Vec<u8>, times: u32, out: &mut K) -> Status
    requires table { is_table input.items ≡ true }
    requires small { length input.items ≤ 268435456 }
    ensures ends { EndsAs (step_call times input.items)
        (writes K.written K.faults out.old out.new) result }
    ensures quiet { IsQuiet result → out.new ≡ out.old }
{
    match read_table(alloc, &input, 0) {
        Ok(automaton) => {
            drop(input);
            show(alloc, automaton, times, out)
        }
        Err(error) => refused_source(error),
    }
}

fn show_pattern<K: Sink>(alloc: Global, input: Vec<u8>, times: u32, out: &mut K) -> Status
    requires pattern { is_table input.items ≡ false }
    requires small { length input.items ≤ 268435456 }
    ensures ends { EndsAs (step_call times input.items)
        (writes K.written K.faults out.old out.new) result }
    ensures quiet { IsQuiet result → out.new ≡ out.old }
{
    match read_rle(alloc, &input, 0) {
        Ok(Pattern::Count(automaton)) => {
            drop(input);
            show(alloc, automaton, times, out)
        }
        Ok(Pattern::Moore(automaton)) => {
            drop(input);
            show_eight(alloc, automaton, times, out)
        }
        Err(error) => refused_source(error),
    }
}

/// Writes the states of the cells of the automaton that a text spells, after so many steps.
pub fn show_generation<K: Sink>(alloc: Global, input: Vec<u8>, times: u32, out: &mut K) -> Status
    requires small { length input.items ≤ 268435456 }
    ensures ends { EndsAs (step_call times input.items)
        (writes K.written K.faults out.old out.new) result }
    ensures quiet { IsQuiet result → out.new ≡ out.old }
{
    if is_table(&input) {
        show_table(alloc, input, times, out)
    } else {
        show_pattern(alloc, input, times, out)
    }
}
