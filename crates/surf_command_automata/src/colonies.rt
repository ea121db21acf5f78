// The command `automaton`.
ghost use Rattle.std.specs.Prelude.{◌≡◌, ◌≤◌, ℕ, List, Option, Err, IfErr, IfOk, IfSome, None, Ok, Some, false, length, true};
ghost use Rattle.surf_auto.specs.Lines.{is_table};
ghost use Rattle.surf_auto.specs.Locals.{rule_count};
ghost use Rattle.surf_auto.specs.Sync.{box_of, universe};
ghost use Rattle.surf_auto.specs.declared.error.SourceError.TheVariants as sources;
ghost use Rattle.surf_colony.specs.Colonies.{StartsWithin, framed};
ghost use Rattle.surf_colony.specs.InStep.{KeepsInStep};
ghost use Rattle.surf_manifest.specs.Grammar.{manifest_of};
ghost use Rattle.surf_manifest_print.specs.Prints.{print_of};
ghost use Rattle.surf_rle.specs.Sources.{Eight, Plain, ShowsSteps, Source, universe_of};
ghost use Rattle.surf_status.specs.Calls.{IsQuiet};
ghost use Rattle.surf_command_automata.specs.Automata.{colony_manifest, in_phases, printed_colony};
ghost use Rattle.surf_status.specs.Calls.{EndsAs};
ghost use Rattle.surf_command_automata.specs.Generations.{source_of};
ghost use Rattle.surf_cells.specs.CellNames.{OfCells};
ghost use Rattle.surf_status.specs.declared.status.Refusal.TheVariants as refusals;
ghost use Rattle.surf_status.specs.Writes.{writes};
ghost use Rattle.surf_command_automata.specs.Calls.{AreWithin, automaton_call};

use std::alloc::Global;
use surf_auto::{Automaton, Local, SourceError, is_table};
use surf_base::{NoMemory, Sink, write_all};
use surf_colony::{compile_automaton, compile_last};
use surf_life::MooreLocal;
use surf_manifest::Manifest;
use surf_manifest_print::print_manifest;
use surf_rle::{Pattern, read_rle};
use surf_status::{Status, ended, refused_source};
use surf_sync::rule_count_last;
use surf_table::read_table;

// The most rules that a manifest may have.
const MOST_RULES: u128 = 1_048_576;

// The surface of an automaton with a last generation, unless it has too many rules.
fn compile_ending<L: Local>(
    alloc: Global,
    automaton: &Automaton<L>,
    last: u32,
) -> Result<Manifest, SourceError>
    requires starts { let a = automaton.now in
        StartsWithin (universe (box_of a.kind a.wrap a.width a.height) (L.rule a.local) a.edge
        a.cells.items) }
    requires some { 1 ≤ last }
    requires limit { last ≤ 1000000 }
    ensures colony { let a = automaton.now in
        let U = universe (box_of a.kind a.wrap a.width a.height) (L.rule a.local) a.edge
        a.cells.items in
        IfOk result (λ m. m.text ≡ colony_manifest U (Some last)) }
    ensures text { let a = automaton.now in
        let U = universe (box_of a.kind a.wrap a.width a.height) (L.rule a.local) a.edge
        a.cells.items in
        IfOk result (λ m. printed_colony (Some last) (Ok (Plain U)) ≡ Ok (print_of m.text None)) }
    ensures in_step { let a = automaton.now in
        let U = universe (box_of a.kind a.wrap a.width a.height) (L.rule a.local) a.edge
        a.cells.items in
        IfOk result (λ m. KeepsInStep U (in_phases U (Some last)) m.text.system) }
    ensures framed { let a = automaton.now in
        IfOk result (λ m. m.text.system.surface.grid
        ≡ framed (box_of a.kind a.wrap a.width a.height)) }
    ensures names { IfOk result (λ m. OfCells m.text.system) }
    ensures refused { let a = automaton.now in
        let U = universe (box_of a.kind a.wrap a.width a.height) (L.rule a.local) a.edge
        a.cells.items in
        IfErr result (λ e. (e ≡ sources.NoMemory → ⊥)
        → printed_colony (Some last) (Ok (Plain U)) ≡ Err (refusals.Source e)) }
{
    let local = &automaton.local;
    let count = rule_count_last(local, local.degree(), last);
    if count > MOST_RULES {
        return Err(SourceError::TooManyRules(count));
    }
    compile_last(alloc, automaton, last).map_err(|_| SourceError::NoMemory)
}

// The surface of an automaton, with its last generation, if one is given.
fn compile<L: Local>(
    alloc: Global,
    automaton: &Automaton<L>,
    last: Option<u32>,
) -> Result<Manifest, SourceError>
    requires starts { let a = automaton.now in
        StartsWithin (universe (box_of a.kind a.wrap a.width a.height) (L.rule a.local) a.edge
        a.cells.items) }
    requires few { rule_count (L.rule automaton.now.local) ≤ 1048576 }
    requires limits { IfSome last (λ n. (1 ≤ n) × (n ≤ 1000000)) }
    ensures colony { let a = automaton.now in
        let U = universe (box_of a.kind a.wrap a.width a.height) (L.rule a.local) a.edge
        a.cells.items in
        IfOk result (λ m. m.text ≡ colony_manifest U last) }
    ensures text { let a = automaton.now in
        let U = universe (box_of a.kind a.wrap a.width a.height) (L.rule a.local) a.edge
        a.cells.items in
        IfOk result (λ m. printed_colony last (Ok (Plain U)) ≡ Ok (print_of m.text None)) }
    ensures in_step { let a = automaton.now in
        let U = universe (box_of a.kind a.wrap a.width a.height) (L.rule a.local) a.edge
        a.cells.items in
        IfOk result (λ m. KeepsInStep U (in_phases U last) m.text.system) }
    ensures framed { let a = automaton.now in
        IfOk result (λ m. m.text.system.surface.grid
        ≡ framed (box_of a.kind a.wrap a.width a.height)) }
    ensures names { IfOk result (λ m. OfCells m.text.system) }
    ensures refused { let a = automaton.now in
        let U = universe (box_of a.kind a.wrap a.width a.height) (L.rule a.local) a.edge
        a.cells.items in
        IfErr result (λ e. (e ≡ sources.NoMemory → ⊥)
        → printed_colony last (Ok (Plain U)) ≡ Err (refusals.Source e)) }
{
    match last {
        Some(last) => compile_ending(alloc, automaton, last),
        None => compile_automaton(alloc, automaton).map_err(|_| SourceError::NoMemory),
    }
}

// Writes a manifest, which is let go once its text is made.
fn write_manifest<K: Sink>(alloc: Global, manifest: Manifest, out: &mut K) -> Status
    ensures ends { let text = print_of manifest.text None in
        (margin : ℕ) (last : Option ℕ) (input : List ℕ) → let call = automaton_call margin last input in
        call.Is text → (manifest_of text ≡ Ok manifest.text → call.Shows text)
        → EndsAs call (writes K.written K.faults out.old out.new) result }
    ensures quiet { IsQuiet result → out.new ≡ out.old }
{
    let Ok(text) = print_manifest(alloc, &manifest, None) else {
        return Status::NoMemory;
    };
    drop(manifest);
    ended(write_all(out, &text))
}

// Writes the surface of the automaton of a source. It is let go before its text is made.
fn write_source<L: Local + Drop, K: Sink>(
    alloc: Global,
    automaton: Automaton<L>,
    last: Option<u32>,
    out: &mut K,
) -> Status
    requires starts { let a = automaton in
        StartsWithin (universe (box_of a.kind a.wrap a.width a.height) (L.rule a.local) a.edge
        a.cells.items) }
    requires few { rule_count (L.rule automaton.local) ≤ 1048576 }
    requires limits { IfSome last (λ n. (1 ≤ n) × (n ≤ 1000000)) }
    ensures ends { let a = automaton in
        let U = universe (box_of a.kind a.wrap a.width a.height) (L.rule a.local) a.edge
        a.cells.items in
        (margin : ℕ) (input : List ℕ) (S : Source) → source_of margin input ≡ Ok S
        → universe_of S ≡ U → ShowsSteps S → EndsAs (automaton_call margin last input)
        (writes K.written K.faults out.old out.new) result }
    ensures quiet { IsQuiet result → out.new ≡ out.old }
{
    let manifest = match compile(alloc, &automaton, last) {
        Ok(manifest) => manifest,
        Err(error) => return refused_source(error),
    };
    drop(automaton);
    write_manifest(alloc, manifest, out)
}

// Writes the surface of an automaton that is itself what was spelled.
fn write_colony<L: Local + Drop, K: Sink>(
    alloc: Global,
    automaton: Automaton<L>,
    last: Option<u32>,
    out: &mut K,
) -> Status
    requires starts { let a = automaton in
        StartsWithin (universe (box_of a.kind a.wrap a.width a.height) (L.rule a.local) a.edge
        a.cells.items) }
    requires few { rule_count (L.rule automaton.local) ≤ 1048576 }
    requires limits { IfSome last (λ n. (1 ≤ n) × (n ≤ 1000000)) }
    ensures ends { let a = automaton in
        let U = universe (box_of a.kind a.wrap a.width a.height) (L.rule a.local) a.edge
        a.cells.items in
        (margin : ℕ) (input : List ℕ) → source_of margin input ≡ Ok (Plain U)
        → EndsAs (automaton_call margin last input)
        (writes K.written K.faults out.old out.new) result }
    ensures quiet { IsQuiet result → out.new ≡ out.old }
{
    write_source(alloc, automaton, last, out)
}

// Writes a surface on which eight neighbours are counted, by half generations.
fn write_eight<K: Sink>(
    alloc: Global,
    automaton: Automaton<MooreLocal>,
    last: Option<u32>,
    out: &mut K,
) -> Status
    requires dead { automaton.edge ≡ 0 }
    requires limits { IfSome last (λ n. (1 ≤ n) × (n ≤ 1000000)) }
    ensures ends { let a = automaton in (margin : ℕ) (input : List ℕ)
        → source_of margin input
        ≡ Ok (Eight a.local (box_of a.kind a.wrap a.width a.height) a.cells.items)
        → EndsAs (automaton_call margin last input)
        (writes K.written K.faults out.old out.new) result }
    ensures quiet { IsQuiet result → out.new ≡ out.old }
{
    write_source(alloc, automaton, last, out)
}

fn compile_table<K: Sink>(
    alloc: Global,
    input: Vec<u8>,
    margin: u32,
    last: Option<u32>,
    out: &mut K,
) -> Status
    requires table { is_table input.items ≡ true }
    requires small { length input.items ≤ 268435456 }
    requires within { AreWithin margin last }
    ensures ends { EndsAs (automaton_call margin last input.items)
        (writes K.written K.faults out.old out.new) result }
    ensures quiet { IsQuiet result → out.new ≡ out.old }
{
    match read_table(alloc, &input, margin) {
        Ok(automaton) => {
            drop(input);
            write_colony(alloc, automaton, last, out)
        }
        Err(error) => refused_source(error),
    }
}

fn compile_pattern<K: Sink>(
    alloc: Global,
    input: Vec<u8>,
    margin: u32,
    last: Option<u32>,
    out: &mut K,
) -> Status
    requires pattern { is_table input.items ≡ false }
    requires small { length input.items ≤ 268435456 }
    requires within { AreWithin margin last }
    ensures ends { EndsAs (automaton_call margin last input.items)
        (writes K.written K.faults out.old out.new) result }
    ensures quiet { IsQuiet result → out.new ≡ out.old }
{
    match read_rle(alloc, &input, margin) {
        Ok(Pattern::Count(automaton)) => {
            drop(input);
            write_colony(alloc, automaton, last, out)
        }
        Ok(Pattern::Moore(automaton)) => {
            drop(input);
            write_eight(alloc, automaton, last, out)
        }
        Err(error) => refused_source(error),
    }
}

/// Writes the surface of the automaton that a text spells, with a margin so wide: its manifest.
/// Where a last generation is given, its runs end there.
pub fn compile_source<K: Sink>(
    alloc: Global,
    input: Vec<u8>,
    margin: u32,
    last: Option<u32>,
    out: &mut K,
) -> Status
    requires small { length input.items ≤ 268435456 }
    requires within { AreWithin margin last }
    ensures ends { EndsAs (automaton_call margin last input.items)
        (writes K.written K.faults out.old out.new) result }
    ensures quiet { IsQuiet result → out.new ≡ out.old }
{
    if is_table(&input) {
        compile_table(alloc, input, margin, last, out)
    } else {
        compile_pattern(alloc, input, margin, last, out)
    }
}
