// Automata compiled.
ghost use Rattle.std.specs.Prelude.{◌≡◌, ◌*◌, ◌≤◌, IfOk, None, Option, Some, [], ℕ};
ghost use Rattle.surf_auto.specs.Locals.{rule_count, rule_count_in};
ghost use Rattle.surf_auto.specs.Sync.{box_of, universe};
ghost use Rattle.surf_colony.specs.Colonies.{StartsWithin, framed, printed};
ghost use Rattle.surf_colony.specs.InStep.{KeepsInStep};
ghost use Rattle.surf_colony.specs.Parts.{AreParts};
ghost use Rattle.surf_lattice.specs.AnyGrid.{grid_of};
ghost use Rattle.surf_sync.specs.Codes.{protocol};
ghost use Rattle.surf_sync.specs.Listing.{Say};
ghost use Rattle.surf_sync.specs.Rules.{sync_rules};

use crate::start::{border, start_numbers};
use std::alloc::Global;
use surf_auto::{Automaton, Local};
use surf_base::NoMemory;
use surf_lattice::Grid;
use surf_manifest::Manifest;
use surf_rules::{Names, Rule};
use surf_sync::{sync_rules, sync_rules_last};

// The grid of a colony: the box and, where its sides aren't joined, a frame about it.
fn framed<L: Local>(automaton: &Automaton<L>) -> Grid
    ensures { let a = automaton.now in
        grid_of result ≡ framed (box_of a.kind a.wrap a.width a.height) }
{
    let frame = 2 * border(automaton.wrap);
    let (width, height) = (automaton.width + frame, automaton.height + frame);
    Grid::new(automaton.kind, automaton.wrap, width, height).unwrap()
}

// The colony with these names and rules.
fn assemble<L: Local>(
    alloc: Global,
    automaton: &Automaton<L>,
    mut names: Names,
    rules: Vec<Rule>,
) -> Result<Manifest, NoMemory>
    requires { AreParts names rules.items }
    ensures system { let a = automaton.now in
        let box = box_of a.kind a.wrap a.width a.height in
        let U = universe box (L.rule a.local) a.edge a.cells.items in
        IfOk result (λ m. (last : Option ℕ) →
        Say names rules.items (sync_rules (protocol U.rule U.edge last)) →
        m.text.system ≡ printed U last) }
    ensures options { IfOk result (λ m. m.text.options ≡ []) }
    ensures colormap { IfOk result (λ m. m.text.colormap ≡ None) }
{
    let grid = framed(automaton);
    let start = start_numbers(alloc, automaton, &grid, &mut names)?;
    Ok(Manifest::assemble(alloc, grid, names, rules, start))
}

/// The colony of an automaton: a surface on which its cells keep in step without a clock.
pub fn compile_automaton<L: Local>(
    alloc: Global,
    automaton: &Automaton<L>,
) -> Result<Manifest, NoMemory>
    requires starts { let a = automaton.now in
        let box = box_of a.kind a.wrap a.width a.height in
        StartsWithin (universe box (L.rule a.local) a.edge a.cells.items) }
    requires few { rule_count (L.rule automaton.now.local) ≤ 1048576 }
    ensures colony { let a = automaton.now in
        let box = box_of a.kind a.wrap a.width a.height in
        let U = universe box (L.rule a.local) a.edge a.cells.items in
        IfOk result (λ m. m.text.system ≡ printed U None) }
    ensures in_step { let a = automaton.now in
        let box = box_of a.kind a.wrap a.width a.height in
        let U = universe box (L.rule a.local) a.edge a.cells.items in
        IfOk result (λ m. KeepsInStep U None m.text.system) }
    ensures options { IfOk result (λ m. m.text.options ≡ []) }
    ensures colormap { IfOk result (λ m. m.text.colormap ≡ None) }
{
    let mut names = Names::new(alloc);
    let local = &automaton.local;
    let rules = sync_rules(alloc, local, automaton.edge, local.degree(), &mut names)?;
    assemble(alloc, automaton, names, rules)
}

/// The colony of an automaton that ends after so many steps, from 1 to 1,000,000.
pub fn compile_last<L: Local>(
    alloc: Global,
    automaton: &Automaton<L>,
    last: u32,
) -> Result<Manifest, NoMemory>
    requires starts { let a = automaton.now in
        let box = box_of a.kind a.wrap a.width a.height in
        StartsWithin (universe box (L.rule a.local) a.edge a.cells.items) }
    requires some { 1 ≤ last }
    requires limit { last ≤ 1000000 }
    requires few { rule_count_in last (L.rule automaton.now.local) ≤ 1048576 }
    ensures colony { let a = automaton.now in
        let box = box_of a.kind a.wrap a.width a.height in
        let U = universe box (L.rule a.local) a.edge a.cells.items in
        IfOk result (λ m. m.text.system ≡ printed U (Some (last * U.rule.phases))) }
    ensures in_step { let a = automaton.now in
        let box = box_of a.kind a.wrap a.width a.height in
        let U = universe box (L.rule a.local) a.edge a.cells.items in
        IfOk result (λ m. KeepsInStep U (Some (last * U.rule.phases)) m.text.system) }
    ensures options { IfOk result (λ m. m.text.options ≡ []) }
    ensures colormap { IfOk result (λ m. m.text.colormap ≡ None) }
{
    let mut names = Names::new(alloc);
    let local = &automaton.local;
    let rules = sync_rules_last(
        alloc,
        local,
        automaton.edge,
        local.degree(),
        last,
        &mut names,
    )?;
    assemble(alloc, automaton, names, rules)
}
