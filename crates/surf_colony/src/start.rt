// What stands on a colony at first.
ghost use Rattle.std.specs.Prelude.{◌≡◌, ◌+◌, ◌*◌, ◌<◌, ◌≤◌, ◌^◌, ◌-◌, ◌++◌, ◌∷◌, [], IfOk, None, OnOk, Some, length, map, replicate, slice_get, true};
ghost use Rattle.std.specs.List.{list_all};
ghost use Rattle.surf_auto.specs.Sync.{box_of, universe};
ghost use Rattle.surf_colony.specs.Colonies.{border, first_mark, framed};
ghost use Rattle.surf_colony.specs.Numbers.{SlotsName, cell_place, cell_state, name_slot, slot_count};
ghost use Rattle.surf_lattice.specs.AnyGrid.{grid_of};
ghost use Rattle.surf_lattice.specs.Grids.{IsInside, site_at, sites};
ghost use Rattle.surf_manifest_lines.specs.Item.{is_name};
ghost use Rattle.surf_sync.specs.Listing.{Keeps, Name};
ghost use Rattle.surf_sync.specs.Spelling.{spell};

use std::alloc::Global;
use surf_auto::{Automaton, Local};
use surf_base::NoMemory;
use surf_lattice::{Grid, Lattice, Site};
use surf_rules::Names;
use surf_sync::{Code, frame_name, name_of};

/// How wide the frame is: a torus has none.
pub fn border(wrap: bool) -> u32
    ensures border { result ≡ border wrap }
    ensures narrow { result ≤ 1 }
{
    if wrap { 0 } else { 1 }
}

// The place of the cell that stands at a site, where one does.
fn cell_place<L: Local>(automaton: &Automaton<L>, site: Site) -> Option<usize>
    ensures { let a = automaton.now in
        result ≡ cell_place (box_of a.kind a.wrap a.width a.height) site }
{
    let border = border(automaton.wrap);
    if site.x < border || site.y < border {
        return None;
    }
    let (x, y) = (site.x - border, site.y - border);
    if x >= automaton.width || y >= automaton.height {
        return None;
    }
    Some(y as usize * automaton.width as usize + x as usize)
}

// The start state of the cell at a site, where one stands there.
fn first_state<L: Local>(automaton: &Automaton<L>, site: Site) -> Option<u32>
    ensures { let a = automaton.now in
        let box = box_of a.kind a.wrap a.width a.height in
        let U = universe box (L.rule a.local) a.edge a.cells.items in
        result ≡ cell_state U site }
{
    let place = cell_place(automaton, site)?;
    let state = automaton.cells[place];
    Some(state)
}

// The name at a site.
fn first_name<L: Local>(
    alloc: Global,
    automaton: &Automaton<L>,
    grid: &Grid,
    site: Site,
) -> Result<Vec<u8>, NoMemory>
    requires grid { let a = automaton.now in
        grid_of grid.now ≡ framed (box_of a.kind a.wrap a.width a.height) }
    requires inside { IsInside (grid_of grid.now) site }
    ensures { let a = automaton.now in
        let box = box_of a.kind a.wrap a.width a.height in
        let U = universe box (L.rule a.local) a.edge a.cells.items in
        IfOk result (λ v. v.items ≡ spell (first_mark U site)) }
{
    let colour = grid.colour(site);
    let Some(state) = first_state(automaton, site) else {
        return frame_name(alloc, colour);
    };
    let code = Code {
        current: state,
        generation: 0,
        colour,
        previous: state,
        reads: 0,
        acc: automaton.local.start(0),
    };
    let name = name_of(alloc, &code)?;
    Ok(name)
}

// The slot of the name at a site: names at the start differ by the state of a cell, or by being the
// frame's, and by colour.
fn name_slot<L: Local>(automaton: &Automaton<L>, grid: &Grid, site: Site) -> usize
    requires grid { let a = automaton.now in
        grid_of grid.now ≡ framed (box_of a.kind a.wrap a.width a.height) }
    requires inside { IsInside (grid_of grid.now) site }
    ensures slot { let a = automaton.now in
        let box = box_of a.kind a.wrap a.width a.height in
        let U = universe box (L.rule a.local) a.edge a.cells.items in
        result ≡ name_slot U site }
    ensures within { let a = automaton.now in
        let box = box_of a.kind a.wrap a.width a.height in
        let U = universe box (L.rule a.local) a.edge a.cells.items in
        result < slot_count U }
{
    let states = automaton.local.states(0);
    let row = first_state(automaton, site).unwrap_or(states);
    row as usize * grid.colours() as usize + grid.colour(site) as usize
}

// So many slots in which no number stands.
fn empty_slots(alloc: Global, count: usize) -> Result<Vec<Option<u32>>, NoMemory>
    ensures { IfOk result (λ v. v.items ≡ replicate count None) }
{
    vec![in alloc; None; count].map_err(|_| NoMemory)
}

// The number of the name at a site. The name is spelled and looked up only where its slot is empty.
fn first_number<L: Local>(
    alloc: Global,
    automaton: &Automaton<L>,
    grid: &Grid,
    site: Site,
    slots: &mut [Option<u32>],
    names: &mut Names,
) -> Result<u32, NoMemory>
    requires grid { let a = automaton.now in
        grid_of grid.now ≡ framed (box_of a.kind a.wrap a.width a.height) }
    requires inside { IsInside (grid_of grid.now) site }
    requires slots { let a = automaton.now in
        let box = box_of a.kind a.wrap a.width a.height in
        let U = universe box (L.rule a.local) a.edge a.cells.items in
        length slots.old ≡ slot_count U }
    requires named { let a = automaton.now in
        let box = box_of a.kind a.wrap a.width a.height in
        let U = universe box (L.rule a.local) a.edge a.cells.items in
        SlotsName U names.old slots.old }
    requires room { length names.old < 2 ^ 32 - 1 }
    requires texts { list_all is_name names.old ≡ true }
    ensures number { let a = automaton.now in
        let box = box_of a.kind a.wrap a.width a.height in
        let U = universe box (L.rule a.local) a.edge a.cells.items in
        IfOk result (λ n. slice_get names.new n ≡ Some (spell (first_mark U site))) }
    ensures named { let a = automaton.now in
        let box = box_of a.kind a.wrap a.width a.height in
        let U = universe box (L.rule a.local) a.edge a.cells.items in
        OnOk result (SlotsName U names.new slots.new) }
    ensures texts { OnOk result (list_all is_name names.new ≡ true) }
    ensures few { length names.new ≤ length names.old + 1 }
    ensures keeps { Keeps names.old names.new }
{
    let slot = name_slot(automaton, grid, site);
    if let Some(number) = slots[slot] {
        return Ok(number);
    }
    let name = first_name(alloc, automaton, grid, site)?;
    let number = names.intern(&name)?;
    slots[slot] = Some(number);
    Ok(number)
}

/// The number of the name at each site, in row-major order. Each name is spelled and looked up
/// once.
pub fn start_numbers<L: Local>(
    alloc: Global,
    automaton: &Automaton<L>,
    grid: &Grid,
    names: &mut Names,
) -> Result<Vec<u32>, NoMemory>
    requires grid { let a = automaton.now in
        grid_of grid.now ≡ framed (box_of a.kind a.wrap a.width a.height) }
    requires sites { (grid_of grid.now).width * (grid_of grid.now).height ≤ 33554432 }
    requires room { length names.old ≤ 2147483648 }
    requires texts { list_all is_name names.old ≡ true }
    ensures start { let a = automaton.now in
        let box = box_of a.kind a.wrap a.width a.height in
        let U = universe box (L.rule a.local) a.edge a.cells.items in
        IfOk result (λ v. Name names.new v.items
        (map (λ s. spell (first_mark U s)) (sites (framed U.grid)))) }
    ensures texts { OnOk result (list_all is_name names.new ≡ true) }
    ensures keeps { Keeps names.old names.new }
{
    let width = grid.width() as usize;
    let count = width * grid.height() as usize;
    let states = automaton.local.states(0) as usize;
    let mut slots = empty_slots(alloc, (states + 1) * grid.colours() as usize)?;
    let mut start = Vec::with_capacity(alloc, count).map_err(|_| NoMemory)?;
    for place in 0..count {
        let site = Site {
            x: (place % width) as u32,
            y: (place / width) as u32,
        };
        let number = first_number(alloc, automaton, grid, site, &mut slots, names)?;
        push(&mut start, number)?;
    }
    Ok(start)
}

// Puts a number at the end of a list.
fn push(out: &mut Vec<u32>, number: u32) -> Result<(), NoMemory>
    ensures { OnOk result (out.new.items ≡ out.old.items ++ number ∷ []) }
{
    out.push(number).map_err(|_| NoMemory)
}
