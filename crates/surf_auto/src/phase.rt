// One phase of a step, in which all cells take their next state at once.
ghost use Rattle.std.specs.Prelude.{◌≡◌, ℕ, ◌+◌, ◌*◌, ◌<◌, ◌≤◌, length, map, slice_index};
ghost use Rattle.surf_lattice.specs.Grids.{IsInside, degree, neighbour, place, site_at, sites};
ghost use Rattle.surf_auto.specs.Locals.{gathered};
ghost use Rattle.surf_auto.specs.Places.{IsInner, IsNextBelow, next_by_places};
ghost use Rattle.surf_auto.specs.Sync.{IsUniverse, StandsIn, next_state, seen, seen_at, state_at, sync, universe};

use crate::Local;
use std::mem;
use surf_lattice::{Lattice, Site};

// The state in a direction: that of the neighbour, or the edge state where there is none.
fn state_seen<G: Lattice>(grid: &G, edge: u32, cells: &[u32], site: Site, direction: u32) -> u32
    requires size { length cells.now ≡ (G.grid grid.now).width * (G.grid grid.now).height }
    requires few { length cells.now ≤ 1000000 }
    requires inside { IsInside (G.grid grid.now) site }
    requires direction { direction < degree (G.grid grid.now).kind }
    ensures { result ≡ seen_at edge (λ s. slice_index cells.now (place (G.grid grid.now) s))
        (neighbour (G.grid grid.now) site direction) }
{
    match grid.neighbour(site, direction) {
        Some(next) => cells[next.y as usize * grid.width() as usize + next.x as usize],
        None => edge,
    }
}

// What a cell gathers in a phase.
fn gather<G: Lattice, L: Local>(
    grid: &G,
    local: &L,
    phase: u32,
    edge: u32,
    cells: &[u32],
    site: Site,
) -> u32
    requires stands { StandsIn
        (universe (G.grid grid.now) (L.rule local.now) edge cells.now) phase }
    requires inside { IsInside (G.grid grid.now) site }
    ensures gathered { let U = universe (G.grid grid.now) (L.rule local.now) edge cells.now in
        result ≡ gathered (L.rule local.now) phase (seen U (state_at U) site) (degree (G.grid grid.now).kind) }
    ensures within { result < (L.rule local.now).accs phase (L.rule local.now).degree }
{
    let mut acc = local.start(phase);
    for direction in 0..local.degree() {
        let state = state_seen(grid, edge, cells, site, direction);
        acc = local.add(phase, acc, direction, state);
    }
    acc
}

// The next state of the cell at a place.
fn next_at<G: Lattice, L: Local>(
    grid: &G,
    local: &L,
    phase: u32,
    edge: u32,
    cells: &[u32],
    place: usize,
) -> u32
    requires stands { StandsIn
        (universe (G.grid grid.now) (L.rule local.now) edge cells.now) phase }
    requires listed { place < length cells.now }
    ensures { let U = universe (G.grid grid.now) (L.rule local.now) edge cells.now in
        result ≡ next_state U phase (state_at U) (site_at (G.grid grid.now) place) }
{
    let width = grid.width() as usize;
    let site = Site {
        x: (place % width) as u32,
        y: (place / width) as u32,
    };
    let acc = gather(grid, local, phase, edge, cells, site);
    local.finish(phase, cells[place], acc)
}

// The same where the neighbours stand at fixed distances from the place.
fn next_inside<L: Local>(local: &L, phase: u32, cells: &[u32], width: usize, place: usize) -> u32
    requires phase { phase < (L.rule local.now).phases }
    requires inner { IsInner width (length cells.now) place }
    requires states { (i : ℕ) → i < length cells.now
        → slice_index cells.now i < (L.rule local.now).states phase }
    ensures { result ≡ next_by_places (L.rule local.now) phase cells.now width place }
{
    let is_six = local.degree() == 6;
    let mut acc = local.start(phase);
    acc = local.add(phase, acc, 0, cells[place - 1]);
    acc = local.add(phase, acc, 1, cells[place + 1]);
    acc = local.add(phase, acc, 2, cells[place - width]);
    acc = local.add(phase, acc, 3, cells[place + width]);
    if is_six {
        acc = local.add(phase, acc, 4, cells[place - width - 1]);
        acc = local.add(phase, acc, 5, cells[place + width + 1]);
    }
    local.finish(phase, cells[place], acc)
}

// Writes the next states of one row. Those of the rows above are written.
fn write_row<G: Lattice, L: Local>(
    grid: &G,
    local: &L,
    phase: u32,
    edge: u32,
    cells: &[u32],
    row: usize,
    next: &mut [u32],
)
    requires stands { StandsIn
        (universe (G.grid grid.now) (L.rule local.now) edge cells.now) phase }
    requires row { row < (G.grid grid.now).height }
    requires room { length next.old ≡ length cells.now }
    requires above { IsNextBelow
        (universe (G.grid grid.now) (L.rule local.now) edge cells.now) phase next.old
        (row * (G.grid grid.now).width) }
    ensures { IsNextBelow (universe (G.grid grid.now)
        (L.rule local.now) edge cells.now) phase next.new ((row + 1) * (G.grid grid.now).width) }
{
    let width = grid.width() as usize;
    let height = grid.height() as usize;
    let first = row * width;
    let is_between = 0 < row && row + 1 < height;
    for x in 0..width {
        let place = first + x;
        next[place] = if is_between && 0 < x && x + 1 < width {
            next_inside(local, phase, cells, width, place)
        } else {
            next_at(grid, local, phase, edge, cells, place)
        };
    }
}

// Writes the cells after a phase.
fn write_phase<G: Lattice, L: Local>(
    grid: &G,
    local: &L,
    phase: u32,
    edge: u32,
    cells: &[u32],
    next: &mut [u32],
)
    requires stands { StandsIn
        (universe (G.grid grid.now) (L.rule local.now) edge cells.now) phase }
    requires room { length next.old ≡ length cells.now }
    ensures { let U = universe (G.grid grid.now) (L.rule local.now) edge cells.now in
        next.new ≡ map (next_state U phase (state_at U)) (sites (G.grid grid.now)) }
{
    let height = grid.height() as usize;
    for row in 0..height {
        write_row(grid, local, phase, edge, cells, row, next);
    }
}

/// Takes all phases of a step. The spare cells are as many as the cells.
pub fn take_step<G: Lattice, L: Local>(
    grid: &G,
    local: &L,
    edge: u32,
    cells: &mut Vec<u32>,
    spare: &mut Vec<u32>,
)
    requires stands { IsUniverse
        (universe (G.grid grid.now) (L.rule local.now) edge cells.old.items) }
    requires room { length spare.old.items ≡ length cells.old.items }
    ensures cells { let U = universe (G.grid grid.now) (L.rule local.now) edge cells.old.items in
        cells.new.items ≡ map (sync U 1) (sites (G.grid grid.now)) }
    ensures room { length spare.new.items ≡ length cells.new.items }
{
    for phase in 0..local.phases() {
        write_phase(grid, local, phase, edge, cells, spare);
        mem::swap(cells, spare);
    }
}

/// Takes so many steps. The spare cells are as many as the cells.
pub fn take_steps<G: Lattice, L: Local>(
    grid: &G,
    local: &L,
    edge: u32,
    times: u32,
    cells: &mut Vec<u32>,
    spare: &mut Vec<u32>,
)
    requires stands { IsUniverse
        (universe (G.grid grid.now) (L.rule local.now) edge cells.old.items) }
    requires room { length spare.old.items ≡ length cells.old.items }
    ensures cells { let U = universe (G.grid grid.now) (L.rule local.now) edge cells.old.items in
        cells.new.items ≡ map (sync U times) (sites (G.grid grid.now)) }
    ensures stands { IsUniverse
        (universe (G.grid grid.now) (L.rule local.now) edge cells.new.items) }
{
    for _step in 0..times {
        take_step(grid, local, edge, cells, spare);
    }
}
