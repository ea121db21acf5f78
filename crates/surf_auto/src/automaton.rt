// Automata: cells in a box or on a torus, and their steps.
ghost use Rattle.std.specs.Prelude.{◌≡◌, IfOk, OnOk, OnErr, length, map};
ghost use Rattle.surf_lattice.specs.AnyGrid.{grid_of};
ghost use Rattle.surf_lattice.specs.Grids.{sites};
ghost use Rattle.surf_auto.specs.Sync.{IsUniverse, box_of, sync, universe};

use crate::Local;
use crate::phase::{take_step, take_steps};
use std::alloc::Global;
use surf_base::NoMemory;
use surf_lattice::{Grid, GridKind};

/// Cells in a box of at most 1,000,000 sites, in row-major order. All beyond the box keeps the edge
/// state. Where `wrap` is true the box is a torus, beyond which nothing lies; its sides are multiples
/// of 5 (four neighbours) or 7 (six).
#[derive(Debug, Drop)]
pub struct Automaton<L: Local> {
    pub kind: GridKind,
    pub wrap: bool,
    pub width: u32,
    pub height: u32,
    pub edge: u32,
    pub cells: Vec<u32>,
    pub local: L,
    ghost stands: { IsUniverse (universe (box_of kind wrap width height) (L.rule local) edge cells.items) },
}

// As many cells, in which the next states are written.
fn blank(alloc: Global, count: usize) -> Result<Vec<u32>, NoMemory>
    ensures { IfOk result (λ v. length v.items ≡ count) }
{
    vec![in alloc; 0u32; count].map_err(|_| NoMemory)
}

/// The cells after one step, in which all cells take their next state at once.
pub fn step<L: Local>(alloc: Global, automaton: &Automaton<L>) -> Result<Vec<u32>, NoMemory>
    ensures { let a = automaton.now in
        let U = universe (box_of a.kind a.wrap a.width a.height) (L.rule a.local) a.edge a.cells.items in
        IfOk result (λ v. v.items ≡ map (sync U 1) (sites U.grid)) }
{
    let mut cells = Vec::from_slice(alloc, &automaton.cells).map_err(|_| NoMemory)?;
    let mut spare = blank(alloc, cells.len())?;
    let grid = automaton.grid();
    take_step(
        &grid,
        &automaton.local,
        automaton.edge,
        &mut cells,
        &mut spare,
    );
    Ok(cells)
}

impl<L: Local> Automaton<L> {
    /// The grid of the box.
    pub fn grid(&self) -> Grid
        ensures { grid_of result ≡ box_of self.now.kind self.now.wrap self.now.width self.now.height }
    {
        Grid::new(self.kind, self.wrap, self.width, self.height).unwrap()
    }

    /// Takes so many steps, in the cells and one second surface of their size. On `NoMemory` nothing
    /// is changed.
    pub fn advance(&mut self, alloc: Global, times: u32) -> Result<(), NoMemory>
        ensures cells { let a = self.old in
            let U = universe (box_of a.kind a.wrap a.width a.height) (L.rule a.local) a.edge a.cells.items in
            OnOk result (self.new.cells.items ≡ map (sync U times) (sites U.grid)) }
        ensures kind { self.new.kind ≡ self.old.kind }
        ensures wrap { self.new.wrap ≡ self.old.wrap }
        ensures width { self.new.width ≡ self.old.width }
        ensures height { self.new.height ≡ self.old.height }
        ensures edge { self.new.edge ≡ self.old.edge }
        ensures local { self.new.local ≡ self.old.local }
        ensures refused { OnErr result (self.new ≡ self.old) }
    {
        if times == 0 {
            return Ok(());
        }
        let mut spare = blank(alloc, self.cells.len())?;
        let grid = self.grid();
        take_steps(
            &grid,
            &self.local,
            self.edge,
            times,
            &mut self.cells,
            &mut spare,
        );
        Ok(())
    }
}
