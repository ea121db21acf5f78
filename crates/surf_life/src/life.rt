// Steps of eight neighbours from the cells of an automaton.
ghost use Rattle.std.specs.Prelude.{◌≡◌, ℕ, ◌+◌, ◌*◌, ◌≤◌, IfOk, OnErr, OnOk, length, map, slice_index};
ghost use Rattle.surf_auto.specs.Sync.{box_of, sync, universe};
ghost use Rattle.surf_lattice.specs.Grids.{sites};
ghost use Rattle.surf_life.specs.Halves.{moore_rule};
ghost use Rattle.surf_life.specs.Moore.{moore_sync};
ghost use Rattle.surf_life.specs.Rows.{AreTwo, IsTableOf, square_of};

use crate::MooreLocal;
use crate::rows::{Sides, write_step};
use std::alloc::Global;
use std::mem;
use surf_auto::Automaton;
use surf_base::NoMemory;

// The next states of dead and of live cells, by the count of live neighbours.
fn table_of(local: &MooreLocal) -> [u8; 18]
    ensures table { IsTableOf local.now result }
    ensures few { length result ≡ 18 }
{
    let mut table = [0; 18];
    for own in 0..2 {
        for count in 0..9 {
            table[(own * 9 + count) as usize] = local.next(own, count) as u8;
        }
    }
    table
}

// As many cells, all dead.
fn dead_cells(alloc: Global, count: usize) -> Result<Vec<u8>, NoMemory>
    ensures size { IfOk result (λ v. length v.items ≡ count) }
    ensures dead { IfOk result (λ v. (i : ℕ) → slice_index v.items i ≡ 0) }
{
    vec![in alloc; 0u8; count].map_err(|_| NoMemory)
}

// The cells as bytes.
fn as_bytes(alloc: Global, cells: &[u32]) -> Result<Vec<u8>, NoMemory>
    requires { AreTwo cells.now }
    ensures { IfOk result (λ v. v.items ≡ cells.now) }
{
    let mut bytes = dead_cells(alloc, cells.len())?;
    for place in 0..cells.len() {
        bytes[place] = cells[place] as u8;
    }
    Ok(bytes)
}

// Writes bytes into cells.
fn write_back(bytes: &[u8], cells: &mut [u32])
    requires { length cells.old ≡ length bytes.now }
    ensures { cells.new ≡ bytes.now }
{
    for place in 0..bytes.len() {
        cells[place] = u32::from(bytes[place]);
    }
}

// Takes so many steps. The spare cells are as many as the cells.
fn repeat(
    local: &MooreLocal,
    dead: &[u8],
    sides: Sides,
    times: u32,
    sums: &mut [u8],
    keys: &mut [u8],
    cells: &mut Vec<u8>,
    spare: &mut Vec<u8>,
)
    requires size { length cells.old.items ≡ sides.width * sides.height }
    requires high { sides.height ≤ 1000000 }
    requires some { 1 ≤ sides.width }
    requires two { AreTwo cells.old.items }
    requires wide { length dead.now ≡ sides.width }
    requires dead { (i : ℕ) → slice_index dead.now i ≡ 0 }
    requires sums { length sums.old ≡ sides.width + 2 }
    requires keys { length keys.old ≡ sides.width }
    requires room { length spare.old.items ≡ length cells.old.items }
    ensures { let g = square_of sides.wrap sides.width sides.height in
        cells.new.items ≡ map (moore_sync local.now g cells.old.items times) (sites g) }
{
    let table = table_of(local);
    for _step in 0..times {
        write_step(cells, &table, dead, sides, sums, keys, spare);
        mem::swap(cells, spare);
    }
}

// The cells after so many steps, as bytes.
fn bytes_after(
    alloc: Global,
    automaton: &Automaton<MooreLocal>,
    times: u32,
) -> Result<Vec<u8>, NoMemory>
    requires { automaton.now.edge ≡ 0 }
    ensures { let a = automaton.now in let g = box_of a.kind a.wrap a.width a.height in
        IfOk result (λ v. v.items ≡ map (moore_sync a.local g a.cells.items times) (sites g)) }
{
    let sides = Sides {
        wrap: automaton.wrap,
        width: automaton.width as usize,
        height: automaton.height as usize,
    };
    let mut bytes = as_bytes(alloc, &automaton.cells)?;
    let mut spare = dead_cells(alloc, bytes.len())?;
    let dead = dead_cells(alloc, sides.width)?;
    let mut sums = dead_cells(alloc, sides.width + 2)?;
    let mut keys = dead_cells(alloc, sides.width)?;
    let local = &automaton.local;
    repeat(
        local, &dead, sides, times, &mut sums, &mut keys, &mut bytes, &mut spare,
    );
    Ok(bytes)
}

/// Takes so many steps of eight neighbours, about which all is dead. They are those of
/// `Automaton::advance`, taken by whole rows over cells of one byte each. On `NoMemory` nothing is
/// changed.
pub fn advance_moore(
    alloc: Global,
    automaton: &mut Automaton<MooreLocal>,
    times: u32,
) -> Result<(), NoMemory>
    requires edge { automaton.old.edge ≡ 0 }
    ensures eight { let a = automaton.old in let g = box_of a.kind a.wrap a.width a.height in
        OnOk result (automaton.new.cells.items
        ≡ map (moore_sync a.local g a.cells.items times) (sites g)) }
    ensures cells { let a = automaton.old in
        let g = box_of a.kind a.wrap a.width a.height in
        let U = universe g (moore_rule a.local) a.edge a.cells.items in
        OnOk result (automaton.new.cells.items ≡ map (sync U times) (sites g)) }
    ensures kind { automaton.new.kind ≡ automaton.old.kind }
    ensures wrap { automaton.new.wrap ≡ automaton.old.wrap }
    ensures width { automaton.new.width ≡ automaton.old.width }
    ensures height { automaton.new.height ≡ automaton.old.height }
    ensures edge { automaton.new.edge ≡ automaton.old.edge }
    ensures local { automaton.new.local ≡ automaton.old.local }
    ensures refused { OnErr result (automaton.new ≡ automaton.old) }
{
    let bytes = bytes_after(alloc, automaton, times)?;
    write_back(&bytes, &mut automaton.cells);
    Ok(())
}
