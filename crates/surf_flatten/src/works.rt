// What models cost, with nothing placed. Sums stop at the greatest u128.
ghost use Rattle.std.specs.Prelude.{◌≡◌, ◌+◌, ◌<◌, ◌^◌, IfOk, length, map, sum, true, false};
ghost use Rattle.std.specs.List.{All};
ghost use Rattle.surf_logic.specs.Equations.{capped, equation_cost, literal_cost, row_cost};
ghost use Rattle.surf_flatten.specs.Laws.{HasWorks, Settled};
ghost use Rattle.surf_flatten.specs.Substituted.{equation_work};
ghost use Rattle.surf_flatten.specs.Tables.{AreWithin, Finds, place_in};
ghost use Rattle.surf_flatten.specs.Works.{work_in};

use crate::models::{Cover, Item, Model};
use crate::places::Places;
use std::alloc::Global;
use surf_base::NoMemory;
use surf_logic::{Literal, Row};

// The most inputs of an equation of a placed model that cost nothing more.
const WIDTH_LIMIT: usize = 1_000;

// What an equation costs more where it is wider.
const WIDE_COST: u128 = 1_001;

fn literal_work(literal: Literal) -> u128
    ensures { result ≡ literal_cost literal }
{
    match literal {
        Literal::Zero | Literal::One => 1,
        Literal::Any => 0,
    }
}

fn row_work(literals: &[Literal]) -> u128
    ensures { result ≡ capped (row_cost literals.now) }
{
    let mut work = 1u128;
    for literal in literals {
        work = work.saturating_add(literal_work(*literal));
    }
    work
}

fn rows_work(rows: &[Row]) -> u128
    ensures { result ≡ capped (1 + sum (map row_cost rows.now)) }
{
    let mut work = 1u128;
    for row in rows {
        work = work.saturating_add(row_work(row.literals()));
    }
    work
}

fn cover_work(inside: bool, cover: &Cover) -> u128
    ensures { result ≡ capped (equation_work inside cover.now) }
{
    let work = rows_work(cover.rows());
    if inside && cover.inputs().len() > WIDTH_LIMIT {
        work.saturating_add(WIDE_COST)
    } else {
        work
    }
}

fn item_work(library: &Places, table: &[u128], inside: bool, item: &Item) -> u128
    requires { AreWithin (length table.now) library.now }
    ensures { result ≡ capped (work_in (place_in library.now) table.now inside item.now) }
{
    match item {
        Item::Cover(cover) => cover_work(inside, cover),
        Item::Place(placing) => match library.place(placing.model()) {
            Some(place) => table[place].saturating_add(1),
            None => 1,
        },
    }
}

// The work of items, by that of the models that they place.
pub(crate) fn items_work(library: &Places, table: &[u128], inside: bool, items: &[Item]) -> u128
    requires { AreWithin (length table.now) library.now }
    ensures { result
        ≡ capped (sum (map (work_in (place_in library.now) table.now inside) items.now)) }
{
    let mut work = 0u128;
    for item in items {
        work = work.saturating_add(item_work(library, table, inside, item));
    }
    work
}

// The works of these models, each of which stands before those that it places.
pub(crate) fn works_of(
    alloc: Global,
    models: &[Model],
    library: &Places,
    done: &[usize],
) -> Result<Vec<u128>, NoMemory>
    requires library { Finds models.now library.now }
    requires settled { Settled models.now done.now }
    requires within { All (λ k. k < length models.now) done.now }
    ensures works { IfOk result (λ table. HasWorks models.now table.items done.now) }
    ensures length { IfOk result (λ table. length table.items ≡ length models.now) }
{
    let mut table = vec![in alloc; 0u128; models.len()].map_err(|_| NoMemory)?;
    for count in 0..done.len() {
        let place = done[done.len() - 1 - count];
        table[place] = items_work(library, &table, true, models[place].items());
    }
    Ok(table)
}
