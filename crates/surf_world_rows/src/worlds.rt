// Events of a small surface.
use crate::rules::rules;
use smallvec::SmallVec;
use std::alloc::Global;
use std::test::Fail;
use surf_lattice::{Grid, GridKind, Lattice, Site, Square};
use surf_world::{Event, World, choice_laws, renaming_laws};

const WEST: Site = Site { x: 0, y: 0 };

const EAST: Site = Site { x: 1, y: 0 };

fn neighbours<L: Lattice>(grid: &L, alloc: Global) -> SmallVec<Site, 6, Global> {
    let _width = grid.width();
    grid.neighbours(alloc, WEST)
}

#[test]
fn lists_neighbours_in_order(rt: HostRuntime) -> Result<(), Fail> {
    let grid = Grid::new(GridKind::Hex, true, 3, 4)?;
    let found = neighbours(&grid, rt.alloc());
    let wanted = [(2, 0), (1, 0), (0, 3), (0, 1), (2, 3), (1, 1)];
    assert!(rt; found.as_slice() == wanted.map(|(x, y)| Site { x, y }).as_slice());
    Ok(())
}

// Two sites that hold 7 and 5, and then 8 and 9.
#[test]
fn takes_an_event(rt: HostRuntime) -> Result<(), Fail> {
    choice_laws();
    renaming_laws();
    let start = vec![in rt.alloc(); 7, 5]?;
    let mut world = World::new(rt.alloc(), Square::new(2, 1), rules(rt.alloc())?, start)?;
    assert!(rt; world.weight_at(WEST) == 5);
    let pair = world.nth_at(WEST, 2);
    let wanted = Event {
        rule: 0,
        first: WEST,
        second: Some(EAST),
    };
    assert!(rt; pair == wanted && world.is_enabled(&pair));
    world.apply(&pair);
    assert!(rt; world.at(WEST) == 8 && world.at(EAST) == 9);
    assert!(rt; world.is_stuck());
    Ok(())
}
