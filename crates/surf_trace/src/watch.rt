// What is kept of each site while events happen: how many changes of its generation are still to
// come, and the state that the last of them brought.
ghost use Rattle.std.specs.Prelude.{ℕ, ◌≡◌, ◌*◌, ◌<◌, All, IfNone, IfOk, IfSome, Some, length, map, slice_get};
ghost use Rattle.std.specs.Option.{option_map};
ghost use Rattle.surf_lattice.specs.Grids.{IsInside, place};
ghost use Rattle.surf_world.specs.Renamings.{AreBelow};
ghost use Rattle.surf_world.specs.Systems.{Enabled, after};
ghost use Rattle.surf_trace.specs.Generations.{changed, state_of};
ghost use Rattle.surf_trace.specs.Sights.{seen, showing, showing_in};
ghost use Rattle.surf_trace.specs.Watching.{counted, first_kept, noted};

use crate::sight::{Sight, sight_in};
use std::alloc::Global;
use surf_base::NoMemory;
use surf_lattice::{Lattice, Site};
use surf_world::{Event, World};

/// So many changes are to come, and the state if none is.
#[derive(Clone, Copy)]
pub(crate) struct Kept {
    pub left: u64,
    pub state: Option<u32>,
}

fn first_kept(sight: Sight, k: u64) -> Kept
    ensures { result ≡ first_kept (showing sight) k }
{
    match sight {
        Sight::Cell { state, .. } if k == 0 => Kept {
            left: 0,
            state: Some(state),
        },
        Sight::Cell { .. } => Kept {
            left: k,
            state: None,
        },
        _ => Kept {
            left: 0,
            state: None,
        },
    }
}

/// What is kept of each site at first, by the name that it holds.
pub(crate) fn begin<L: Lattice>(
    alloc: Global,
    sights: &[Sight],
    world: &World<L>,
    k: u64,
) -> Result<Vec<Kept>, NoMemory>
    requires { All (λ m. m < length sights.now) world.now.names }
    ensures items { IfOk result (λ v. v.items
        ≡ map (λ m. first_kept (showing_in sights.now m) k) world.now.names) }
    ensures sites { IfOk result (λ v. length v.items
        ≡ world.now.surface.grid.width * world.now.surface.grid.height) }
{
    let mut all = Vec::with_capacity(alloc, world.site_count()).map_err(|_| NoMemory)?;
    for place in 0..world.site_count() {
        let sight = sight_in(sights, world.name_at(place));
        all.push(first_kept(sight, k)).map_err(|_| NoMemory)?;
    }
    Ok(all)
}

// The state of the generation that begins where the second sight follows the first.
fn begun(before: Sight, after: Sight) -> Option<u32>
    ensures none { IfNone result (changed (showing before) (showing after) ≡ 0) }
    ensures changed { IfSome result (λ s. changed (showing before) (showing after) ≡ 1) }
    ensures state { IfSome result (λ s. state_of (showing after) ≡ Some s) }
{
    match (before, after) {
        (
            Sight::Cell {
                generation: old,
                ..
            },
            Sight::Cell { state, generation },
        ) if old != generation => Some(state),
        _ => None,
    }
}

fn counted(kept: Kept, state: u32) -> Kept
    ensures { result ≡ counted kept.left kept.state (Some state) }
{
    match kept.left {
        0 => kept,
        1 => Kept {
            left: 0,
            state: Some(state),
        },
        left => Kept {
            left: left - 1,
            state: kept.state,
        },
    }
}

// Notes what a place showed and shows.
fn note(kept: &mut [Kept], place: usize, before: Sight, after: Sight)
    requires { place < length kept.old }
    ensures here { slice_get kept.new place
        ≡ option_map (λ x. noted x (showing before) (showing after)) (slice_get kept.old place) }
    ensures others { (p : ℕ) → (place ≡ p → ⊥) → slice_get kept.new p ≡ slice_get kept.old p }
{
    if let Some(state) = begun(before, after) {
        kept[place] = counted(kept[place], state);
    }
}

// What a site of a world tells.
fn sight_at<L: Lattice>(sights: &[Sight], world: &World<L>, site: Site) -> Sight
    requires inside { IsInside world.now.surface.grid site }
    requires below { All (λ m. m < length sights.now) world.now.names }
    ensures { showing result ≡ seen sights.now world.now (place world.now.surface.grid site) }
{
    sight_in(sights, world.at(site))
}

/// Takes an event, and notes what its sites showed and show.
pub(crate) fn follow<L: Lattice>(
    kept: &mut [Kept],
    sights: &[Sight],
    world: &mut World<L>,
    event: &Event,
)
    requires enabled { Enabled world.old.surface world.old.names event.now }
    requires below { AreBelow (length sights.now) world.old.surface world.old.names }
    requires sites { length kept.old
        ≡ world.old.surface.grid.width * world.old.surface.grid.height }
    ensures world { world.new
        ≡ record world.old { names = after world.old.surface world.old.names event.now } }
    ensures noted { (p : ℕ) → slice_get kept.new p
        ≡ option_map (λ x. noted x (seen sights.now world.old p) (seen sights.now world.new p))
        (slice_get kept.old p) }
{
    // the grid tells that a site is no neighbour of itself
    let _width = world.grid().width();
    let first = event.first;
    let before = sight_at(sights, world, first);
    match event.second {
        None => {
            world.apply(event);
            note(
                kept,
                world.place(first),
                before,
                sight_at(sights, world, first),
            );
        }
        Some(second) => {
            let before_second = sight_at(sights, world, second);
            world.apply(event);
            note(
                kept,
                world.place(first),
                before,
                sight_at(sights, world, first),
            );
            note(
                kept,
                world.place(second),
                before_second,
                sight_at(sights, world, second),
            );
        }
    }
}

/// The states that are kept.
pub(crate) fn states_of(alloc: Global, kept: &[Kept]) -> Result<Vec<Option<u32>>, NoMemory>
    ensures { IfOk result (λ v. v.items ≡ map (λ x. x.state) kept.now) }
{
    let mut states = Vec::with_capacity(alloc, kept.len()).map_err(|_| NoMemory)?;
    for one in kept {
        states.push(one.state).map_err(|_| NoMemory)?;
    }
    Ok(states)
}
