// What is counted at each site while events happen.
ghost use Rattle.std.specs.Prelude.{ℕ, ◌≡◌, ◌<◌, ◌≤◌, ◌^◌, ◌*◌, ◌+◌, All, IfNone, IfOk, IfSome, Some, length, map, slice_get};
ghost use Rattle.std.specs.Option.{option_map};
ghost use Rattle.surf_lattice.specs.Grids.{IsInside, place};
ghost use Rattle.surf_sim.specs.Simulations.{IsStep};
ghost use Rattle.surf_world.specs.Renamings.{AreBelow};
ghost use Rattle.surf_tally.specs.Counting.{differs, first_count, noted};
ghost use Rattle.surf_tally.specs.Showings.{look, look_at};

use crate::shown::{Shown, look};
use std::alloc::Global;
use surf_base::NoMemory;
use surf_lattice::{Lattice, Site};
use surf_pick::Picker;
use surf_sim::Sim;
use surf_world::{Event, World};

/// How many generations a cell has come to, its state at the one that is watched, once it has come
/// so far, and what its name shows now.
#[derive(Clone, Copy)]
pub(crate) struct Count {
    pub reached: u64,
    pub state: u32,
    pub shown: Option<Shown>,
}

// The state of the generation that begins where the second showing follows the first.
fn differs(before: Option<Shown>, after: Option<Shown>) -> Option<u32>
    ensures { result ≡ differs before after }
{
    match (before, after) {
        (Some(old), Some(new)) if old.generation != new.generation => Some(new.state),
        _ => None,
    }
}

fn noted(count: Count, now: Option<Shown>, watched: u64) -> Count
    requires { count.reached < 2 ^ 63 }
    ensures { result ≡ noted watched now count }
{
    let Some(state) = differs(count.shown, now) else {
        return Count {
            reached: count.reached,
            state: count.state,
            shown: now,
        };
    };
    let reached = count.reached + 1;
    Count {
        reached,
        state: if reached == watched {
            state
        } else {
            count.state
        },
        shown: now,
    }
}

fn first_count(shown: Option<Shown>) -> Count
    ensures { result ≡ first_count shown }
{
    Count {
        reached: 0,
        state: 0,
        shown,
    }
}

/// What is counted of each site at first, by the name that it holds.
pub(crate) fn begin<L: Lattice>(
    alloc: Global,
    shown: &[Option<Shown>],
    world: &World<L>,
) -> Result<Vec<Count>, NoMemory>
    requires { All (λ m. m < length shown.now) world.now.names }
    ensures items { IfOk result (λ v. v.items
        ≡ map (λ m. first_count (look shown.now m)) world.now.names) }
    ensures sites { IfOk result (λ v. length v.items ≡ length world.now.names) }
{
    let mut counts = Vec::with_capacity(alloc, world.site_count()).map_err(|_| NoMemory)?;
    for place in 0..world.site_count() {
        let now = look(shown, world.name_at(place));
        counts.push(first_count(now)).map_err(|_| NoMemory)?;
    }
    Ok(counts)
}

// Notes what the name at a site shows now.
fn note<L: Lattice>(
    counts: &mut [Count],
    shown: &[Option<Shown>],
    world: &World<L>,
    site: Site,
    watched: u64,
)
    requires inside { IsInside world.now.surface.grid site }
    requires below { All (λ m. m < length shown.now) world.now.names }
    requires sites { length counts.old ≡ length world.now.names }
    requires few { (p : ℕ) (x : Count) → slice_get counts.old p ≡ Some x → x.reached < 2 ^ 63 }
    ensures here { let p = place world.now.surface.grid site in
        slice_get counts.new p
        ≡ option_map (noted watched (look_at shown.now world.now p)) (slice_get counts.old p) }
    ensures others { (p : ℕ) → (place world.now.surface.grid site ≡ p → ⊥)
        → slice_get counts.new p ≡ slice_get counts.old p }
{
    let place = world.place(site);
    let now = look(shown, world.name_at(place));
    counts[place] = noted(counts[place], now, watched);
}

/// Takes the next event, if there is one, and notes what its sites show then.
pub(crate) fn follow<L: Lattice, P: Picker>(
    counts: &mut [Count],
    shown: &[Option<Shown>],
    sim: &mut Sim<L, P>,
    watched: u64,
) -> Option<Event>
    requires below { AreBelow (length shown.now) sim.old.placed.surface sim.old.placed.names }
    requires sites { length counts.old ≡ length sim.old.placed.names }
    requires few { (p : ℕ) (x : Count) → slice_get counts.old p ≡ Some x → x.reached < 2 ^ 32 }
    requires right { (p : ℕ) (x : Count) → slice_get counts.old p ≡ Some x
        → x.shown ≡ look_at shown.now sim.old.placed p }
    ensures step { IsStep sim.old sim.new result }
    ensures few { sim.new.sets ≤ sim.old.sets + 14 }
    ensures counted { sim.old.sets ≤ sim.new.sets }
    ensures none { IfNone result (counts.new ≡ counts.old) }
    ensures noted { IfSome result (λ e. (p : ℕ) → slice_get counts.new p
        ≡ option_map (noted watched (look_at shown.now sim.new.placed p))
        (slice_get counts.old p)) }
    ensures below { AreBelow (length shown.now) sim.new.placed.surface sim.new.placed.names }
    ensures sites { length counts.new ≡ length sim.new.placed.names }
{
    let event = sim.step()?;
    note(counts, shown, sim.world(), event.first, watched);
    match event.second {
        Some(second) => note(counts, shown, sim.world(), second, watched),
        None => {}
    }
    Some(event)
}
