// The states of one generation, read off a run.
ghost use Rattle.std.specs.Prelude.{ℕ, ◌≡◌, ◌*◌, IfErr, IfOk, OnOk, length, map, slice_get, Some};
ghost use Rattle.std.specs.Option.{option_map};
ghost use Rattle.surf_world.specs.Renamings.{AreBelow};
ghost use Rattle.surf_world.specs.Systems.{IsRun};
ghost use Rattle.surf_trace.specs.Observations.{shown_in, readings, AreCells, Hinders, Leaves};
ghost use Rattle.surf_trace.specs.Replays.{Judges, taken, left_world};
ghost use Rattle.surf_trace.specs.Sights.{showing_in};
ghost use Rattle.surf_trace.specs.Watching.{IsOpen, told};

use crate::cells::are_all_told;
use crate::sight::{Sight, list_sights};
use crate::watch::{Kept, begin, follow, states_of};
use crate::{ObserveError, Verdict};
use std::alloc::Global;
use surf_lattice::Lattice;
use surf_rules::Names;
use surf_world::{Event, World};

// Takes the events as a replay does, and notes what they change.
fn follow_all<L: Lattice>(
    kept: &mut [Kept],
    sights: &[Sight],
    world: &mut World<L>,
    events: &[Event],
) -> Verdict
    requires below { AreBelow (length sights.now) world.old.surface world.old.names }
    requires sites { length kept.old
        ≡ world.old.surface.grid.width * world.old.surface.grid.height }
    requires unfinished { (p : ℕ) (x : Kept) → slice_get kept.old p ≡ Some x → IsOpen x }
    ensures verdict { Judges world.old.surface world.old.names events.now result }
    ensures left { world.new ≡ left_world world.old (taken events.now result) }
    ensures told { result ≡ Verdict.Valid → (p : ℕ)
        → option_map (λ x. x.state) (slice_get kept.new p)
        ≡ option_map (told (showing_in sights.now) world.old.surface world.old.names events.now p)
        (slice_get kept.old p) }
{
    for (i, event) in events.iter().enumerate() {
        if !world.is_enabled(event) {
            return Verdict::NotEnabled(i as u64 + 1);
        }
        follow(kept, sights, world, event);
    }
    Verdict::Valid
}

/// The state of each site's generation `k` after the events, in row-major order: `None` where the
/// site has not come so far, and where it began as the frame.
///
/// It is `NotCells` where some name is neither a cell's nor the frame's, and else `NotEnabled` with
/// the first event, counted from 1, that is not enabled at its turn. The world is then after the
/// events before it. It looks at each event once, and keeps two numbers a site.
pub fn observe<L: Lattice>(
    alloc: Global,
    world: &mut World<L>,
    names: &Names,
    events: &[Event],
    k: u64,
) -> Result<Vec<Option<u32>>, ObserveError>
    requires { AreBelow (length names.now) world.old.surface world.old.names }
    ensures states { IfOk result (λ v. v.items
        ≡ readings (shown_in names.now) world.old.surface world.old.names events.now k) }
    ensures cells { OnOk result (AreCells names.now world.old.surface world.old.names) }
    ensures run { OnOk result (IsRun world.old.surface world.old.names events.now) }
    ensures refused { IfErr result
        (Hinders names.now world.old.surface world.old.names events.now) }
    ensures left { Leaves world.old events.now result world.new }
{
    let sights = list_sights(alloc, names).map_err(|_| ObserveError::NoMemory)?;
    if !are_all_told(&sights, world) {
        return Err(ObserveError::NotCells);
    }
    let mut kept = begin(alloc, &sights, world, k).map_err(|_| ObserveError::NoMemory)?;
    match follow_all(&mut kept, &sights, world, events) {
        Verdict::Valid => {}
        Verdict::NotEnabled(place) => return Err(ObserveError::NotEnabled(place)),
    }
    let states = states_of(alloc, &kept).map_err(|_| ObserveError::NoMemory)?;
    Ok(states)
}
