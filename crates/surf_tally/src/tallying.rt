// The tally of a simulation.
ghost use Rattle.std.specs.Prelude.{ℕ, ◌≡◌, ◌<◌, ◌≤◌, All, IfOk, OnErr, OnOk, Some, length, slice_get};
ghost use Rattle.std.specs.Option.{option_map};
ghost use Rattle.surf_pick.specs.Draws.{words_of};
ghost use Rattle.surf_trace.specs.Observations.{shown_in};
ghost use Rattle.surf_world.specs.Renamings.{AreBelow};
ghost use Rattle.surf_tally.specs.Counting.{ended, outcome};
ghost use Rattle.surf_tally.specs.Showings.{look, look_at, show_by};
ghost use Rattle.surf_tally.specs.Simulated.{IsAfter, events_from};
ghost use Rattle.surf_tally.specs.Tallies.{tally_of};

use crate::counts::{Count, begin, follow};
use crate::shown::{Shown, list_shown};
use crate::summary::{Tally, sum_up};
use std::alloc::Global;
use surf_base::NoMemory;
use surf_lattice::Lattice;
use surf_pick::Picker;
use surf_rules::Names;
use surf_sim::Sim;

// Takes events until there are so many or none is enabled, counts what they change, and answers how
// many there were.
fn follow_all<L: Lattice, P: Picker>(
    counts: &mut [Count],
    shown: &[Option<Shown>],
    sim: &mut Sim<L, P>,
    watched: u64,
    count: u32,
) -> u64
    requires below { AreBelow (length shown.now) sim.old.placed.surface sim.old.placed.names }
    requires sites { length counts.old ≡ length sim.old.placed.names }
    requires none { (p : ℕ) (x : Count) → slice_get counts.old p ≡ Some x → x.reached ≡ 0 }
    requires right { (p : ℕ) (x : Count) → slice_get counts.old p ≡ Some x
        → x.shown ≡ look_at shown.now sim.old.placed p }
    ensures events { result ≡ length (events_from sim.old count) }
    ensures ended { (p : ℕ) → option_map (ended watched) (slice_get counts.new p)
        ≡ option_map (outcome (show_by shown.now) sim.old.placed.surface sim.old.placed.names
        (events_from sim.old count) watched p) (slice_get counts.old p) }
    ensures after { IsAfter sim.old count sim.new }
{
    for n in 0..count {
        match follow(counts, shown, sim, watched) {
            None => return u64::from(n),
            Some(_event) => {}
        }
    }
    u64::from(count)
}

/// What the cells at these places come to in at most `count` events of a simulation, and how many
/// of them are live in generation `watched`, which is not the first. It looks at each event once,
/// and leaves the simulation after the last of them. After `NoMemory` it is as it was.
pub fn tally<L: Lattice, P: Picker>(
    alloc: Global,
    sim: &mut Sim<L, P>,
    names: &Names,
    places: &[usize],
    watched: u64,
    count: u32,
) -> Result<Tally, NoMemory>
    requires below { AreBelow (length names.now) sim.old.placed.surface sim.old.placed.names }
    requires places { All (λ p. p < length sim.old.placed.names) places.now }
    requires watched { 1 ≤ watched }
    ensures tally { IfOk result (λ t. t ≡ tally_of (shown_in names.now) sim.old.placed.surface
        sim.old.placed.names (events_from sim.old count) watched places.now) }
    ensures after { OnOk result (IsAfter sim.old count sim.new) }
    ensures err { OnErr result (sim.new ≡ sim.old) }
{
    let shown = list_shown(alloc, names)?;
    let mut counts = begin(alloc, &shown, sim.world())?;
    let events = follow_all(&mut counts, &shown, sim, watched, count);
    Ok(sum_up(&counts, places, watched, events))
}
