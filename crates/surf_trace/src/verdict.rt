// Whether events are a run.
ghost use Rattle.std.specs.Prelude.{◌≡◌, ◌↔◌, ℕ};
ghost use Rattle.surf_world.specs.Systems.{IsRun};
ghost use Rattle.surf_trace.specs.Replays.{FirstBad, taken, left_world};

use surf_lattice::Lattice;
use surf_world::{Event, World};

/// What a replay finds: all events are enabled at their turn, or the first that is not, counted
/// from 1.
#[derive(Clone, Copy, Debug, PartialEq, Eq)]
pub enum Verdict {
    Valid,
    NotEnabled(u64),
}

/// Takes the events one after another, up to the first that is not enabled, which changes
/// nothing. Takes no memory.
pub fn replay<L: Lattice>(world: &mut World<L>, events: &[Event]) -> Verdict
    ensures valid { (result ≡ Verdict.Valid) ↔ IsRun world.old.surface world.old.names events.now }
    ensures not_enabled { (k : ℕ)
        → (result ≡ Verdict.NotEnabled k)
        ↔ FirstBad world.old.surface world.old.names events.now k }
    ensures left { world.new ≡ left_world world.old (taken events.now result) }
{
    for (i, event) in events.iter().enumerate() {
        if !world.is_enabled(event) {
            return Verdict::NotEnabled(i as u64 + 1);
        }
        world.apply(event);
    }
    Verdict::Valid
}
