// What holds of every run of a colony.
ghost use Rattle.std.specs.Prelude.{ℕ, Option};
ghost use Rattle.surf_auto.specs.Sync.{Universe, IsUniverse};
ghost use Rattle.surf_colony.specs.Colonies.{StartsWithin, printed};
ghost use Rattle.surf_colony.specs.InStep.{IsLast, KeepsInStep};

/// In every run of the colony of an automaton, in whatever order its events come, a cell of
/// generation k shows the synchronous state of k, neighbours are within one generation, and no run
/// is stuck or slow.
pub fn keeps_in_step()
    ensures { (U : Universe) (last : Option ℕ) →
        IsUniverse U → StartsWithin U → IsLast last U.rule.phases →
        KeepsInStep U last (printed U last) }
{}
