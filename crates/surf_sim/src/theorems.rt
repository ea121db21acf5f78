// The laws of simulations.
ghost use Rattle.std.specs.Prelude.{◌≡◌, ◌↔◌, ℕ, ◌<◌, ◌≤◌, suc, List, [], ◌∷◌, length, map, nat_eq, bytes_eq, Some, None, IfSome, Contains};
ghost use Rattle.rand_core.specs.Stream.{Stream};
ghost use Rattle.surf_lattice.specs.declared.site.Site.{Site};
ghost use Rattle.surf_lattice.specs.Grids.{Grid, IsGrid, IsInside};
ghost use Rattle.surf_world.specs.declared.event.Event.{Event};
ghost use Rattle.surf_world.specs.Systems.{Surface, Enabled, after, IsRun, left_by, Stuck};
ghost use Rattle.surf_world.specs.Picks.{around_event};
ghost use Rattle.surf_world.specs.Renamings.{renamed, AreBelow, IsOneToOne};
ghost use Rattle.surf_sim.specs.Simulations.{next_of, sim_events};
ghost use Rattle.surf_sim.specs.Touched.{touched, IsOnceEach};

/// The laws of simulations, for all words that draws may take. There is a next event exactly
/// where the surface is not stuck, and it is enabled. The events are a run of at most the asked
/// length, and one that is shorter leaves a stuck surface. Under other names the events are the
/// same. The sites of which an event sets the weights again are those of the event and their
/// neighbours, each once and at most fourteen.
pub fn simulation_laws()
    ensures idle { (S : Surface ℕ) (c : List ℕ) (s : Stream)
        → (next_of nat_eq S c s ≡ None) ↔ Stuck S c }
    ensures enabled { (S : Surface ℕ) (c : List ℕ) (s : Stream) (t : Stream) (e : Event)
        → next_of nat_eq S c s ≡ Some (e, t) → Enabled S c e }
    ensures none { (S : Surface ℕ) (c : List ℕ) (s : Stream) (n : ℕ) → next_of nat_eq S c s ≡ None
        → sim_events nat_eq S c s n ≡ [] }
    ensures some { (S : Surface ℕ) (c : List ℕ) (s : Stream) (t : Stream) (e : Event) (n : ℕ)
        → next_of nat_eq S c s ≡ Some (e, t) → sim_events nat_eq S c s (suc n)
        ≡ e ∷ sim_events nat_eq S (after S c e) t n }
    ensures runs { (S : Surface ℕ) (c : List ℕ) (s : Stream) (n : ℕ)
        → IsRun S c (sim_events nat_eq S c s n) }
    ensures few { (S : Surface ℕ) (c : List ℕ) (s : Stream) (n : ℕ)
        → length (sim_events nat_eq S c s n) ≤ n }
    ensures stuck { (S : Surface ℕ) (c : List ℕ) (s : Stream) (n : ℕ)
        → length (sim_events nat_eq S c s n) < n
        → Stuck S (left_by S c (sim_events nat_eq S c s n)) }
    ensures renamed { (f : ℕ → List ℕ) (k : ℕ) (S : Surface ℕ) (c : List ℕ) (s : Stream) (n : ℕ)
        → IsOneToOne k f → AreBelow k S c → sim_events bytes_eq (renamed f S) (map f c) s n
        ≡ sim_events nat_eq S c s n }
    ensures touched { (g : Grid) (e : Event) (p : Site)
        → Contains (touched g e) p ↔ Contains (around_event g e) p }
    ensures once { (g : Grid) (e : Event) → IsGrid g → IsInside g e.first
        → IfSome e.second (IsInside g) → IsOnceEach (touched g e) }
    ensures at_most { (g : Grid) (e : Event) → length (touched g e) ≤ 14 }
{}
