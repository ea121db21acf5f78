// The laws of choices and of renaming.
ghost use Rattle.std.specs.Prelude.{◌≡◌, ◌≢◌, ℕ, ◌+◌, ◌<◌, ◌↔◌, List, [], length, map, take, sum, sum_by, nat_eq, bytes_eq, AllPairs, Contains, IsSome, Some, slice_get};
ghost use Rattle.surf_lattice.specs.declared.site.Site.{Site};
ghost use Rattle.surf_lattice.specs.Grids.{IsGrid, sites};
ghost use Rattle.surf_rules.specs.Names.{text_of, AreDistinct};
ghost use Rattle.surf_world.specs.declared.event.Event.{Event};
ghost use Rattle.surf_world.specs.Systems.{Rule, Surface, Enabled, after, IsRun, left_by, Stuck};
ghost use Rattle.surf_world.specs.Worlds.{Placed};
ghost use Rattle.surf_world.specs.Choices.{event_of, choices_at, choices};
ghost use Rattle.surf_world.specs.Picks.{rate_of, pick, pick_of, weight_of, weights_of, around_event, refreshed};
ghost use Rattle.surf_world.specs.Renamings.{renamed, AreBelow, IsOneToOne};

/// The laws of choices: they are the enabled events, each listed once, also a pair of two equal
/// names in both orders. The weights of the sites sum to their rates, a number below that sum
/// picks one, and by its site and what is left of the number there the same one. An event changes
/// the weights of its sites and their neighbours alone.
pub fn choice_laws()
    ensures listed { (S : Surface ℕ) (c : List ℕ) (e : Event)
        → Contains (choices nat_eq S c) e ↔ Enabled S c e }
    ensures once { (S : Surface ℕ) (c : List ℕ) → IsGrid S.grid
        → AllPairs (λ d e. d ≢ e) (choices nat_eq S c) }
    ensures stuck { (S : Surface ℕ) (c : List ℕ) → (choices nat_eq S c ≡ []) ↔ Stuck S c }
    ensures rated { (S : Surface ℕ) (c : List ℕ) (e : Event) → Enabled S c e → 0 < rate_of S e }
    ensures both_orders { (S : Surface ℕ) (c : List ℕ) (r : Rule ℕ) (k : ℕ) (p : Site) (q : Site)
        → slice_get S.rules k ≡ Some r → r.right ≡ Some r.left → Enabled S c (event_of p (Some q) k)
        → Enabled S c (event_of q (Some p) k) }
    ensures weights { (w : Placed) → sum (weights_of w)
        ≡ sum_by (rate_of w.surface) (choices nat_eq w.surface w.names) }
    ensures picked { (S : Surface ℕ) (c : List ℕ) (r : ℕ) (e : Event) → pick_of nat_eq S c r
        ≡ Some e → Enabled S c e }
    ensures picks { (S : Surface ℕ) (c : List ℕ) (r : ℕ)
        → r < sum_by (rate_of S) (choices nat_eq S c) → IsSome (pick_of nat_eq S c r) }
    ensures in_two_steps { (w : Placed) (i : ℕ) (p : Site) (rest : ℕ) (r : ℕ)
        → slice_get (sites w.surface.grid) i ≡ Some p → sum (take i (weights_of w)) + rest ≡ r
        → rest < weight_of w.surface w.names p → pick_of nat_eq w.surface w.names r
        ≡ pick (rate_of w.surface) (choices_at nat_eq w.surface w.names p) rest }
    ensures local { (S : Surface ℕ) (c : List ℕ) (e : Event) (ws : List ℕ) → Enabled S c e → ws
        ≡ map (weight_of S c) (sites S.grid) → refreshed S (after S c e) (around_event S.grid e) ws
        ≡ map (weight_of S (after S c e)) (sites S.grid) }
{}

/// The laws of renaming: a surface whose numbers become texts, no two of them the same, keeps its
/// events, runs and choices. The texts of a list of distinct texts are such a renaming.
pub fn renaming_laws()
    ensures events { (f : ℕ → List ℕ) (n : ℕ) (S : Surface ℕ) (c : List ℕ) (e : Event)
        → IsOneToOne n f → AreBelow n S c → Enabled S c e ↔ Enabled (renamed f S) (map f c) e }
    ensures effects { (f : ℕ → List ℕ) (S : Surface ℕ) (c : List ℕ) (e : Event)
        → after (renamed f S) (map f c) e ≡ map f (after S c e) }
    ensures below { (n : ℕ) (S : Surface ℕ) (c : List ℕ) (e : Event) → AreBelow n S c
        → AreBelow n S (after S c e) }
    ensures runs { (f : ℕ → List ℕ) (n : ℕ) (S : Surface ℕ) (c : List ℕ) (es : List Event)
        → IsOneToOne n f → AreBelow n S c → IsRun S c es ↔ IsRun (renamed f S) (map f c) es }
    ensures ends { (f : ℕ → List ℕ) (S : Surface ℕ) (c : List ℕ) (es : List Event)
        → left_by (renamed f S) (map f c) es ≡ map f (left_by S c es) }
    ensures stuck { (f : ℕ → List ℕ) (n : ℕ) (S : Surface ℕ) (c : List ℕ) → IsOneToOne n f
        → AreBelow n S c → Stuck S c ↔ Stuck (renamed f S) (map f c) }
    ensures choice { (f : ℕ → List ℕ) (n : ℕ) (S : Surface ℕ) (c : List ℕ) → IsOneToOne n f
        → AreBelow n S c → choices bytes_eq (renamed f S) (map f c) ≡ choices nat_eq S c }
    ensures rates { (f : ℕ → List ℕ) (S : Surface ℕ) (e : Event) → rate_of (renamed f S) e
        ≡ rate_of S e }
    ensures picks { (f : ℕ → List ℕ) (n : ℕ) (S : Surface ℕ) (c : List ℕ) (r : ℕ) → IsOneToOne n f
        → AreBelow n S c → pick_of bytes_eq (renamed f S) (map f c) r ≡ pick_of nat_eq S c r }
    ensures texts { (ts : List (List ℕ)) → AreDistinct ts → IsOneToOne (length ts) (text_of ts) }
{}
