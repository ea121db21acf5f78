// Simulations, and one step of them.
ghost use Rattle.std.specs.Prelude.{◌≡◌, ◌≤◌, ◌<◌, ◌+◌, IfOk, IfNone, IfSome, length};
ghost use Rattle.surf_world.specs.Systems.{Enabled, Stuck};
ghost use Rattle.surf_world.specs.Picks.{weights_of};
ghost use Rattle.surf_sim.specs.Simulations.{IsStep};
ghost use Rattle.surf_sim.specs.Totals.{most_total};
ghost use Rattle.surf_sim.specs.Touched.{touched};

use crate::refresh::{refresh_event, weights};
use std::alloc::Global;
use std::marker::Model;
use surf_base::NoMemory;
use surf_lattice::Lattice;
use surf_pick::{Draw, Picker};
use surf_world::{Event, World};

/// A simulation: a world, the weights of its sites, and the draws that choose its events.
#[derive(Drop)]
pub struct Sim<L: Lattice, P: Picker> {
    world: World<L>,
    picker: P,
    draw: Draw,
}

impl<L: Lattice, P: Picker> Model for Sim<L, P> {
    ghost use Rattle.std.specs.Prelude.{◌≡◌, ◌<◌};
    ghost use Rattle.surf_world.specs.Picks.{weights_of};
    ghost use Rattle.surf_sim.specs.Simulations.{Simulation, AreWeights};
    ghost use Rattle.surf_sim.specs.Totals.{most_total};

    ghost Value = { Simulation };

    ghost view = { λ s.
        record {
          placed = s.world;
          weights = P.weights s.picker;
          sets = P.sets s.picker;
          generator = s.draw;
        } };

    ghost invariant = { λ s.
        (P.weights s.picker ≡ weights_of s.world)
        × AreWeights s.world.surface (P.weights s.picker)
        × (most_total s.world.surface < P.bound) };
}

impl<L: Lattice + Drop, P: Picker> Sim<L, P> {
    /// A simulation that begins with this world and these draws. Both are given up on `NoMemory`.
    pub fn new(alloc: Global, world: World<L>, draw: Draw) -> Result<Sim<L, P>, NoMemory>
        requires { most_total world.surface < P.bound }
        ensures { IfOk result (λ s. s
            ≡ record { placed = world; weights = weights_of world; sets = 0; generator = draw }) }
    {
        let weights = weights(alloc, &world)?;
        let picker = P::build(alloc, weights)?;
        Ok(Sim {
            world,
            picker,
            draw,
        })
    }
}

impl<L: Lattice, P: Picker> Sim<L, P> {
    /// The world as the events so far left it.
    pub fn world(&self) -> &World<L>
        ensures { result.now ≡ self.now.placed }
    {
        &self.world
    }

    /// The weights of the sites, as `weight_at` gives them, in row-major order.
    pub fn picker(&self) -> &P
        ensures weights { P.weights result.now ≡ self.now.weights }
        ensures sets { P.sets result.now ≡ self.now.sets }
        ensures all { P.weights result.now ≡ weights_of self.now.placed }
    {
        &self.picker
    }

    /// Draws the next event, applies and answers it. It is `None` exactly where the world is
    /// stuck, and then nothing changes. Takes no memory, and sets the weights of the event's sites
    /// and of their neighbours, at most 14, each at most once.
    pub fn step(&mut self) -> Option<Event>
        ensures step { IsStep self.old self.new result }
        ensures enabled { IfSome result (Enabled self.old.placed.surface self.old.placed.names) }
        ensures stuck { IfNone result (Stuck self.old.placed.surface self.old.placed.names) }
        ensures once { IfSome result
            (λ e. self.new.sets ≤ self.old.sets + length (touched self.old.placed.surface.grid e)) }
        ensures few { self.new.sets ≤ self.old.sets + 14 }
        ensures counted { self.old.sets ≤ self.new.sets }
    {
        let total = self.picker.total();
        if total == 0 {
            return None;
        }
        let r = self.draw.below(total);
        let (place, rest) = self.picker.find(r);
        let site = self.world.site_at(place);
        let event = self.world.nth_at(site, rest);
        self.world.apply(&event);
        refresh_event(&self.world, &mut self.picker, &event);
        Some(event)
    }
}
