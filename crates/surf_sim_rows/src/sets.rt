// Which weights an event sets again, and how often.
ghost use Rattle.std.specs.Prelude.{◌^◌};

use crate::sims::{rule, rules};
use std::alloc::Global;
use std::marker::Model;
use std::test::Fail;
use surf_base::NoMemory;
use surf_lattice::{Lattice, Square, Torus};
use surf_pick::{Draw, Picker, PlainPicker};
use surf_rules::RuleBook;
use surf_sim::{Sim, most_total};
use surf_world::World;

// A picker that counts how often each weight was set.
#[derive(Drop)]
struct Counted {
    plain: PlainPicker,
    counts: Vec<u64>,
}

impl Model for Counted {
    ghost use Rattle.std.specs.Prelude.{List, ℕ, length, ◌≡◌};

    ghost Value = { List ℕ × ℕ };

    ghost view = { λ p. p.plain };

    ghost invariant = { λ p. length p.counts.items ≡ length p.plain.0 };
}

impl Picker for Counted {
    ghost bound = { 2 ^ 128 };

    ghost weights = { λ p. p.0 };

    ghost sets = { λ p. p.1 };

    fn build(alloc: Global, list: Vec<u128>) -> Result<Self, NoMemory> {
        let counts = vec![in alloc; 0u64; list.len()].map_err(|_| NoMemory)?;
        let plain = PlainPicker::build(alloc, list)?;
        Ok(Counted { plain, counts })
    }

    fn set(&mut self, place: usize, weight: u128) {
        self.plain.set(place, weight);
        self.counts[place] = self.counts[place].saturating_add(1);
    }

    fn total(&self) -> u128 {
        self.plain.total()
    }

    fn find(&self, r: u128) -> (usize, u128) {
        self.plain.find(r)
    }
}

// The rules, and a pair that begins with the name of all other sites and never happens.
fn busy_rules(alloc: Global) -> Result<RuleBook, Fail> {
    let rules = vec![in alloc; rule(3, 7, Some(5)), rule(2, 9, None), rule(1, 0, Some(4))]?;
    Ok(RuleBook::new(alloc, rules)?)
}

// How often the first event of a world sets each weight.
fn sets_of_a_step<L: Lattice + Drop>(alloc: Global, world: World<L>) -> Result<Vec<u64>, Fail> {
    // which tells that it is below the picker's bound
    let _most = most_total(&world);
    let mut sim = Sim::<L, Counted>::new(alloc, world, Draw::new(1))?;
    let _event = sim.step();
    Ok(sim.picker().counts.clone()?)
}

#[test]
fn sets_a_site_beside_both_once(rt: HostRuntime) -> Result<(), Fail> {
    let alloc = rt.alloc();
    let start = vec![in alloc; 0, 0, 0, 0, 7, 5, 0, 0, 0]?;
    let torus = Torus::new(Square::new(3, 3));
    let world = World::new(alloc, torus, busy_rules(alloc)?, start)?;
    let seven = [0, 1, 1, 1, 1, 1, 0, 1, 1];
    assert!(rt; sets_of_a_step(alloc, world)?.as_slice() == seven.as_slice());
    Ok(())
}

#[test]
fn passes_over_names_that_begin_no_pair(rt: HostRuntime) -> Result<(), Fail> {
    let alloc = rt.alloc();
    let start = vec![in alloc; 0, 0, 0, 0, 7, 5, 0, 0, 0]?;
    let torus = Torus::new(Square::new(3, 3));
    let world = World::new(alloc, torus, rules(alloc)?, start)?;
    let two = [0, 0, 0, 0, 1, 1, 0, 0, 0];
    assert!(rt; sets_of_a_step(alloc, world)?.as_slice() == two.as_slice());
    Ok(())
}
