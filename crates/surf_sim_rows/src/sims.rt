// Simulations of small surfaces.
ghost use Rattle.std.specs.Prelude.{◌≤◌, ◌<◌};

use std::alloc::Global;
use std::test::Fail;
use surf_lattice::{Lattice, Square, Torus};
use surf_pick::{Draw, Picker, PlainPicker, TreePicker, WidePicker};
use surf_rules::{Rule, RuleBook};
use surf_sim::{Sim, most_total, simulation_laws};
use surf_world::World;

/// A rule of this left side that leaves 8, and 9 at a second site.
pub fn rule(rate: u64, left: u32, right: Option<u32>) -> Rule
    requires { rate ≤ 1000000000000 }
    ensures { result.rate ≤ 1000000000000 }
{
    Rule {
        rate,
        left,
        right,
        left_after: 8,
        right_after: right.map(|_| 9),
    }
}

/// A pair of rate 3, and then its second molecule alone at rate 2.
pub fn rules(alloc: Global) -> Result<RuleBook, Fail> {
    let rules = vec![in alloc; rule(3, 7, Some(5)), rule(2, 9, None)]?;
    Ok(RuleBook::new(alloc, rules)?)
}

// The rule and the first site of each event of a run to its end.
fn events<P: Picker + Drop>(alloc: Global, seed: u64) -> Result<Vec<(u32, u32, u32)>, Fail>
    requires { 225 < P.bound }
{
    let start = vec![in alloc; 7, 5, 7, 5, 7, 5, 7, 5, 7]?;
    let torus = Torus::new(Square::new(3, 3));
    let world = World::new(alloc, torus, rules(alloc)?, start)?;
    // nine sites, each alone and in four directions, and rates of 5 in all
    if most_total(&world) > 225 {
        Err::<(), &str>("another sum of rates")?;
    }
    let mut sim = Sim::<Torus<Square>, P>::new(alloc, world, Draw::new(seed))?;
    let mut events = Vec::new(alloc);
    for _ in 0..20 {
        if let Some(event) = sim.step() {
            events.push((event.rule, event.first.x, event.first.y))?;
        }
    }
    Ok(events)
}

#[test]
fn gives_the_run_of_the_seed(rt: HostRuntime) -> Result<(), Fail> {
    simulation_laws();
    // worked out apart from this code
    let expected = [
        (0, 1, 1),
        (0, 0, 2),
        (0, 2, 2),
        (0, 0, 0),
        (1, 2, 1),
        (1, 0, 1),
        (1, 1, 0),
        (1, 1, 2),
    ];
    assert!(rt; events::<TreePicker>(rt.alloc(), 5)?.as_slice() == expected.as_slice());
    assert!(rt; events::<WidePicker>(rt.alloc(), 5)?.as_slice() == expected.as_slice());
    assert!(rt; events::<PlainPicker>(rt.alloc(), 5)?.as_slice() == expected.as_slice());
    Ok(())
}
