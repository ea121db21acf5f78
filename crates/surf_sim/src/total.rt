// What the sum of the weights of a world never exceeds.
ghost use Rattle.std.specs.Prelude.{◌≡◌, ◌≤◌, ◌<◌, ◌*◌, ◌^◌};
ghost use Rattle.surf_sim.specs.Totals.{most_total, sum_of_rates};

use surf_lattice::Lattice;
use surf_world::World;

/// What the sum of the weights never exceeds, whatever the sites hold: for each site the rates of
/// all rules, once for the site alone and once for each direction.
pub fn most_total<L: Lattice>(world: &World<L>) -> u128
    ensures total { result ≡ most_total world.now.surface }
    ensures bound { result < 2 ^ 128 }
{
    let ways = u128::from(world.grid().degree()) + 1;
    world.site_count() as u128 * (ways * sum_of_rates(world))
}

fn sum_of_rates<L: Lattice>(world: &World<L>) -> u128
    ensures sum { result ≡ sum_of_rates world.now.surface }
    ensures bound { result ≤ 1048576 * 1000000000000 }
{
    let book = world.book();
    let mut sum = 0;
    for number in 0..book.len() {
        sum += u128::from(book.rule(number).rate);
    }
    sum
}
