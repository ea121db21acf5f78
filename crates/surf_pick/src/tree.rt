// A picker that keeps a tree of sums.
ghost use Rattle.std.specs.Prelude.{◌≡◌, ◌<◌, ◌≤◌, ◌^◌, ◌+◌, ◌-◌, ◌*◌, ◌/◌, length, IfOk, replicate, ◌++◌};
ghost use Rattle.surf_pick.specs.Trees.{IsTree, IsRows, InnerFrom, InnerBut, SameLeaves};

use crate::picker::Picker;
use std::alloc::Global;
use std::marker::Model;
use surf_base::NoMemory;

/// Weights with a tree of their sums. `set` and `find` go along one path of it.
#[derive(Drop)]
pub struct TreePicker {
    // The sum of each part of the tree, the leaves from place `half` on.
    sums: Vec<u128>,
    half: usize,
    count: usize,
    sets: u64,
}

impl Model for TreePicker {
    ghost use Rattle.std.specs.Prelude.{List, ℕ, take, drop, length, ◌≡◌};
    ghost use Rattle.surf_pick.specs.Trees.{IsKept, InnerFrom};

    ghost Value = { List ℕ × ℕ };

    ghost view = { λ p. (take p.count (drop p.half p.sums.items), p.sets) };

    ghost invariant = { λ p. IsKept (take p.count (drop p.half p.sums.items)) p.sums.items p.half
        × InnerFrom 1 p.half p.sums.items
        × (length (take p.count (drop p.half p.sums.items)) ≡ p.count) };
}

impl TreePicker {
    /// The tree of sums: place 0 is not used, place 1 holds the whole sum, and place i the sum of
    /// the places 2i and 2i + 1, down to a row of the weights and zeros.
    pub fn sums(&self) -> &[u128]
        ensures { IsTree self.now.0 result.now }
    {
        &self.sums
    }
}

impl Picker for TreePicker {
    ghost bound = { 2 ^ 128 };

    ghost weights = { λ p. p.0 };

    ghost sets = { λ p. p.1 };

    fn build(alloc: Global, list: Vec<u128>) -> Result<Self, NoMemory> {
        let count = list.len();
        let half = count.next_power_of_two();
        let mut sums = leaves_of(alloc, &list, half)?;
        fill(&mut sums, half);
        Ok(TreePicker {
            sums,
            half,
            count,
            sets: 0,
        })
    }

    fn set(&mut self, place: usize, weight: u128) {
        let leaf = self.half + place;
        self.sums[leaf] = weight;
        mend(&mut self.sums, self.half, leaf);
        self.sets = self.sets.saturating_add(1);
    }

    fn total(&self) -> u128 {
        self.sums[1]
    }

    fn find(&self, r: u128) -> (usize, u128) {
        let mut rest = r;
        let mut place = 1;
        while place < self.half {
            place *= 2;
            if self.sums[place] <= rest {
                rest -= self.sums[place];
                place += 1;
            }
        }
        (place - self.half, rest)
    }
}

// A row of zeros, and then the weights and zeros.
fn leaves_of(alloc: Global, list: &[u128], half: usize) -> Result<Vec<u128>, NoMemory>
    requires count { length list.now ≤ half }
    requires small { half < 2 ^ 61 }
    ensures { IfOk result (λ sums. sums.items
        ≡ replicate half 0 ++ (list.now ++ replicate (half - length list.now) 0)) }
{
    let mut sums = Vec::with_capacity(alloc, 2 * half).map_err(|_| NoMemory)?;
    sums.resize(half, 0u128).map_err(|_| NoMemory)?;
    sums.extend_from_slice(list).map_err(|_| NoMemory)?;
    sums.resize(2 * half, 0).map_err(|_| NoMemory)?;
    Ok(sums)
}

// Fills the inner places from the leaves.
fn fill(sums: &mut Vec<u128>, half: usize)
    requires { IsRows sums.old.items half }
    ensures leaves { SameLeaves sums.old.items sums.new.items half }
    ensures inner { InnerFrom 1 half sums.new.items }
{
    let mut place = half;
    while place > 1 {
        place -= 1;
        sums[place] = sums[2 * place] + sums[2 * place + 1];
    }
}

// Mends the places above one that changed, up to the first that stays as it was.
fn mend(sums: &mut Vec<u128>, half: usize, changed: usize)
    requires rows { IsRows sums.old.items half }
    requires place { 1 ≤ changed }
    requires within { changed < 2 * half }
    requires inner { InnerBut (changed / 2) half sums.old.items }
    ensures leaves { SameLeaves sums.old.items sums.new.items half }
    ensures inner { InnerFrom 1 half sums.new.items }
{
    let mut place = changed;
    while place > 1 {
        place /= 2;
        let sum = sums[2 * place] + sums[2 * place + 1];
        if sum == sums[place] {
            return;
        }
        sums[place] = sum;
    }
}
