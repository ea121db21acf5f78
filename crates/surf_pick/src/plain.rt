// A picker that goes through its list.
ghost use Rattle.std.specs.Prelude.{◌^◌};

use crate::picker::Picker;
use std::alloc::Global;
use std::marker::Model;
use surf_base::NoMemory;

/// Weights in a list and their sum. `find` goes through the list; it serves small lists, and as
/// the yardstick of other pickers.
#[derive(Drop)]
pub struct PlainPicker {
    weights: Vec<u128>,
    whole: u128,
    sets: u64,
}

impl Model for PlainPicker {
    ghost use Rattle.std.specs.Prelude.{List, ℕ, sum, ◌≡◌};

    ghost Value = { List ℕ × ℕ };

    ghost view = { λ p. (p.weights.items, p.sets) };

    ghost invariant = { λ p. p.whole ≡ sum p.weights.items };
}

impl Picker for PlainPicker {
    ghost bound = { 2 ^ 128 };

    ghost weights = { λ p. p.0 };

    ghost sets = { λ p. p.1 };

    fn build(alloc: Global, list: Vec<u128>) -> Result<Self, NoMemory> {
        let _alloc = alloc;
        let whole = list.iter().copied().sum();
        Ok(PlainPicker {
            weights: list,
            whole,
            sets: 0,
        })
    }

    fn set(&mut self, place: usize, weight: u128) {
        self.whole = self.whole - self.weights[place] + weight;
        self.weights[place] = weight;
        self.sets = self.sets.saturating_add(1);
    }

    fn total(&self) -> u128 {
        self.whole
    }

    fn find(&self, r: u128) -> (usize, u128) {
        let mut rest = r;
        for (place, weight) in self.weights.iter().enumerate() {
            if rest < *weight {
                return (place, rest);
            }
            rest -= *weight;
        }
        unreachable!()
    }
}
