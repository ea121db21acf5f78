// The trait of pickers: which part of a sum a number falls into.
ghost use Rattle.std.specs.Prelude.{◌≡◌, ◌<◌, ◌≤◌, ◌^◌, ◌+◌, ◌-◌, List, ℕ, length, sum, slice_set, min, IfOk};
ghost use Rattle.surf_pick.specs.Finds.{Finds};

use std::alloc::Global;
use surf_base::NoMemory;

/// A list of weights, one of which is found by a number below their sum. The sum is below a bound.
/// Only `build` takes memory.
pub trait Picker {
    /// What the sum of the weights stays below.
    ghost bound: { ℕ };

    /// The weights in order.
    ghost weights: { Self → List ℕ };

    /// How often `set` was called, or 2^64 - 1 where it was called more often.
    ghost sets: { Self → ℕ };

    /// A picker of these weights. They are given up on `NoMemory`.
    fn build(alloc: Global, list: Vec<u128>) -> Result<Self, NoMemory>
    where
        Self: Sized,
        requires { sum list.items < bound }
        ensures list { IfOk result (λ p. weights p ≡ list.items) }
        ensures sets { IfOk result (λ p. sets p ≡ 0) };

    /// Puts a weight in the place of another.
    fn set(&mut self, place: usize, weight: u128)
        requires place { place < length (weights self.old) }
        requires fits { sum (slice_set (weights self.old) place weight) < bound }
        ensures list { weights self.new ≡ slice_set (weights self.old) place weight }
        ensures sets { sets self.new ≡ min (sets self.old + 1) (2 ^ 64 - 1) }
        ensures counted { sets self.old ≤ sets self.new };

    /// The sum of the weights.
    fn total(&self) -> u128
        ensures { result ≡ sum (weights self.now) };

    /// The first place at which the running sum exceeds `r`, and `r` less the sum before it.
    fn find(&self, r: u128) -> (usize, u128)
        requires { r < sum (weights self.now) }
        ensures { Finds (weights self.now) r result.0 result.1 };
}
