// A picker that keeps sums of eight parts each.
ghost use Rattle.std.specs.Prelude.{◌≡◌, ◌<◌, ◌≤◌, ◌^◌, ◌+◌, ◌-◌, ◌*◌, ◌/◌, ◌++◌, ℕ, length, sum, slice_index, replicate, IfOk};
ghost use Rattle.surf_pick.specs.Wides.{eight, below, SumsFrom, Rows, SameLeaves, Among, Part, Mending};

use crate::picker::Picker;
use std::alloc::Global;
use std::marker::Model;
use surf_base::NoMemory;

/// Weights whose sum is below 2^64, with sums of eight parts each. `set` and `find` go along one
/// path.
#[derive(Drop)]
pub struct WidePicker {
    // The whole sum's eight parts, then their parts, and so on; from place `leaf` on the weights.
    sums: Vec<u64>,
    leaf: usize,
    count: usize,
    whole: u64,
    sets: u64,
}

impl Model for WidePicker {
    ghost use Rattle.std.specs.Prelude.{List, ℕ, take, drop, length, ◌≡◌};
    ghost use Rattle.surf_pick.specs.Wides.{Kept};

    ghost Value = { List ℕ × ℕ };

    ghost view = { λ p. (take p.count (drop p.leaf p.sums.items), p.sets) };

    ghost invariant = { λ p.
        Kept (take p.count (drop p.leaf p.sums.items)) p.sums.items p.leaf p.whole
        × (length (take p.count (drop p.leaf p.sums.items)) ≡ p.count) };
}

impl Picker for WidePicker {
    ghost bound = { 2 ^ 64 };

    ghost weights = { λ p. p.0 };

    ghost sets = { λ p. p.1 };

    fn build(alloc: Global, list: Vec<u128>) -> Result<Self, NoMemory> {
        let count = list.len();
        let whole = whole_of(&list);
        let leaf = leaf_for(count);
        let mut sums = leaves_of(alloc, &list, leaf)?;
        fill(&mut sums, leaf);
        Ok(WidePicker {
            sums,
            leaf,
            count,
            whole,
            sets: 0,
        })
    }

    fn set(&mut self, place: usize, weight: u128) {
        self.sets = self.sets.saturating_add(1);
        let new = weight as u64;
        let leaf = self.leaf + place;
        let old = self.sums[leaf];
        self.whole = self.whole - old + new;
        self.sums[leaf] = new;
        mend(&mut self.sums, self.leaf, leaf, old, new);
    }

    fn total(&self) -> u128 {
        u128::from(self.whole)
    }

    fn find(&self, r: u128) -> (usize, u128) {
        let leaf = self.leaf;
        let mut group = 0;
        let mut rest = r as u64;
        loop {
            let (place, left) = pick(&self.sums, group, rest);
            if place >= leaf {
                return (place - leaf, u128::from(left));
            }
            group = 8 * place + 8;
            rest = left;
        }
    }
}

// The sum of the weights.
fn whole_of(list: &[u128]) -> u64
    requires { sum list.now < 2 ^ 64 }
    ensures { result ≡ sum list.now }
{
    let sum: u128 = list.iter().copied().sum();
    sum as u64
}

// The first place of the first row that has room for so many weights.
fn leaf_for(count: usize) -> usize
    requires { count ≤ 2 ^ 59 }
    ensures row { (t : ℕ) × (result ≡ below t 0) }
    ensures room { count ≤ 7 * result + 8 }
    ensures small { result ≤ 2 * count }
{
    let mut leaf = 0;
    while 7 * leaf + 8 < count {
        leaf = 8 * leaf + 8;
    }
    leaf
}

// Zeros for the sums, and then the weights and zeros to the end of their group.
fn leaves_of(alloc: Global, list: &[u128], leaf: usize) -> Result<Vec<u64>, NoMemory>
    requires count { length list.now ≤ 2 ^ 59 }
    requires leaf { leaf ≤ 2 * length list.now }
    requires small { sum list.now < 2 ^ 64 }
    ensures { IfOk result (λ sums. sums.items
        ≡ replicate leaf 0 ++ (list.now
        ++ replicate ((length list.now + 7) / 8 * 8 - length list.now) 0)) }
{
    let full = (list.len() + 7) / 8 * 8;
    let mut sums = Vec::with_capacity(alloc, leaf + full).map_err(|_| NoMemory)?;
    sums.resize(leaf, 0u64).map_err(|_| NoMemory)?;
    for weight in list {
        sums.push(*weight as u64).map_err(|_| NoMemory)?;
    }
    sums.resize(leaf + full, 0).map_err(|_| NoMemory)?;
    Ok(sums)
}

// The sum of the eight parts from a place on.
fn sum_of(sums: &[u64], group: usize) -> u64
    requires within { group + 8 ≤ length sums.now }
    requires small { eight sums.now group < 2 ^ 64 }
    ensures { result ≡ eight sums.now group }
{
    let first = sums[group] + sums[group + 1] + sums[group + 2] + sums[group + 3];
    first + sums[group + 4] + sums[group + 5] + sums[group + 6] + sums[group + 7]
}

// Fills the places before the leaves.
fn fill(sums: &mut Vec<u64>, leaf: usize)
    requires rows { Rows sums.old.items leaf }
    requires zeros { (i : ℕ) → i < leaf → slice_index sums.old.items i ≡ 0 }
    ensures leaves { SameLeaves sums.old.items sums.new.items leaf }
    ensures sums { SumsFrom 0 leaf sums.new.items }
{
    let mut place = leaf;
    while place > 0 {
        place -= 1;
        let first = 8 * place + 8;
        if first < sums.len() {
            sums[place] = sum_of(sums, first);
        }
    }
}

// Mends the sums above a place that had `old` and has `new`.
fn mend(sums: &mut Vec<u64>, leaf: usize, changed: usize, old: u64, new: u64)
    requires rows { Rows sums.old.items leaf }
    requires within { changed < length sums.old.items }
    requires mending { Mending sums.old.items leaf changed old new }
    ensures leaves { SameLeaves sums.old.items sums.new.items leaf }
    ensures sums { SumsFrom 0 leaf sums.new.items }
{
    let mut at = changed;
    while at >= 8 {
        at = at / 8 - 1;
        sums[at] = sums[at] - old + new;
    }
}

// The half of eight parts in which the running sum exceeds r, and what is left of r there.
fn pick_half(sums: &[u64], group: usize, r: u64) -> (usize, u64)
    requires { Among sums.now 8 group r }
    ensures { Part sums.now 4 group r (group + 8) result.0 result.1 }
{
    let half = sums[group] + sums[group + 1] + sums[group + 2] + sums[group + 3];
    if half <= r {
        (group + 4, r - half)
    } else {
        (group, r)
    }
}

// The pair of four such parts.
fn pick_pair(sums: &[u64], group: usize, r: u64) -> (usize, u64)
    requires { Among sums.now 4 group r }
    ensures { Part sums.now 2 group r (group + 4) result.0 result.1 }
{
    let pair = sums[group] + sums[group + 1];
    if pair <= r {
        (group + 2, r - pair)
    } else {
        (group, r)
    }
}

// The one of a pair.
fn pick_one(sums: &[u64], group: usize, r: u64) -> (usize, u64)
    requires { Among sums.now 2 group r }
    ensures { Part sums.now 1 group r (group + 2) result.0 result.1 }
{
    let one = sums[group];
    if one <= r {
        (group + 1, r - one)
    } else {
        (group, r)
    }
}

// Of eight parts, the first at which the running sum exceeds r, and what is left of r.
fn pick(sums: &[u64], group: usize, r: u64) -> (usize, u64)
    requires { Among sums.now 8 group r }
    ensures { Part sums.now 1 group r (group + 8) result.0 result.1 }
{
    let (half, rest) = pick_half(sums, group, r);
    let (pair, rest) = pick_pair(sums, half, rest);
    pick_one(sums, pair, rest)
}
