// An index of rules by their left sides.
ghost use Rattle.std.specs.Prelude.{◌≡◌, ◌≤◌, ◌<◌, ◌+◌, ◌++◌, ◌^◌, ℕ, IfSome, All, length, map, ◌-◌, take, drop};
ghost use Rattle.std.specs.List.Sorted.{IsNonDecreasing, IsNonDecreasingBy, IsStableByKey};
ghost use Rattle.std.specs.Option.{option_to_list};
ghost use Rattle.std.specs.Ordering.{nat_cmp};
ghost use Rattle.surf_rules.specs.Sides.{rank_of, side_of, span_of, entry_of, numbers_of, IsStart, AreStarts, IsIndex};

use crate::Rule;
use std::alloc::Global;

/// The number of a rule and its left side, of whose right name it has the rank.
#[derive(Clone, Copy, Debug, PartialEq, Eq)]
pub(crate) struct Entry {
    pub(crate) left: u32,
    pub(crate) number: u32,
    pub(crate) rank: u64,
}

/// Numbers of rules by left name and then by rank: where each name begins, the ranks, the numbers.
#[derive(Drop)]
pub(crate) struct Index {
    pub(crate) starts: Vec<u32>,
    pub(crate) ranks: Vec<u64>,
    pub(crate) numbers: Vec<u32>,
}

/// The index of the rules, or `None` where memory ran out.
pub(crate) fn index_of(alloc: Global, rules: &[Rule]) -> Option<Index>
    requires { length rules.now ≤ 1048576 }
    ensures { IfSome result (λ x. IsIndex rules.now x.starts.items x.ranks.items x.numbers.items) }
{
    let listed = entries(alloc, rules)?;
    let ranked = by_rank(listed)?;
    let sorted = by_left(ranked)?;
    let starts = starts(alloc, &sorted)?;
    let (ranks, numbers) = columns(alloc, &sorted)?;
    Some(Index {
        starts,
        ranks,
        numbers,
    })
}

/// Right names in order: none comes first.
pub(crate) fn rank(right: Option<u32>) -> u64
    ensures { result ≡ rank_of right }
{
    match right {
        Some(name) => u64::from(name) + 1,
        None => 0,
    }
}

/// Where the entries of a left name begin and end.
pub(crate) fn span(starts: &[u32], left: u32) -> (usize, usize)
    ensures { result ≡ span_of starts.now left }
{
    let place = left as usize;
    if place + 1 < starts.len() {
        (starts[place] as usize, starts[place + 1] as usize)
    } else {
        (0, 0)
    }
}

/// Where a rank begins and ends among ranks that do not fall.
pub(crate) fn places(ranks: &[u64], rank: u64) -> (usize, usize)
    requires { IsNonDecreasing ranks.now }
    ensures first { IsStart (λ r. r) rank ranks.now result.0 }
    ensures last { IsStart (λ r. r) (rank + 1) ranks.now result.1 }
{
    let first = ranks.partition_point(|r| *r < rank);
    let last = ranks.partition_point(|r| *r <= rank);
    (first, last)
}

/// The elements from one place to another.
pub(crate) fn part<T>(items: &[T], places: (usize, usize)) -> &[T]
    requires order { places.0 ≤ places.1 }
    requires within { places.1 ≤ length items.now }
    ensures { result.now ≡ take (places.1 - places.0) (drop places.0 items.now) }
{
    &items[places.0..places.1]
}

fn entry_for(rule: &Rule, number: u32) -> Option<Entry>
    ensures { result ≡ entry_of rule.now number }
{
    if rule.rate > 0 {
        return Some(Entry {
            left: rule.left,
            number,
            rank: rank(rule.right),
        });
    }
    None
}

fn push_some(entries: &mut Vec<Entry>, entry: Option<Entry>) -> Option<()>
    ensures { IfSome result (λ _. entries.new.items ≡ entries.old.items ++ option_to_list entry) }
{
    if let Some(entry) = entry {
        entries.push(entry).ok()?;
    }
    Some(())
}

// The rules of rate above 0, by number.
fn entries(alloc: Global, rules: &[Rule]) -> Option<Vec<Entry>>
    requires { length rules.now ≤ 1048576 }
    ensures few { IfSome result (λ es. length es.items ≤ length rules.now) }
    ensures same { IfSome result
        (λ es. (a r : ℕ) → numbers_of a r es.items ≡ side_of rules.now a r) }
{
    let mut entries = Vec::new(alloc);
    for place in 0..rules.len() {
        push_some(&mut entries, entry_for(&rules[place], place as u32))?;
    }
    Some(entries)
}

// The entries by rank, those of one rank as they were.
fn by_rank(entries: Vec<Entry>) -> Option<Vec<Entry>>
    ensures few { IfSome result (λ es. length es.items ≡ length entries.items) }
    ensures rising { IfSome result (λ es. IsNonDecreasingBy (λ e. e.rank) es.items) }
    ensures stable { IfSome result
        (λ es. IsStableByKey (λ e. e.rank) nat_cmp entries.items es.items) }
{
    let mut sorted = entries;
    match sorted.sort_by_key(|entry| entry.rank) {
        Ok(()) => Some(sorted),
        Err(_) => None,
    }
}

// The entries by left name, those of one name as they were.
fn by_left(entries: Vec<Entry>) -> Option<Vec<Entry>>
    ensures few { IfSome result (λ es. length es.items ≡ length entries.items) }
    ensures rising { IfSome result (λ es. IsNonDecreasingBy (λ e. e.left) es.items) }
    ensures stable { IfSome result
        (λ es. IsStableByKey (λ e. e.left) nat_cmp entries.items es.items) }
{
    let mut sorted = entries;
    match sorted.sort_by_key(|entry| entry.left) {
        Ok(()) => Some(sorted),
        Err(_) => None,
    }
}

// A name that is greater than all left ones.
fn greater(entries: &[Entry]) -> usize
    requires { IsNonDecreasingBy (λ e. e.left) entries.now }
    ensures all { All (λ e. e.left < result) entries.now }
    ensures bound { result ≤ 2 ^ 32 }
{
    match entries.last() {
        Some(entry) => entry.left as usize + 1,
        None => 0,
    }
}

// Where the entries from a left name on begin.
fn start(entries: &[Entry], name: usize) -> u32
    requires rising { IsNonDecreasingBy (λ e. e.left) entries.now }
    requires few { length entries.now ≤ 1048576 }
    ensures { IsStart (λ e. e.left) name entries.now result }
{
    entries.partition_point(|entry| (entry.left as usize) < name) as u32
}

fn starts(alloc: Global, entries: &[Entry]) -> Option<Vec<u32>>
    requires rising { IsNonDecreasingBy (λ e. e.left) entries.now }
    requires few { length entries.now ≤ 1048576 }
    ensures { IfSome result (λ v. AreStarts v.items entries.now) }
{
    let end = greater(entries) + 1;
    let mut starts = Vec::new(alloc);
    for name in 0..end {
        starts.push(start(entries, name)).ok()?;
    }
    Some(starts)
}

// The ranks and the numbers of entries.
fn columns(alloc: Global, entries: &[Entry]) -> Option<(Vec<u64>, Vec<u32>)>
    ensures ranks { IfSome result (λ p. p.0.items ≡ map (λ e. e.rank) entries.now) }
    ensures numbers { IfSome result (λ p. p.1.items ≡ map (λ e. e.number) entries.now) }
{
    let mut ranks = Vec::new(alloc);
    let mut numbers = Vec::new(alloc);
    for entry in entries {
        ranks.push(entry.rank).ok()?;
        numbers.push(entry.number).ok()?;
    }
    Some((ranks, numbers))
}
