// The sums of the rates of left sides.
ghost use Rattle.std.specs.Prelude.{◌≡◌, ◌≤◌, ◌<◌, ◌+◌, ◌*◌, ◌^◌, ℕ, IfSome, All, false, is_none, is_some, nat_lt, ◌&&◌, length, slice_index, slice_index_or, cond};
ghost use Rattle.surf_rules.specs.Books.{is_alone, is_pair};
ghost use Rattle.surf_rules.specs.Sums.{sum_among, is_first_among, AreLeftsBelow, AreRightsBelow, IsTable, AreSums};

use crate::Rule;
use std::alloc::Global;

/// The sum of the rates of each name alone, whether it is the first of two, and for few names a
/// table of the sums of pairs. Where there are many names, the side of the table is 0.
#[derive(Drop)]
pub(crate) struct Sums {
    pub(crate) alone: Vec<u64>,
    pub(crate) paired: Vec<bool>,
    pub(crate) side: usize,
    pub(crate) table: Vec<u64>,
}

/// The sums of the rules, or `None` where memory ran out.
pub(crate) fn sums_of(alloc: Global, rules: &[Rule]) -> Option<Sums>
    requires few { length rules.now ≤ 1048576 }
    requires rates { All (λ r. r.rate ≤ 1000000000000) rules.now }
    ensures { IfSome result
        (λ s. AreSums rules.now s.alone.items s.paired.items s.side s.table.items) }
{
    let lefts = left_count(rules);
    let side = table_side(lefts, right_count(rules));
    let alone = alone_sums(alloc, rules, lefts)?;
    let paired = paired_names(alloc, rules, lefts)?;
    let table = pair_table(alloc, rules, side)?;
    Some(Sums {
        alone,
        paired,
        side,
        table,
    })
}

/// The number at a place, and 0 behind the end.
pub(crate) fn number_at(numbers: &[u64], place: usize) -> u64
    ensures { result ≡ slice_index numbers.now place }
{
    if place < numbers.len() {
        return numbers[place];
    }
    0
}

/// The flag at a place, and false behind the end.
pub(crate) fn flag_at(flags: &[bool], place: usize) -> bool
    ensures { result ≡ slice_index_or flags.now place false }
{
    if place < flags.len() {
        return flags[place];
    }
    false
}

// A number above all left names.
fn left_count(rules: &[Rule]) -> usize
    ensures above { AreLeftsBelow result rules.now }
    ensures bound { result ≤ 2 ^ 32 }
{
    let mut count = 0usize;
    for place in 0..rules.len() {
        count = count.max(rules[place].left as usize + 1);
    }
    count
}

fn after_right(rule: &Rule) -> usize
    ensures above { IfSome rule.now.right (λ b. b < result) }
    ensures bound { result ≤ 2 ^ 32 }
{
    match rule.right {
        Some(name) => name as usize + 1,
        None => 0,
    }
}

// A number above all right names.
fn right_count(rules: &[Rule]) -> usize
    ensures above { AreRightsBelow result rules.now }
    ensures bound { result ≤ 2 ^ 32 }
{
    let mut count = 0usize;
    for place in 0..rules.len() {
        count = count.max(after_right(&rules[place]));
    }
    count
}

// The side of a table of pairs of all names, or 0 where it would be large.
fn table_side(lefts: usize, rights: usize) -> usize
    ensures narrow { result ≤ 256 }
    ensures lefts { 0 < result → lefts ≤ result }
    ensures rights { 0 < result → rights ≤ result }
{
    let side = lefts.max(rights);
    if side <= 256 {
        return side;
    }
    0
}

// What a rule adds to its left name alone.
fn alone_rate(rule: &Rule) -> u64
    ensures { result ≡ cond (is_none rule.now.right) rule.now.rate 0 }
{
    match rule.right {
        Some(_) => 0,
        None => rule.rate,
    }
}

fn alone_sums(alloc: Global, rules: &[Rule], count: usize) -> Option<Vec<u64>>
    requires few { length rules.now ≤ 1048576 }
    requires rates { All (λ r. r.rate ≤ 1000000000000) rules.now }
    requires names { AreLeftsBelow count rules.now }
    ensures { IfSome result (λ v. (a : ℕ)
        → slice_index v.items a ≡ sum_among rules.now (is_alone a) (length rules.now)) }
{
    let mut sums = vec![in alloc; 0u64; count].ok()?;
    for place in 0..rules.len() {
        let rule = rules[place];
        let left = rule.left as usize;
        let rate = alone_rate(&rule);
        let sum = sums[left];
        sums[left] = sum + rate;
    }
    Some(sums)
}

// Whether a rule of rate above 0 has two names on its left side.
fn is_pair_rule(rule: &Rule) -> bool
    ensures { result ≡ (nat_lt 0 rule.now.rate && is_some rule.now.right) }
{
    rule.rate > 0 && rule.right.is_some()
}

fn paired_names(alloc: Global, rules: &[Rule], count: usize) -> Option<Vec<bool>>
    requires names { AreLeftsBelow count rules.now }
    ensures { IfSome result (λ v. (a : ℕ)
        → slice_index_or v.items a false ≡ is_first_among rules.now a (length rules.now)) }
{
    let mut flags = vec![in alloc; false; count].ok()?;
    for place in 0..rules.len() {
        let rule = rules[place];
        let left = rule.left as usize;
        let first = is_pair_rule(&rule);
        let flag = flags[left] | first;
        flags[left] = flag;
    }
    Some(flags)
}

// What a rule adds to its pair of names.
fn pair_rate(rule: &Rule) -> u64
    ensures { result ≡ cond (is_some rule.now.right) rule.now.rate 0 }
{
    match rule.right {
        Some(_) => rule.rate,
        None => 0,
    }
}

fn pair_table(alloc: Global, rules: &[Rule], side: usize) -> Option<Vec<u64>>
    requires few { length rules.now ≤ 1048576 }
    requires rates { All (λ r. r.rate ≤ 1000000000000) rules.now }
    requires narrow { side ≤ 256 }
    requires lefts { 0 < side → AreLeftsBelow side rules.now }
    requires rights { 0 < side → AreRightsBelow side rules.now }
    ensures whole { IfSome result (λ v. length v.items ≡ side * side) }
    ensures sums { IfSome result
        (λ v. IsTable rules.now (length rules.now) side v.items) }
{
    let mut table = vec![in alloc; 0u64; side * side].ok()?;
    if side > 0 {
        add_pairs(&mut table, rules, side);
    }
    Some(table)
}

// Adds the rates of pairs to a table of zeros.
fn add_pairs(table: &mut Vec<u64>, rules: &[Rule], side: usize)
    requires few { length rules.now ≤ 1048576 }
    requires rates { All (λ r. r.rate ≤ 1000000000000) rules.now }
    requires narrow { side ≤ 256 }
    requires lefts { AreLeftsBelow side rules.now }
    requires rights { AreRightsBelow side rules.now }
    requires whole { length table.old.items ≡ side * side }
    requires none { IsTable rules.now 0 side table.old.items }
    ensures whole { length table.new.items ≡ side * side }
    ensures sums { IsTable rules.now (length rules.now) side table.new.items }
{
    for place in 0..rules.len() {
        let rule = rules[place];
        let slot = rule.left as usize * side + rule.right.unwrap_or(0) as usize;
        let rate = pair_rate(&rule);
        let sum = table[slot];
        table[slot] = sum + rate;
    }
}
