// Rules in a list, found by number and by left side.
ghost use Rattle.std.specs.Prelude.{◌≡◌, ◌≤◌, ◌<◌, All, IfOk, Some, length, slice_get, sum_by};
ghost use Rattle.surf_rules.specs.Books.{alone_of, pair_of, rate_in};
ghost use Rattle.surf_rules.specs.Sides.{side_of};

use crate::Rule;
use crate::index::{Index, index_of, part, places, rank, span};
use std::alloc::Global;
use std::marker::Model;
use surf_base::NoMemory;

/// Rules and their index: at most 1,048,576, of rates of at most 10^12.
#[derive(Drop)]
pub(crate) struct ListedRules {
    rules: Vec<Rule>,
    index: Index,
}

impl Model for ListedRules {
    ghost use Rattle.std.specs.Prelude.{List, All, ◌≤◌, length};
    ghost use Rattle.surf_rules.specs.declared.rule.Rule.{Rule};
    ghost use Rattle.surf_rules.specs.Sides.{IsIndex};

    ghost Value = { List Rule };

    ghost view = { λ b. b.rules.items };

    ghost invariant = { λ b.
        (length b.rules.items ≤ 1048576) × All (λ r. r.rate ≤ 1000000000000) b.rules.items
        × IsIndex b.rules.items b.index.starts.items b.index.ranks.items b.index.numbers.items };
}

impl ListedRules {
    /// These rules. They are given up on `NoMemory`.
    pub(crate) fn new(alloc: Global, rules: Vec<Rule>) -> Result<ListedRules, NoMemory>
        requires count { length rules.items ≤ 1048576 }
        requires rates { All (λ r. r.rate ≤ 1000000000000) rules.items }
        ensures { IfOk result (λ b. b ≡ rules.items) }
    {
        match index_of(alloc, &rules) {
            Some(index) => Ok(ListedRules { rules, index }),
            None => Err(NoMemory),
        }
    }

    /// How many rules there are.
    pub(crate) fn len(&self) -> u32
        ensures count { result ≡ length self.now }
        ensures bound { result ≤ 1048576 }
        ensures rates { All (λ r. r.rate ≤ 1000000000000) self.now }
    {
        self.rules.len() as u32
    }

    /// The rule of a number. Takes no memory.
    pub(crate) fn rule(&self, number: u32) -> &Rule
        requires { number < length self.now }
        ensures value { slice_get self.now number ≡ Some result.now }
        ensures rate { result.now.rate ≤ 1000000000000 }
    {
        &self.rules[number as usize]
    }

    /// The numbers of the rules of rate above 0 whose left side is this name alone, rising.
    /// Takes no memory.
    pub(crate) fn alone(&self, a: u32) -> &[u32]
        ensures { result.now ≡ alone_of self.now a }
    {
        self.side(a, rank(None))
    }

    /// The numbers of the rules of rate above 0 whose left side is these two names in this
    /// order, rising. Takes no memory.
    pub(crate) fn pair(&self, a: u32, b: u32) -> &[u32]
        ensures { result.now ≡ pair_of self.now a b }
    {
        self.side(a, rank(Some(b)))
    }

    /// The sum of the rates of the rules whose left side is these two names in this order, added
    /// up.
    pub(crate) fn pair_sum(&self, a: u32, b: u32) -> u64
        ensures { result ≡ sum_by (rate_in self.now) (pair_of self.now a b) }
    {
        // the list tells how many rules it has at most
        let _rule_count = self.len();
        let numbers = self.pair(a, b);
        let mut sum = 0;
        for place in 0..numbers.len() {
            sum += self.rule(numbers[place]).rate;
        }
        sum
    }

    fn side(&self, left: u32, rank: u64) -> &[u32]
        ensures { result.now ≡ side_of self.now left rank }
    {
        let of_left = span(&self.index.starts, left);
        let of_rank = places(part(&self.index.ranks, of_left), rank);
        part(part(&self.index.numbers, of_left), of_rank)
    }
}
