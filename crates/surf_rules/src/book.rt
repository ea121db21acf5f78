// Rules that are found by number and by left side, and the sums of their rates.
ghost use Rattle.std.specs.Prelude.{◌≡◌, ◌≢◌, ◌↔◌, ◌≤◌, ◌<◌, ℕ, [], All, IfOk, IsTrue, Some, length, slice_get, sum_by};
ghost use Rattle.surf_rules.specs.Books.{alone_of, pair_of, rate_in};

use crate::Rule;
use crate::listed::ListedRules;
use crate::sums::{Sums, flag_at, number_at, sums_of};
use std::alloc::Global;
use std::marker::Model;
use surf_base::NoMemory;

/// Rules, found by number and by left side: at most 1,048,576, of rates of at most 10^12.
#[derive(Drop)]
pub struct RuleBook {
    listed: ListedRules,
    sums: Sums,
}

impl Model for RuleBook {
    ghost use Rattle.std.specs.Prelude.{List};
    ghost use Rattle.surf_rules.specs.declared.rule.Rule.{Rule};
    ghost use Rattle.surf_rules.specs.Sums.{AreSums};

    ghost Value = { List Rule };

    ghost view = { λ b. b.listed };

    ghost invariant = { λ b.
        AreSums b.listed b.sums.alone.items b.sums.paired.items b.sums.side b.sums.table.items };
}

impl RuleBook {
    /// These rules. They are given up on `NoMemory`.
    pub fn new(alloc: Global, rules: Vec<Rule>) -> Result<RuleBook, NoMemory>
        requires count { length rules.items ≤ 1048576 }
        requires rates { All (λ r. r.rate ≤ 1000000000000) rules.items }
        ensures { IfOk result (λ b. b ≡ rules.items) }
    {
        match sums_of(alloc, &rules) {
            Some(sums) => {
                let listed = ListedRules::new(alloc, rules)?;
                Ok(RuleBook { listed, sums })
            }
            None => Err(NoMemory),
        }
    }

    /// How many rules there are.
    pub fn len(&self) -> u32
        ensures count { result ≡ length self.now }
        ensures bound { result ≤ 1048576 }
        ensures rates { All (λ r. r.rate ≤ 1000000000000) self.now }
    {
        self.listed.len()
    }

    /// The rule of a number. Takes no memory.
    pub fn rule(&self, number: u32) -> &Rule
        requires { number < length self.now }
        ensures value { slice_get self.now number ≡ Some result.now }
        ensures rate { result.now.rate ≤ 1000000000000 }
    {
        self.listed.rule(number)
    }

    /// The numbers of the rules of rate above 0 whose left side is this name alone, rising.
    /// Takes no memory.
    pub fn alone(&self, a: u32) -> &[u32]
        ensures { result.now ≡ alone_of self.now a }
    {
        self.listed.alone(a)
    }

    /// The numbers of the rules of rate above 0 whose left side is these two names in this
    /// order, rising. Takes no memory.
    pub fn pair(&self, a: u32, b: u32) -> &[u32]
        ensures { result.now ≡ pair_of self.now a b }
    {
        self.listed.pair(a, b)
    }

    /// The sum of the rates of the rules whose left side is this name alone.
    pub fn alone_sum(&self, a: u32) -> u64
        ensures { result ≡ sum_by (rate_in self.now) (alone_of self.now a) }
    {
        number_at(&self.sums.alone, a as usize)
    }

    /// The sum of the rates of the rules whose left side is these two names in this order.
    pub fn pair_sum(&self, a: u32, b: u32) -> u64
        ensures { result ≡ sum_by (rate_in self.now) (pair_of self.now a b) }
    {
        let side = self.sums.side;
        if side == 0 {
            return self.listed.pair_sum(a, b);
        }
        let left = a as usize;
        let right = b as usize;
        if left < side && right < side {
            return self.sums.table[left * side + right];
        }
        0
    }

    /// Whether a rule of rate above 0 has this name as the first of two.
    pub fn is_paired(&self, a: u32) -> bool
        ensures { IsTrue result ↔ ((b : ℕ) × (pair_of self.now a b ≢ [])) }
    {
        flag_at(&self.sums.paired, a as usize)
    }
}
