//! The rules of compiled circuits.
ghost use Rattle.std.specs.Prelude.{◌≡◌, ◌<◌, ◌≤◌, ◌^◌, ◌+◌, ◌-◌, ◌++◌, ◌∷◌, [], All, IfOk, OnOk, Some, length, slice_get};
ghost use Rattle.surf_tiles.specs.Reactions.{reactions};
ghost use Rattle.surf_tiles.specs.Rules.{IsGrown, SayAll, Says};
ghost use Rattle.surf_tiles.specs.States.{spell};

use crate::list::all_reactions;
use crate::reaction::Reaction;
use crate::state::State;
use std::alloc::Global;
use surf_base::NoMemory;
use surf_rules::{Names, Rule};

// One event in a unit of time.
const RATE: u64 = 1_000_000;

/// The 122 rules of every compiled circuit, in order. Their names are added to the others; after
/// `NoMemory` some may have been added.
pub fn circuit_rules(alloc: Global, names: &mut Names) -> Result<Vec<Rule>, NoMemory>
    requires { length names.old ≤ 2 ^ 31 }
    ensures rules { IfOk result (λ rules. SayAll names.new rules.items reactions) }
    ensures count { IfOk result (λ rules. length rules.items ≡ 122) }
    ensures rates { IfOk result (λ rules. All (λ r. r.rate ≤ 1000000000000) rules.items) }
    ensures grown { IsGrown 366 names.old names.new }
{
    let list = all_reactions(alloc)?;
    let mut rules = with_room(alloc)?;
    for reaction in &list {
        let rule = rule_of(names, *reaction)?;
        put(&mut rules, rule)?;
    }
    Ok(rules)
}

// No rules, with room for all.
fn with_room(alloc: Global) -> Result<Vec<Rule>, NoMemory>
    ensures { IfOk result (λ rules. rules.items ≡ []) }
{
    Vec::with_capacity(alloc, 122).map_err(|_| NoMemory)
}

fn put(rules: &mut Vec<Rule>, rule: Rule) -> Result<(), NoMemory>
    ensures { OnOk result (rules.new.items ≡ rules.old.items ++ rule ∷ []) }
{
    rules.push(rule).map_err(|_| NoMemory)
}

fn rule_of(names: &mut Names, reaction: Reaction) -> Result<Rule, NoMemory>
    requires { length names.old + 3 < 2 ^ 32 }
    ensures says { IfOk result (λ rule. Says names.new rule reaction) }
    ensures grown { IsGrown 3 names.old names.new }
{
    let giver = number_of(names, reaction.giver())?;
    let reader = number_of(names, reaction.reader())?;
    let outcome = number_of(names, reaction.outcome())?;
    Ok(Rule {
        rate: RATE,
        left: giver,
        right: Some(reader),
        left_after: giver,
        right_after: Some(outcome),
    })
}

fn number_of(names: &mut Names, state: State) -> Result<u32, NoMemory>
    requires { length names.old + 1 < 2 ^ 32 }
    ensures found { IfOk result (λ k. slice_get names.new k ≡ Some (spell state)) }
    ensures grown { IsGrown 1 names.old names.new }
{
    names.intern(state.name())
}
