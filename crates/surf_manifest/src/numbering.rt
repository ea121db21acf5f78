// Rules over the numbers of their names.
ghost use Rattle.std.specs.List.{list_all};
ghost use Rattle.std.specs.Prelude.{◌&&◌, ◌-◌, ◌<◌, ◌≡◌, ◌^◌, ◌∷◌, [], IfOk, Some, length, slice_get, true};
ghost use Rattle.surf_manifest.specs.Drafts.{IsGrown, named_rule};
ghost use Rattle.surf_manifest_lines.specs.Item.{is_name};
ghost use Rattle.surf_manifest.specs.Naming.{rule_names, with_texts};
ghost use Rattle.surf_manifest_lines.specs.Said.{rule_of_line};
ghost use Rattle.surf_manifest_lines.specs.WellFormed.{is_rule};
ghost use Rattle.surf_world.specs.Renamings.{RuleBelow};
ghost use Rattle.surf_world.specs.Worlds.{rule_of};

use crate::interner::Interner;
use surf_base::NoMemory;
use surf_manifest_lines::{RuleLine, Sides};
use surf_rules::Rule;

fn intern_two(names: &mut Interner, a: &[u8], b: &[u8]) -> Result<(u32, u32), NoMemory>
    requires room { length names.old < 2 ^ 32 - 2 }
    requires names { (is_name a.now && is_name b.now) ≡ true }
    requires texts { list_all is_name names.old ≡ true }
    ensures texts { IfOk result (λ _. list_all is_name names.new ≡ true) }
    ensures first { IfOk result (λ p. slice_get names.new p.0 ≡ Some a.now) }
    ensures second { IfOk result (λ p. slice_get names.new p.1 ≡ Some b.now) }
    ensures named { IfOk result (λ _. names.new ≡ with_texts names.old (a.now ∷ b.now ∷ [])) }
    ensures grown { IfOk result (λ _. IsGrown 2 names.old names.new) }
{
    let first = names.intern(a)?;
    let second = names.intern(b)?;
    Ok((first, second))
}

/// The rule of a line, over numbers of `names`, which grow by at most four.
pub fn numbered_rule(names: &mut Interner, line: &RuleLine<'_>) -> Result<Rule, NoMemory>
    requires room { length names.old < 2 ^ 32 - 4 }
    requires names { is_rule (rule_of_line line.now) ≡ true }
    requires texts { list_all is_name names.old ≡ true }
    ensures texts { IfOk result (λ _. list_all is_name names.new ≡ true) }
    ensures rule { IfOk result (λ r. named_rule names.new r ≡ rule_of_line line.now) }
    ensures named { IfOk result
        (λ _. names.new ≡ with_texts names.old (rule_names (rule_of_line line.now))) }
    ensures below { IfOk result (λ r. RuleBelow (length names.new) (rule_of r)) }
    ensures grown { IfOk result (λ _. IsGrown 4 names.old names.new) }
{
    match line.sides {
        Sides::One(a, c) => {
            let (left, left_after) = intern_two(names, a, c)?;
            Ok(Rule {
                rate: line.rate,
                left,
                right: None,
                left_after,
                right_after: None,
            })
        }
        Sides::Two(a, b, c, d) => {
            let (left, right) = intern_two(names, a, b)?;
            let (left_after, right_after) = intern_two(names, c, d)?;
            Ok(Rule {
                rate: line.rate,
                left,
                right: Some(right),
                left_after,
                right_after: Some(right_after),
            })
        }
    }
}
