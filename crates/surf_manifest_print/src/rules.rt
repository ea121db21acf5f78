// The lines of rules.
ghost use Rattle.std.specs.Option.{option_map};
ghost use Rattle.std.specs.Prelude.{◌++◌, ◌<◌, ◌∷◌, ◌≡◌, IfSome, OnOk, [], codes, length, map};
ghost use Rattle.surf_text.specs.Bytes.{ended, spaced};
ghost use Rattle.surf_manifest.specs.Drafts.{RulesBelow, named_rule};
ghost use Rattle.surf_manifest_print.specs.Prints.{rate_text, rule_text, rule_tokens, side_tokens};
ghost use Rattle.surf_rules.specs.Names.{text_of};
ghost use Rattle.surf_world.specs.Renamings.{RuleBelow};
ghost use Rattle.surf_world.specs.Worlds.{rule_of};

use crate::printer::Printer;
use surf_base::NoMemory;
use surf_rules::{Names, Rule};

impl Printer {
    // Appends one name, or two with a plus between them.
    fn put_side(&mut self, names: &Names, first: u32, second: Option<u32>) -> Result<(), NoMemory>
        requires first { first < length names.now }
        requires second { IfSome second (λ k. k < length names.now) }
        ensures { OnOk result
            (self.new ≡ self.old ++ spaced (side_tokens (text_of names.now first)
            (option_map (text_of names.now) second))) }
    {
        self.put_name(names, first)?;
        if let Some(second) = second {
            self.put(b" + ")?;
            self.put_name(names, second)?;
        }
        Ok(())
    }

    // Appends what a rule takes and what it leaves.
    fn put_sides(&mut self, names: &Names, rule: &Rule) -> Result<(), NoMemory>
        requires { RuleBelow (length names.now) (rule_of rule.now) }
        ensures { OnOk result
            (self.new ≡ self.old ++ spaced (rule_tokens (named_rule names.now rule.now))) }
    {
        self.put_side(names, rule.left, rule.right)?;
        self.put(b" -> ")?;
        self.put_side(names, rule.left_after, rule.right_after)?;
        Ok(())
    }

    // Appends a rate in brackets and a blank.
    fn put_bracketed(&mut self, rate: u64) -> Result<(), NoMemory>
        ensures { OnOk result (self.new ≡ self.old ++ (40 ∷ (rate_text rate ++ (41 ∷ 32 ∷ [])))) }
    {
        self.put(b"(")?;
        self.put_rate(rate)?;
        self.put(b") ")
    }

    // Appends the line of a rule.
    fn put_rule(&mut self, names: &Names, rule: &Rule) -> Result<(), NoMemory>
        requires { RuleBelow (length names.now) (rule_of rule.now) }
        ensures { OnOk result
            (self.new ≡ self.old ++ (rule_text (named_rule names.now rule.now) ++ 10 ∷ [])) }
    {
        self.put_bracketed(rule.rate)?;
        self.put_sides(names, rule)?;
        self.put(b"\n")
    }

    // Appends the lines of rules, in their order.
    fn put_rules(&mut self, names: &Names, rules: &[Rule]) -> Result<(), NoMemory>
        requires { RulesBelow (length names.now) rules.now }
        ensures { OnOk result
            (self.new ≡ self.old
            ++ ended (map (λ r. rule_text (named_rule names.now r)) rules.now)) }
    {
        for rule in rules {
            self.put_rule(names, rule)?;
        }
        Ok(())
    }

    /// Appends the block of the rules.
    pub fn put_rule_block(&mut self, names: &Names, rules: &[Rule]) -> Result<(), NoMemory>
        requires { RulesBelow (length names.now) rules.now }
        ensures { OnOk result
            (self.new ≡ self.old ++ ended (codes "!START_TRANSITION_RULES"
            ∷ (map rule_text (map (named_rule names.now) rules.now)
            ++ (codes "!END_TRANSITION_RULES" ∷ [])))) }
    {
        self.put_line(b"!START_TRANSITION_RULES")?;
        self.put_rules(names, rules)?;
        self.put_line(b"!END_TRANSITION_RULES")
    }
}
