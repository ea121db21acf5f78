// The law of the number of rules, the contract of a function that does nothing.
ghost use Rattle.std.specs.Prelude.{◌≡◌};
ghost use Rattle.surf_auto.specs.Locals.{rule_count};
ghost use Rattle.surf_auto.specs.Tables.{Table, table_rule};
ghost use Rattle.surf_table.specs.TableTexts.{rules_of};

/// The number of rules of a table is known from its degree and its weights.
pub fn rules_by_weights()
    ensures { (T : Table) → rule_count (table_rule T) ≡ rules_of T.degree T.weights }
{}
