//! That the list of reactions is the table of rules.
ghost use Rattle.surf_tiles.specs.Table.{AreListed};

/// The reactions are the 122 rules of the table, one by one.
pub fn rule_table()
    ensures { AreListed }
{}
