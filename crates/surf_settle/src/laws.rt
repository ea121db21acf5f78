//! The local law in other words, and the rules over texts.
ghost use Rattle.surf_settle.specs.Literal.{FollowsFromWays, GivesWays};
ghost use Rattle.surf_settle.specs.Texts.{AreCircuitRules};

/// The law in the words of feeders, kinds and names gives the law of ways, and follows from it.
pub fn law_forms()
    ensures gives { GivesWays }
    ensures follows { FollowsFromWays }
{}

/// What `circuit_rules` of `surf_tiles` answers are, over the texts of its names, the rules of
/// every circuit.
pub fn rule_texts()
    ensures { AreCircuitRules }
{}
