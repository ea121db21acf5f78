// The laws of counts of eight neighbours.
ghost use Rattle.surf_life.specs.Laws.{MakesUniverse, EvenPhases, StepsByEight, StartsInBoth, MooreRules, MooreRulesLast};

/// Two phases are one step of eight neighbours, the start states are states of both phases, and the
/// number of rules is at most 1,048,576.
pub fn moore_laws()
    ensures universe { MakesUniverse }
    ensures phases { EvenPhases }
    ensures steps { StepsByEight }
    ensures starts { StartsInBoth }
    ensures rules { MooreRules }
    ensures rules_last { MooreRulesLast }
{}
