// What holds of local rules.
ghost use Rattle.surf_auto.specs.Laws.{CountsNeighbours, SumsNeighbours, StepsByCounts, StepsBySums, OnePhaseRules, SquareCountRules, HexCountRules};

/// The laws of local rules by counts and by sums, and of the number of rules.
pub fn local_laws()
    ensures counted { CountsNeighbours }
    ensures summed { SumsNeighbours }
    ensures by_counts { StepsByCounts }
    ensures by_sums { StepsBySums }
    ensures one_phase { OnePhaseRules }
    ensures square { SquareCountRules }
    ensures hex { HexCountRules }
{}
