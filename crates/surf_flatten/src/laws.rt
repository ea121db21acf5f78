// What holds of models that place each other.
ghost use Rattle.surf_flatten.specs.Laws.{TreesAreOne, FreeModelsUnfold, UnfoldedAreFree, CostIsMeant, TablesGiveWorks, CostIsTabled, SumsSaturate, NamesDiffer, PlainModelsStay, FreeIsNone, NoneIsFree};
ghost use Rattle.surf_flatten.specs.Meanings.{SoundUnfold, MeaningsAreOne};

/// The meaning of models is one. They have one exactly where no placing leads back to its own
/// model, and it costs what they cost.
pub fn substitution_laws()
    ensures one_tree { TreesAreOne }
    ensures some_tree { FreeModelsUnfold }
    ensures free { UnfoldedAreFree }
    ensures lines { FreeIsNone }
    ensures no_lines { NoneIsFree }
    ensures sound { SoundUnfold }
    ensures one_meaning { MeaningsAreOne }
    ensures cost { CostIsMeant }
    ensures names { NamesDiffer }
    ensures plain { PlainModelsStay }
{}

/// What models cost is found with nothing placed, by a table of the works of the placed models.
pub fn cost_laws()
    ensures table { TablesGiveWorks }
    ensures text { CostIsTabled }
    ensures sums { SumsSaturate }
{}
