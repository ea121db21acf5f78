// Laws of the grammar, each the contract of a function that does nothing.
ghost use Rattle.surf_manifest.specs.Steps.{StepsRead};
ghost use Rattle.surf_manifest.specs.WellFormed.{GivesWellFormed};

/// One step for each line gives the manifest of the grammar.
pub fn steps_are_grammar()
    ensures { StepsRead }
{}

/// What the grammar reads is well formed.
pub fn read_is_well_formed()
    ensures { GivesWellFormed }
{}
