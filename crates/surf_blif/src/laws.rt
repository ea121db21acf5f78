// The law of evaluation, the contract of a function that only cites the laws of names.
ghost use Rattle.surf_blif.specs.Evals.{EvaluatesText};

use surf_logic::naming_laws;

/// What `surf_logic::eval` answers for a circuit that was read are the outputs of the text's own
/// equations: exactly one assignment has the bits at the text's inputs and solves its equations,
/// and it gives this answer.
pub fn eval_is_of_text()
    ensures { EvaluatesText }
{
    naming_laws();
}
