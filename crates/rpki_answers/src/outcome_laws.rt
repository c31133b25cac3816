//! Laws about the definitions. Each is the contract of a function with no parameters.
ghost use Rattle.std.specs.Prelude.{◌≡◌, ℕ, Bool, List};
ghost use Rattle.rpki_keys.specs.RsaSignatures.{IsSignedByRsa};
ghost use Rattle.rpki_der.specs.Times.{Moment};
ghost use Rattle.rpki_cert.specs.Verification.{context};
ghost use Rattle.rpki_verdicts.specs.PathFiles.{Demands};
ghost use Rattle.rpki_answers.specs.Outcomes.{IsOutcomeOf};
ghost use Rattle.rpki_text.specs.declared.command_line.arguments.Task.{Task};
ghost use Rattle.rpki_text.specs.declared.command_line.arguments.Task.TheVariants.{Tree};
ghost use Rattle.rpki_answers.specs.declared.outcomes.Outcome.{Outcome};

use rpki_verdicts::one_answer;

/// States that the contents of files have at most one outcome at a time, for each task but `tree`,
/// which may or may not reach its limits.
pub fn one_outcome()
    ensures { (task : Task) → (task ≡ Tree → ⊥) → (now : Moment) (strict : Bool) (d : Demands)
        (files lists : List (List ℕ)) (one other : Outcome)
        → IsOutcomeOf task (context IsSignedByRsa now strict) d files lists one
        → IsOutcomeOf task (context IsSignedByRsa now strict) d files lists other → one ≡ other }
{
    one_answer();
}
