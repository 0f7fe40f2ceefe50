//! What holds of every call, and is said by no call alone.

ghost use Rattle.std.specs.Prelude.{◌≡◌, ℕ, List};
ghost use Rattle.gl_outside.specs.declared.gate.Actor.{Actor};
ghost use Rattle.spec_reports.specs.Answer.{Outcome, ComesTo};

#[tactic(auto, using(spec_reports::proofs::Answer::one_outcome_of, spec_reports::proofs::Answer::some_outcome_of))]
/// Words and bytes come to one outcome, and to no other. So the status and the text of a call are functions of its
/// words, of the bytes that its source held, and of the order in which the actors of a run took the lock.
pub fn one_outcome()
    ensures some { (words : List (List ℕ)) (bytes : List ℕ) → (taken : List Actor)
        → (o : Outcome) × ComesTo words bytes taken o }
    ensures one { (words : List (List ℕ)) (bytes : List ℕ) (taken : List Actor) (a b : Outcome)
        → ComesTo words bytes taken a → ComesTo words bytes taken b → a ≡ b }
{}
