// The answer to a question.
ghost use Rattle.std.specs.Prelude.{◌≡◌, IfSome, is_some};
ghost use Rattle.std.specs.Arc.{arc_value};
ghost use Rattle.std.specs.Option.{option_copied};
ghost use Rattle.proof_core.specs.Accepted.{IsAccepted};
ghost use Rattle.tableau.specs.RunView.{verdict_of};
ghost use Rattle.tableau.specs.Search.{is_proved};
ghost use Rattle.tableau.specs.Settled.{IsRight};

use crate::ended::{Answer, Verdict};
use bv_base::Answered;
use obligation_text::Asked;
use proof_core::proof::Proof;
use std::alloc::Global;
use std::marker::Model;
use std::sync::Arc;

/// A question, with the verdict that the search gives it, and the accepted proof where it is Proved.
#[derive(Drop)]
pub struct Settled {
    asked: Arc<Asked, Global>,
    verdict: Verdict,
    proof: Option<Proof>,
}

impl Model for Settled {
    ghost use Rattle.std.specs.Arc.{arc_value};
    ghost use Rattle.tableau.specs.Settled.{Settled as settled, coded_settled};

    ghost Value = { settled };

    ghost coded = { coded_settled };

    ghost use Rattle.tableau.specs.RunView.{verdict_of};
    ghost use Rattle.tableau.specs.Settled.{IsRight};

    ghost view = { λ s. record { question = arc_value s.asked; verdict = verdict_of s.verdict; found = s.proof } };

    ghost invariant = { λ s. IsRight (record { question = arc_value s.asked; verdict = verdict_of s.verdict; found = s.proof }) };
}

impl Settled {
    /// The question with this answer of the search.
    pub fn new(asked: Arc<Asked, Global>, answer: Answer) -> Settled
        requires { IsRight (record { question = arc_value asked; verdict = verdict_of answer.verdict; found = answer.proof }) }
        ensures { result ≡ record { question = arc_value asked; verdict = verdict_of answer.verdict; found = answer.proof } }
    {
        Settled {
            asked,
            verdict: answer.verdict,
            proof: answer.proof,
        }
    }

    /// The verdict that the search gives.
    pub fn verdict(&self) -> Verdict
        ensures { verdict_of result ≡ self.now.verdict }
    {
        self.verdict
    }

    /// The proof that the search finds, which is accepted. None exactly where the verdict isn't
    /// Proved.
    pub fn proof(&self) -> Option<&Proof>
        ensures value { option_copied result ≡ self.now.found }
        ensures accepted { IfSome result (λ p. IsAccepted (self.now.question).obligation p.now) }
        ensures exactly { is_some result ≡ is_proved self.now.verdict }
    {
        self.proof.as_ref()
    }
}

/// The verdict and the proof are the search's answer to the question.
impl Answered for Settled {
    ghost use Rattle.tableau.specs.Settled.{Settled as settled, IsRight};

    type Q = Asked;

    ghost asked = { λ (s : settled). s.question };

    ghost right = { IsRight };

    fn question(&self) -> &Arc<Asked, Global> {
        &self.asked
    }
}
