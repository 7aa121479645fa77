// The search for a proof of an obligation.
ghost use Rattle.std.specs.Prelude.{◌≡◌, IfOk, IfSome};
ghost use Rattle.std.specs.Arc.{arc_value};
ghost use Rattle.proof_core.specs.Accepted.{IsAccepted};
ghost use Rattle.tableau.specs.RunView.{answer_seen};
ghost use Rattle.tableau.specs.Search.{answer};
ghost use Rattle.tableau.specs.Settled.{settled_by};

use crate::run::run;
use logic_core::fault::NormalFault;
use obligation_text::Asked;
use obligation_text::obligation::Obligation;
use std::alloc::{AllocError, Global};
use std::sync::Arc;
use tableau::ended::{Answer, Verdict};
use tableau::search::found;
use tableau::settled::Settled;
use tableau::start::first_branch;

/// Searches for a proof of the obligation with so many turns: the verdict and the proof are exactly
/// those of the search's definition, and the proof is accepted.
pub fn answer(alloc: Global, obligation: &Obligation, turns: u64) -> Result<Answer, AllocError>
    ensures exact { IfOk result (λ a. answer_seen a ≡ answer obligation.now turns) }
    ensures accepted { IfOk result (λ a. IfSome a.proof (IsAccepted obligation.now)) }
{
    let signature = obligation.signature();
    match first_branch(alloc, obligation) {
        Ok(first) => {
            let ended = run(alloc, signature.defs(), turns, first)?;
            let verdict = ended.verdict;
            let proof = found(alloc, ended)?;
            Ok(Answer { verdict, proof })
        }
        Err(NormalFault::Wide) => Ok(Answer {
            verdict: Verdict::Wide,
            proof: None,
        }),
        Err(NormalFault::Memory) => Err(AllocError),
    }
}

/// Searches for a proof of the question's obligation with its turns, and keeps the question with the
/// answer.
pub fn search_plain(alloc: Global, asked: &Arc<Asked, Global>) -> Result<Settled, AllocError>
    ensures { IfOk result (λ s. s ≡ settled_by (arc_value asked.now)) }
{
    let shared = Arc::try_clone(asked)?;
    let answer = answer(alloc, asked.obligation(), asked.turns())?;
    Ok(Settled::new(shared, answer))
}
