// The search for a proof of an obligation.
ghost use Rattle.std.specs.Prelude.{◌≡◌, IfOk, IfSome};
ghost use Rattle.std.specs.Arc.{arc_value};
ghost use Rattle.proof_core.specs.Accepted.{IsAccepted};
ghost use Rattle.tableau.specs.RunView.{answer_seen};
ghost use Rattle.tableau.specs.Search.{answer};
ghost use Rattle.tableau.specs.Settled.{settled_by};

use crate::first::first_branch;
use crate::left::{Left, joined, store_over};
use crate::run::run;
use logic_core::fault::NormalFault;
use numbered_facts::Store;
use obligation_text::Asked;
use obligation_text::obligation::Obligation;
use std::alloc::{AllocError, Global};
use std::cell::Cell;
use std::sync::Arc;
use tableau::ended::{Answer, Verdict};
use tableau::settled::Settled;

/// A search that begins with the terms that one of the last searches left, and with what was found of
/// them, where that is right for its goal.
#[derive(Drop)]
pub struct Searcher {
    alloc: Global,
    left: Cell<Vec<Left>>,
}

/// What the search's definition finds. The search is in this store.
fn answer_in(store: &mut Store, obligation: &Obligation, turns: u64) -> Result<Answer, AllocError>
    requires vars { store.old.vars ≡ obligation.now.vars }
    requires defs { store.old.defs ≡ obligation.now.defs }
    ensures { IfOk result (λ a. answer_seen a ≡ answer obligation.now turns) }
{
    match first_branch(store, obligation) {
        Ok(first) => {
            let ended = run(store, turns, first)?;
            let verdict = ended.verdict;
            let proof = ended.proof(store.terms())?;
            Ok(Answer { verdict, proof })
        }
        Err(NormalFault::Wide) => Ok(Answer {
            verdict: Verdict::Wide,
            proof: None,
        }),
        Err(NormalFault::Memory) => Err(AllocError),
    }
}

impl Searcher {
    /// Nothing is left yet.
    pub fn new(alloc: Global) -> Searcher {
        Searcher {
            alloc,
            left: Cell::new(Vec::new(alloc)),
        }
    }

    /// The allocator that it keeps.
    pub fn alloc(&self) -> Global {
        self.alloc
    }

    /// Searches for a proof of the obligation with so many turns: the verdict and the proof are exactly
    /// those of the search's definition, and the proof is accepted.
    pub fn answer(&self, obligation: &Obligation, turns: u64) -> Result<Answer, AllocError>
        ensures exact { IfOk result (λ a. answer_seen a ≡ answer obligation.now turns) }
        ensures accepted { IfOk result (λ a. IfSome a.proof (IsAccepted obligation.now)) }
    {
        let mut left = self.left.replace(Vec::new(self.alloc));
        let mut store = store_over(self.alloc, &mut left, obligation.signature())?;
        let answer = answer_in(&mut store, obligation, turns)?;
        self.left.set(joined(left, store));
        Ok(answer)
    }

    /// Searches for a proof of the question's obligation with its turns, and keeps the question with the
    /// answer.
    pub fn search(&self, asked: &Arc<Asked, Global>) -> Result<Settled, AllocError>
        ensures { IfOk result (λ s. s ≡ settled_by (arc_value asked.now)) }
    {
        let shared = Arc::try_clone(asked)?;
        let answer = self.answer(asked.obligation(), asked.turns())?;
        Ok(Settled::new(shared, answer))
    }
}

/// Searches for a proof of the obligation with so many turns: the verdict and the proof are exactly
/// those of the search's definition, and the proof is accepted.
pub fn answer(alloc: Global, obligation: &Obligation, turns: u64) -> Result<Answer, AllocError>
    ensures exact { IfOk result (λ a. answer_seen a ≡ answer obligation.now turns) }
    ensures accepted { IfOk result (λ a. IfSome a.proof (IsAccepted obligation.now)) }
{
    Searcher::new(alloc).answer(obligation, turns)
}

/// Searches for a proof of the question's obligation with its turns, and keeps the question with the
/// answer.
pub fn search(alloc: Global, asked: &Arc<Asked, Global>) -> Result<Settled, AllocError>
    ensures { IfOk result (λ s. s ≡ settled_by (arc_value asked.now)) }
{
    Searcher::new(alloc).search(asked)
}
