// The parenthesis that closes a node.
ghost use Rattle.std.specs.Prelude.{◌≡◌, Some, IfOk};
ghost use Rattle.proof_core.specs.Proof.{by_cases, by_condition};
ghost use Rattle.proof_core.specs.View.{proofs_of};
ghost use Rattle.proof_text.specs.States.{ended, beyond_close, three_of};

use crate::branch::Open;
use crate::node::{Beyond, Ways};
use crate::parts::boxed;
use crate::state::State;
use logic_core::sequence::Sequence;
use logic_core::term::Term;
use proof_core::proof::{End, Proof, Step};
use std::alloc::{AllocError, Global};

impl Open {
    // The state behind a split into cases.
    fn cases(
        self,
        alloc: Global,
        fact: u64,
        first: Proof,
        others: Sequence<Proof>,
    ) -> Result<Option<State>, AllocError>
        ensures { IfOk result (λ o. o ≡ Some (ended self.levels self.steps (by_cases fact first (proofs_of others)))) }
    {
        let first = Box::new(alloc, first)?;
        let others = others.into_vec();
        Ok(Some(self.ended(
            alloc,
            End::Cases {
                fact,
                first,
                others,
            },
        )))
    }

    // The state behind a split by a condition.
    fn condition(
        self,
        alloc: Global,
        fact: u64,
        term: Term,
        yes: Proof,
        no: Proof,
    ) -> Result<Option<State>, AllocError>
        ensures { IfOk result (λ o. o ≡ Some (ended self.levels self.steps (by_condition fact term yes no))) }
    {
        let (yes, no) = boxed(alloc, yes, no)?;
        Ok(Some(self.ended(
            alloc,
            End::Condition {
                fact,
                term,
                yes,
                no,
            },
        )))
    }

    // The state behind a node with a term and three children.
    fn three_ways(
        self,
        alloc: Global,
        ways: Ways,
        term: Term,
        below: Proof,
        same: Proof,
        above: Proof,
    ) -> Result<Option<State>, AllocError>
        ensures { IfOk result (λ o. o ≡ Some (ended self.levels self.steps (three_of ways term below same above))) }
    {
        let end = ways.of(alloc, term, below, same, above)?;
        Ok(Some(self.ended(alloc, end)))
    }

    /// The parenthesis that closes a node, behind a part.
    pub fn close(self, alloc: Global, beyond: Beyond) -> Result<Option<State>, AllocError>
        ensures { IfOk result (λ o. o ≡ beyond_close self.levels self.steps beyond) }
    {
        match beyond {
            Beyond::Fact(_) | Beyond::Factor(_) => Ok(None),
            Beyond::Term(argument) => {
                drop(argument);
                Ok(None)
            }
            Beyond::Child(branch) => {
                drop(branch);
                Ok(None)
            }
            Beyond::Step(noted) => Ok(self.stepped(noted.into_step())),
            Beyond::Split(f) => Ok(self.stepped(Step::Split(f))),
            Beyond::Instance(fact, terms) => {
                let terms = terms.into_vec();
                Ok(self.stepped(Step::Instantiate { fact, terms }))
            }
            Beyond::Cases(f, first, others) => self.cases(alloc, f, first, others),
            Beyond::Close { first, second } => {
                Ok(Some(self.ended(alloc, End::Close { first, second })))
            }
            Beyond::Condition(f, term, yes, no) => self.condition(alloc, f, term, yes, no),
            Beyond::Three(ways, term, below, same, above) => {
                self.three_ways(alloc, ways, term, below, same, above)
            }
        }
    }
}
