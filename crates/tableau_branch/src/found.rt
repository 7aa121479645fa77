// What is found in a fact of a branch.
ghost use Rattle.std.specs.Prelude.{◌≡◌, IfOk};

use crate::fact::Fact;
use logic_core::term::Term;
use std::alloc::{AllocError, Global};
use std::marker::Model;

/// A copy of a fact: its formula, and its number in the proof.
#[derive(Drop)]
pub struct Stated {
    pub term: Term,
    pub number: u64,
}

impl Model for Stated {
    ghost use Rattle.tableau_branch.specs.Branch.{Fact as fact};
    ghost use Rattle.tableau_branch.specs.Codes.{coded_fact};

    ghost Value = { fact };

    ghost coded = { coded_fact };

    ghost view = { λ a. record { term = a.term; number = a.number } };
}

/// A fact with its place in the branch, and what was found in it.
#[derive(Drop)]
pub struct At<A> {
    pub at: usize,
    pub fact: Stated,
    pub what: A,
}

impl<A> Model for At<A> {
    ghost use Rattle.tableau_branch.specs.Branch.{At as place};
    ghost use Rattle.tableau_branch.specs.Codes.{coded_at};

    ghost Value = { place A };

    ghost coded = { coded_at A.code };

    ghost view = { λ a. record { at = a.at; fact = a.fact; what = a.what } };
}

impl<A: Drop> At<A> {
    /// What was found in the fact at this place.
    pub fn new(alloc: Global, at: usize, fact: &Fact, what: A) -> Result<At<A>, AllocError>
        ensures { IfOk result (λ a. a ≡ record { at = at; fact = fact.now; what = what }) }
    {
        let fact = Stated {
            term: fact.term().copy(alloc)?,
            number: fact.number(),
        };
        Ok(At { at, fact, what })
    }
}
