// What is found in the facts of a branch of numbers.
ghost use Rattle.std.specs.Prelude.{◌≡◌, ◌<◌, ◌++◌, length, map};
ghost use Rattle.tableau_branch.specs.Branch.{without};
ghost use Rattle.term_bank.specs.Numbered.{at};
ghost use Rattle.numbered_branches.specs.Branches.{branch_at, IsBranchOver};

use numbered_branches::branch::{Branch, Fact};
use numbered_branches::change::take_out;
use numbered_terms::Terms;
use term_bank::TermId;

/// The place of a fact in the branch, its formula and its number in the proof, and terms that were
/// found in it.
#[derive(Drop)]
pub struct Found {
    pub at: usize,
    pub formula: TermId,
    pub number: u64,
    pub terms: Vec<TermId>,
}

/// The place of a fact in the branch, its formula and its number in the proof, and a term that was
/// found in it.
#[derive(Clone, Copy)]
pub struct FoundOne {
    pub at: usize,
    pub formula: TermId,
    pub number: u64,
    pub term: TermId,
}

impl Found {
    /// The terms that were found in the fact at this place.
    pub fn new(at: usize, fact: &Fact, terms: Vec<TermId>) -> Found
        ensures { result ≡ record { at = at; formula = fact.now.term; number = fact.now.number; terms = terms } }
    {
        Found {
            at,
            formula: fact.term,
            number: fact.number,
            terms,
        }
    }
}

impl FoundOne {
    /// The term that was found in the fact at this place.
    pub fn new(at: usize, fact: &Fact, term: TermId) -> FoundOne
        ensures { result ≡ record { at = at; formula = fact.now.term; number = fact.now.number; term = term } }
    {
        FoundOne {
            at,
            formula: fact.term,
            number: fact.number,
            term,
        }
    }
}

/// The formula of a fact.
pub fn term_of(fact: &Fact) -> TermId
    ensures { result ≡ fact.now.term }
{
    fact.term
}

/// The branch without the fact at this place.
pub fn without(terms: &Terms, mut branch: Branch, at: usize) -> Branch
    requires at { at < length branch.facts }
    requires branch { IsBranchOver terms.now branch }
    ensures over { IsBranchOver terms.now result }
    ensures without { branch_at terms.now result ≡ without at (branch_at terms.now branch) }
{
    take_out(&mut branch.facts, at);
    branch
}
