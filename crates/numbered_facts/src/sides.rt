// Left sides of facts, what facts say of terms, and the sorts of terms.
ghost use Rattle.std.specs.Prelude.{◌≡◌, ◌<◌, [], length, IfOk};
ghost use Rattle.logic_core.specs.Sorts.{is, sort_of};
ghost use Rattle.logic_core.specs.Tree.{boolean};
ghost use Rattle.proof_core.specs.Says.{says};
ghost use Rattle.tableau_branch.specs.Oriented.{left_side};
ghost use Rattle.term_bank.specs.Numbered.{at};
ghost use Rattle.numbered_terms.specs.Stored.{Grows};
ghost use Rattle.numbered_facts.specs.Answers.{StandsFor};
ghost use Rattle.numbered_facts.specs.Sorted.{is_map};

use crate::lefts::left;
use crate::saying::says;
use crate::sorts::{is_boolean, is_map, sort};
use crate::store::Store;
use logic_core::Sort;
use std::alloc::AllocError;
use term_bank::TermId;

impl<'a> Store<'a> {
    /// The left side of a fact, by what the fact says that it is equal to. None exactly where the fact
    /// isn't oriented.
    pub fn left_side(&mut self, fact: TermId) -> Result<Option<TermId>, AllocError>
        requires { fact < length self.old.terms }
        ensures grows { Grows self.old self.new }
        ensures gives { IfOk result (λ o. StandsFor self.new.terms o (left_side self.old.vars self.old.defs (at self.old.terms fact))) }
    {
        left(
            &self.terms,
            &mut self.lefts,
            &mut self.sorts,
            &self.vars,
            self.defs,
            fact,
        )
    }

    /// What the fact says that the term is equal to. None exactly where it says nothing of it, or a number
    /// leaves 128 bits.
    pub fn says(&mut self, fact: TermId, term: TermId) -> Result<Option<TermId>, AllocError>
        requires fact { fact < length self.old.terms }
        requires term { term < length self.old.terms }
        ensures grows { Grows self.old self.new }
        ensures gives { IfOk result (λ o. StandsFor self.new.terms o (says (at self.old.terms fact) (at self.old.terms term))) }
    {
        says(&mut self.terms, fact, term)
    }

    /// The sort of a closed term, where it is well sorted.
    pub fn sort(&mut self, id: TermId) -> Result<Option<Sort>, AllocError>
        requires { id < length self.old.terms }
        ensures grows { Grows self.old self.new }
        ensures gives { IfOk result (λ o. o ≡ sort_of self.old.vars self.old.defs [] (at self.old.terms id)) }
    {
        sort(&self.terms, &mut self.sorts, &self.vars, self.defs, id)
    }

    /// Whether a closed term is well sorted, of sort Bool.
    pub fn is_boolean(&mut self, id: TermId) -> Result<bool, AllocError>
        requires { id < length self.old.terms }
        ensures grows { Grows self.old self.new }
        ensures is { IfOk result (λ b. b ≡ is boolean (sort_of self.old.vars self.old.defs [] (at self.old.terms id))) }
    {
        is_boolean(&self.terms, &mut self.sorts, &self.vars, self.defs, id)
    }

    /// Whether a closed term is well sorted, of the sort of a map.
    pub fn is_map(&mut self, id: TermId) -> Result<bool, AllocError>
        requires { id < length self.old.terms }
        ensures grows { Grows self.old self.new }
        ensures is { IfOk result (λ b. b ≡ is_map (sort_of self.old.vars self.old.defs [] (at self.old.terms id))) }
    {
        is_map(&self.terms, &mut self.sorts, &self.vars, self.defs, id)
    }
}
