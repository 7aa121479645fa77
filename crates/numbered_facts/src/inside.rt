// What occurs in terms, and what stands in them outside quantifiers.
ghost use Rattle.std.specs.Prelude.{◌≡◌, ◌<◌, [], length, filter, find, IfOk, IfSome};
ghost use Rattle.logic_core.specs.Subterm.{occurs, outside};
ghost use Rattle.tableau_branch.specs.Oriented.{is_application};
ghost use Rattle.tableau_branch.specs.Shapes.{is_call, is_choice, is_access};
ghost use Rattle.logic_rules.specs.Instantiating.{each_once};
ghost use Rattle.term_bank.specs.Numbered.{at};
ghost use Rattle.numbered_terms.specs.Stored.{Grows};
ghost use Rattle.numbered_facts.specs.Answers.{StandsFor, AreAt};
ghost use Rattle.numbered_facts.specs.Atoms.{is_atom, AreAtomsIn};

use crate::atoms::{atoms, atoms_at, part_occurs};
use crate::standing::{access, call, choice, ground, ground_at};
use crate::store::Store;
use numbered_terms::Terms;
use std::alloc::AllocError;
use term_bank::{Node, TermId};

/// Whether the term of this number is an atom: what may be the left side of a fact whose parts have sorts.
pub fn is_atom(terms: &Terms, id: TermId) -> bool
    requires { id < length terms.now }
    ensures { result ≡ is_atom (at terms.now id) }
{
    match terms.node(id) {
        Node::Free(_) | Node::Mul(_, _) | Node::Read(_, _) => true,
        Node::Write(_, _, _) | Node::If(_, _, _) | Node::Call(_, _) => true,
        _ => false,
    }
}

impl<'a> Store<'a> {
    /// The atoms that occur in a term, inside quantifiers and triggers too, each once.
    pub fn atoms(&mut self, id: TermId) -> Result<Vec<TermId>, AllocError>
        requires { id < length self.old.terms }
        ensures grows { Grows self.old self.new }
        ensures atoms { IfOk result (λ v. AreAtomsIn self.new.terms id v.items) }
    {
        atoms(&self.terms, &mut self.atoms, id)
    }

    /// The same, where they are kept.
    pub fn kept_atoms(&self, id: TermId) -> Option<&[TermId]>
        ensures { IfSome result (λ v. AreAtomsIn self.now.terms id v.now) }
    {
        atoms_at(&self.terms, &self.atoms, id)
    }

    /// Whether the first term occurs in the second, inside quantifiers and triggers too.
    pub fn occurs(&mut self, part: TermId, id: TermId) -> Result<bool, AllocError>
        requires part { part < length self.old.terms }
        requires id { id < length self.old.terms }
        ensures grows { Grows self.old self.new }
        ensures gives { IfOk result (λ b. b ≡ occurs (at self.old.terms part) (at self.old.terms id)) }
    {
        part_occurs(&self.terms, &mut self.atoms, part, id)
    }

    /// The Reads and Calls in a term outside quantifiers, in preorder, each once.
    pub fn ground(&mut self, id: TermId) -> Result<Vec<TermId>, AllocError>
        requires { id < length self.old.terms }
        ensures grows { Grows self.old self.new }
        ensures gives { IfOk result (λ v. AreAt self.new.terms v.items (each_once [] (filter is_application (outside (at self.old.terms id))))) }
    {
        ground(&self.terms, &mut self.standing, id)
    }

    /// The same, where they are kept.
    pub fn kept_ground(&self, id: TermId) -> Option<&[TermId]>
        ensures { IfSome result (λ v. AreAt self.now.terms v.now (each_once [] (filter is_application (outside (at self.now.terms id))))) }
    {
        ground_at(&self.terms, &self.standing, id)
    }

    /// The first Call in a term outside quantifiers, in preorder.
    pub fn call(&mut self, id: TermId) -> Result<Option<TermId>, AllocError>
        requires { id < length self.old.terms }
        ensures grows { Grows self.old self.new }
        ensures gives { IfOk result (λ o. StandsFor self.new.terms o (find is_call (outside (at self.old.terms id)))) }
    {
        call(&self.terms, &mut self.standing, id)
    }

    /// The first If in a term outside quantifiers, in preorder.
    pub fn choice(&mut self, id: TermId) -> Result<Option<TermId>, AllocError>
        requires { id < length self.old.terms }
        ensures grows { Grows self.old self.new }
        ensures gives { IfOk result (λ o. StandsFor self.new.terms o (find is_choice (outside (at self.old.terms id)))) }
    {
        choice(&self.terms, &mut self.standing, id)
    }

    /// The first Read of a Write in a term outside quantifiers, in preorder.
    pub fn access(&mut self, id: TermId) -> Result<Option<TermId>, AllocError>
        requires { id < length self.old.terms }
        ensures grows { Grows self.old self.new }
        ensures gives { IfOk result (λ o. StandsFor self.new.terms o (find is_access (outside (at self.old.terms id)))) }
    {
        access(&self.terms, &mut self.standing, id)
    }
}
