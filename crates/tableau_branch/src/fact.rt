// Facts.
ghost use Rattle.std.specs.Prelude.{◌≡◌, false, IsTrue, IfOk};
ghost use Rattle.std.specs.Option.{option_copied};
ghost use Rattle.logic_core.specs.Junction.{negated};
ghost use Rattle.logic_core.specs.Same.{same_term};
ghost use Rattle.logic_core.specs.Size.{capped};
ghost use Rattle.logic_core.specs.Subterm.{occurs};
ghost use Rattle.logic_core.specs.Tree.{nodes};
ghost use Rattle.logic_core.specs.Variables.{variables};
ghost use Rattle.proof_core.specs.Close.{is_negation_of};
ghost use Rattle.tableau_branch.specs.Branch.{is_there};
ghost use Rattle.tableau_branch.specs.Sides.{defined_side};
ghost use Rattle.term_bank.specs.Hash.{hash_of};

use crate::applications::Applications;
use crate::oriented::{Side, defined_side};
use logic_core::fault::NormalFault;
use logic_core::mention::Mentioned;
use logic_core::negation::negated;
use logic_core::term::{Node, Term};
use std::alloc::{AllocError, Global};
use std::marker::Model;
use term_bank::hash::hash;

/// A term with its size and its hash beside it.
#[derive(Drop)]
pub struct SizedTerm {
    term: Term,
    size: u64,
    hash: u64,
}

impl Model for SizedTerm {
    ghost use Rattle.std.specs.Prelude.{◌≡◌};
    ghost use Rattle.logic_core.specs.Tree.{Tree, nodes};
    ghost use Rattle.logic_core.specs.Codes.{coded_tree};
    ghost use Rattle.logic_core.specs.Size.{capped};
    ghost use Rattle.term_bank.specs.Hash.{hash_of};

    ghost Value = { Tree };

    ghost coded = { coded_tree };

    ghost view = { λ a. a.term };

    ghost invariant = { λ a. (a.size ≡ capped (nodes a.term)) × (a.hash ≡ hash_of a.term) };
}

impl SizedTerm {
    /// The term with its size and its hash.
    pub fn of(term: Term) -> SizedTerm
        ensures { result ≡ term }
    {
        let hash = hash(&term);
        SizedTerm::hashed(term, hash)
    }

    /// The term, whose hash this is, with its size.
    fn hashed(term: Term, hash: u64) -> SizedTerm
        requires { hash ≡ hash_of term }
        ensures { result ≡ term }
    {
        let size = term.size();
        SizedTerm { term, size, hash }
    }

    /// The term.
    pub fn term(&self) -> &Term
        ensures { result.now ≡ self.now }
    {
        &self.term
    }

    /// The number of nodes, or 2^64 - 1 where there are more.
    pub fn size(&self) -> u64
        ensures { result ≡ capped (nodes self.now) }
    {
        self.size
    }

    /// A hash of the term: equal terms have equal ones.
    pub fn hash(&self) -> u64
        ensures { result ≡ hash_of self.now }
    {
        self.hash
    }

    /// Whether the two are the same term: terms of two hashes never are.
    #[tactic(auto, using(crate::proofs::Hashes::other_hash))]
    pub fn equals(&self, other: &SizedTerm) -> bool
        ensures { result ≡ same_term self.now other.now }
    {
        if self.hash != other.hash {
            return false;
        }
        self.term.equals(&other.term)
    }

    /// An equal term.
    pub fn copy(&self, alloc: Global) -> Result<SizedTerm, AllocError>
        ensures { IfOk result (λ t. t ≡ self.now) }
    {
        let term = self.term.copy(alloc)?;
        Ok(SizedTerm {
            term,
            size: self.size,
            hash: self.hash,
        })
    }
}

/// A normal fact of a branch, and its number in the proof. Its normal Not, the side that it defines
/// where it is an equation, the variables that it mentions, and the hashes of its Reads and Calls are
/// kept beside it.
#[derive(Drop)]
pub struct Fact {
    term: SizedTerm,
    number: u64,
    negation: Option<SizedTerm>,
    side: Option<Side>,
    variables: Vec<u64>,
    applications: Vec<u64>,
}

impl Model for Fact {
    ghost use Rattle.std.specs.Prelude.{◌≡◌};
    ghost use Rattle.logic_core.specs.Junction.{negated};
    ghost use Rattle.logic_core.specs.Variables.{variables as variables_of};
    ghost use Rattle.tableau_branch.specs.Applications.{applications as applications_of};
    ghost use Rattle.tableau_branch.specs.Branch.{Fact as fact};
    ghost use Rattle.tableau_branch.specs.Codes.{coded_fact};
    ghost use Rattle.tableau_branch.specs.Sides.{defined_side};

    ghost Value = { fact };

    ghost coded = { coded_fact };

    ghost view = { λ a. record { term = a.term; number = a.number } };

    ghost invariant = { λ a. (a.negation ≡ negated a.term) × (a.variables.items ≡ variables_of a.term) × (a.applications.items ≡ applications_of a.term) × (a.side ≡ defined_side a.term) };
}

impl Fact {
    /// The fact of this normal term and number.
    pub fn new(alloc: Global, term: Term, number: u64) -> Result<Fact, AllocError>
        ensures { IfOk result (λ f. f ≡ record { term = term; number = number }) }
    {
        let negation = negation(alloc, &term)?;
        let side = defined_side(&term);
        let variables = variables(alloc, &term)?;
        let mut applications = Applications::none(alloc);
        let hash = applications.add_term(&term)?;
        Ok(Fact {
            term: SizedTerm::hashed(term, hash),
            number,
            negation,
            side,
            variables,
            applications: applications.hashes,
        })
    }

    /// The formula.
    pub fn term(&self) -> &Term
        ensures { result.now ≡ self.now.term }
    {
        self.term.term()
    }

    /// The formula's size.
    pub fn size(&self) -> u64
        ensures { result ≡ capped (nodes self.now.term) }
    {
        self.term.size()
    }

    /// The number in the proof.
    pub fn number(&self) -> u64
        ensures { result ≡ self.now.number }
    {
        self.number
    }

    /// The formula with its size.
    pub fn sized(&self) -> &SizedTerm
        ensures { result.now ≡ self.now.term }
    {
        &self.term
    }

    /// The normal Not of the formula, where it stays in 128 bits.
    pub fn negation(&self) -> Option<&SizedTerm>
        ensures { option_copied result ≡ negated self.now.term }
    {
        self.negation.as_ref()
    }

    /// The formula's variables, each as often as it stands in the formula, in its order.
    pub fn variables(&self) -> &[u64]
        ensures { result.now ≡ variables self.now.term }
    {
        &self.variables
    }

    /// The side that the formula defines, where it is an equation.
    pub fn side(&self) -> Option<Side>
        ensures { result ≡ defined_side self.now.term }
    {
        self.side
    }

    /// Whether the term, whose hash this is, is a variable that the formula doesn't mention, or a Read
    /// or a Call of another hash than those in it.
    fn lacks(&self, term: &Term, hash: u64) -> bool
        requires { hash ≡ hash_of term.now }
        ensures { IsTrue result → occurs term.now self.now.term ≡ false }
    {
        match &term.node {
            Node::Free(v) => !self.variables.contains(v),
            Node::Read(_, _) => !self.applications.contains(&hash),
            Node::Call(_, _) => !self.applications.contains(&hash),
            _ => false,
        }
    }

    /// Whether the term, whose hash this is, occurs in the formula.
    pub fn holds(&self, term: &Term, hash: u64) -> bool
        requires { hash ≡ hash_of term.now }
        ensures { result ≡ occurs term.now self.now.term }
    {
        if self.lacks(term, hash) {
            return false;
        }
        term.occurs_in(self.term())
    }

    /// Whether the formula is the normal Not of the other fact's.
    pub fn is_negation_of(&self, other: &Fact) -> bool
        ensures { result ≡ is_negation_of self.now.term other.now.term }
    {
        match &other.negation {
            Some(negation) => negation.equals(&self.term),
            None => false,
        }
    }

    /// An equal fact.
    pub fn copy(&self, alloc: Global) -> Result<Fact, AllocError>
        ensures { IfOk result (λ f. f ≡ self.now) }
    {
        let term = self.term.copy(alloc)?;
        let number = self.number;
        let negation = copy_some(alloc, &self.negation)?;
        let side = self.side;
        let mut variables = Vec::new(alloc);
        variables.extend_from_slice(&self.variables)?;
        let mut applications = Vec::new(alloc);
        applications.extend_from_slice(&self.applications)?;
        Ok(Fact {
            term,
            number,
            negation,
            side,
            variables,
            applications,
        })
    }
}

/// The variables of a formula, each as often as it stands in it, in its order.
fn variables(alloc: Global, term: &Term) -> Result<Vec<u64>, AllocError>
    ensures { IfOk result (λ v. v.items ≡ variables term.now) }
{
    let mut mentioned = Mentioned::nothing(alloc);
    mentioned.add_term(term)?;
    Ok(mentioned.variables)
}

/// The normal Not of a normal formula, where it stays in 128 bits.
fn negation(alloc: Global, term: &Term) -> Result<Option<SizedTerm>, AllocError>
    ensures { IfOk result (λ o. o ≡ negated term.now) }
{
    match negated(alloc, term) {
        Ok(negation) => Ok(Some(SizedTerm::of(negation))),
        Err(NormalFault::Wide) => Ok(None),
        Err(NormalFault::Memory) => Err(AllocError),
    }
}

/// An equal term, where there is one.
fn copy_some(alloc: Global, term: &Option<SizedTerm>) -> Result<Option<SizedTerm>, AllocError>
    ensures { IfOk result (λ o. o ≡ term.now) }
{
    match term {
        Some(term) => Ok(Some(term.copy(alloc)?)),
        None => Ok(None),
    }
}

/// Equal facts.
pub fn copy_facts(alloc: Global, facts: &[Fact]) -> Result<Vec<Fact>, AllocError>
    ensures { IfOk result (λ v. v.items ≡ facts.now) }
{
    let mut copies = Vec::new(alloc);
    for fact in facts {
        copies.push(fact.copy(alloc)?)?;
    }
    Ok(copies)
}

/// Whether the term is one of the facts.
pub fn is_there(term: &SizedTerm, facts: &[Fact]) -> bool
    ensures { result ≡ is_there term.now facts.now }
{
    for fact in facts {
        if term.equals(&fact.term) {
            return true;
        }
    }
    false
}
