// What is open in a term, and what stands behind a term that fills a hole in it.
ghost use Rattle.std.specs.Prelude.{◌≡◌, IfOk};
ghost use Rattle.logic_core.specs.View.{parts_of};
ghost use Rattle.proof_text.specs.TermStates.{pair_of, triple_of, many_of, bound_of, full_of, body_of, filled};
ghost use Rattle.logic_core.specs.Tree.{linear};

use crate::parts::{Patterns, boxed, boxed_three, joined};
use logic_core::sequence::Sequence;
use logic_core::sort::Sort;
use logic_core::term::{Node, Term};
use std::alloc::{AllocError, Global};

/// Operators with two operands.
#[derive(Clone, Copy)]
pub enum Pair {
    Mul,
    Read,
    Eq,
    Le,
}

/// Operators with three operands.
#[derive(Clone, Copy)]
pub enum Triple {
    Write,
    If,
}

/// Operators with any number of operands.
#[derive(Clone, Copy)]
pub enum Many {
    Call(u64),
    And,
    Or,
}

/// Quantifiers.
#[derive(Clone, Copy)]
pub enum Binder {
    ForAll,
    Exists,
}

/// A term with a hole, which a term is to fill, and with what stands before the hole.
#[derive(Drop)]
pub enum Hole {
    Not,
    Left(Pair),
    Right(Pair, Term),
    First(Triple),
    Second(Triple, Term),
    Third(Triple, Term, Term),
    Member(Many, Sequence<Term>),
    Scaled(Sequence<(i128, Term)>, i128),
    Body(Binder, Sequence<Sort>, Patterns),
    Pattern(Binder, Sequence<Sort>, Patterns, Sequence<Term>),
}

/// A form that has all its parts, before the parenthesis that closes it.
#[derive(Drop)]
pub enum Full {
    Not(Term),
    Pair(Pair, Term, Term),
    Triple(Triple, Term, Term, Term),
    Quantifier(Binder, Sequence<Sort>, Patterns, Term),
}

/// What has been read of a form up to the end of a part: what may come is a space, or the parenthesis
/// that closes it.
#[derive(Drop)]
pub enum Behind {
    Space(Hole),
    Close(Full),
    Many(Many, Sequence<Term>),
    Parts(Sequence<(i128, Term)>),
    Sum(Sequence<(i128, Term)>, i128),
    Sorts(Binder),
    Pattern(Binder, Sequence<Sort>, Patterns, Sequence<Term>),
}

impl Pair {
    /// The operator on two operands.
    pub fn of(self, alloc: Global, a: Term, b: Term) -> Result<Term, AllocError>
        ensures { IfOk result (λ t. t ≡ pair_of self a b) }
    {
        let (a, b) = boxed(alloc, a, b)?;
        match self {
            Pair::Mul => Ok(Term::new(Node::Mul(a, b))),
            Pair::Read => Ok(Term::new(Node::Read(a, b))),
            Pair::Eq => Ok(Term::new(Node::Eq(a, b))),
            Pair::Le => Ok(Term::new(Node::Le(a, b))),
        }
    }
}

impl Triple {
    /// The operator on three operands.
    pub fn of(self, alloc: Global, a: Term, b: Term, c: Term) -> Result<Term, AllocError>
        ensures { IfOk result (λ t. t ≡ triple_of self a b c) }
    {
        let (a, b, c) = boxed_three(alloc, a, b, c)?;
        match self {
            Triple::Write => Ok(Term::new(Node::Write(a, b, c))),
            Triple::If => Ok(Term::new(Node::If(a, b, c))),
        }
    }
}

impl Many {
    /// The operator on its operands.
    pub fn of(self, terms: Sequence<Term>) -> Term
        ensures { result ≡ many_of self terms }
    {
        match self {
            Many::Call(f) => Term::new(Node::Call(f, terms.into_vec())),
            Many::And => Term::new(Node::And(terms.into_vec())),
            Many::Or => Term::new(Node::Or(terms.into_vec())),
        }
    }
}

impl Binder {
    /// The quantifier over its body.
    pub fn of(
        self,
        alloc: Global,
        sorts: Sequence<Sort>,
        patterns: Patterns,
        body: Term,
    ) -> Result<Term, AllocError>
        ensures { IfOk result (λ t. t ≡ bound_of self sorts patterns body) }
    {
        let sorts = sorts.into_vec();
        let patterns = patterns.into_vec();
        let body = Box::new(alloc, body)?;
        match self {
            Binder::ForAll => Ok(Term::new(Node::ForAll(sorts, patterns, body))),
            Binder::Exists => Ok(Term::new(Node::Exists(sorts, patterns, body))),
        }
    }
}

/// A sum of parts and a constant.
pub fn sum_of(parts: Sequence<(i128, Term)>, constant: i128) -> Term
    ensures { result ≡ linear (parts_of parts) constant }
{
    Term::new(Node::Sum(parts.into_vec(), constant))
}

impl Full {
    /// The term.
    pub fn term(self, alloc: Global) -> Result<Term, AllocError>
        ensures { IfOk result (λ t. t ≡ full_of self) }
    {
        match self {
            Full::Not(a) => Ok(Term::new(Node::Not(Box::new(alloc, a)?))),
            Full::Pair(pair, a, b) => pair.of(alloc, a, b),
            Full::Triple(triple, a, b, c) => triple.of(alloc, a, b, c),
            Full::Quantifier(binder, sorts, patterns, body) => {
                binder.of(alloc, sorts, patterns, body)
            }
        }
    }
}

impl Hole {
    /// What stands behind the term in the hole.
    pub fn filled(self, term: Term) -> Result<Behind, AllocError>
        ensures { IfOk result (λ b. b ≡ filled self term) }
    {
        match self {
            Hole::Not => Ok(Behind::Close(Full::Not(term))),
            Hole::Left(pair) => Ok(Behind::Space(Hole::Right(pair, term))),
            Hole::Right(pair, a) => Ok(Behind::Close(Full::Pair(pair, a, term))),
            Hole::First(triple) => Ok(Behind::Space(Hole::Second(triple, term))),
            Hole::Second(triple, a) => Ok(Behind::Space(Hole::Third(triple, a, term))),
            Hole::Third(triple, a, b) => Ok(Behind::Close(Full::Triple(triple, a, b, term))),
            Hole::Member(many, terms) => Ok(Behind::Many(many, joined(terms, term)?)),
            Hole::Scaled(parts, k) => Ok(Behind::Parts(joined(parts, (k, term))?)),
            Hole::Body(binder, sorts, patterns) => {
                Ok(Behind::Close(Full::Quantifier(binder, sorts, patterns, term)))
            }
            Hole::Pattern(binder, sorts, patterns, terms) => Ok(Behind::Pattern(
                binder,
                sorts,
                patterns,
                joined(terms, term)?,
            )),
        }
    }

    /// The quantifier, its sorts and its triggers, where its body is to fill the hole.
    pub fn into_body(self) -> Option<(Binder, Sequence<Sort>, Patterns)>
        ensures { result ≡ body_of self }
    {
        match self {
            Hole::Body(binder, sorts, patterns) => Some((binder, sorts, patterns)),
            other => {
                drop(other);
                None
            }
        }
    }
}
