// The normal forms of constructs whose parts are normal.
ghost use Rattle.std.specs.Prelude.{◌≡◌, option_map, IfOk, if◌then◌else◌};
ghost use Rattle.logic_terms.specs.Tree.{equal, at_most, choose};
ghost use Rattle.logic_terms.specs.Same.{same_term};
ghost use Rattle.logic_core.specs.Gives.{Gives};
ghost use Rattle.logic_core.specs.Normal.{choice, quantified, has_negative_lead, equals_zero, zero_at_most, equivalence_with, equivalence, equation_of, equation, inequality};
ghost use Rattle.logic_core.specs.Rebuilt.{with_quantified};
ghost use Rattle.logic_core.specs.TermView.{tree_of};
ghost use Rattle.logic_core.specs.View.{patterns_of, each_items};

use crate::fault::NormalFault;
use crate::negation::negated;
use crate::sort::{Sort, SortKind};
use crate::sum::{affine, difference, in_order};
use crate::term::{Node, Term};
use std::alloc::{AllocError, Global};

// If: a truth value chooses; equal branches are the result.
pub(crate) fn choice(alloc: Global, c: Term, a: Term, b: Term) -> Result<Term, AllocError>
    ensures { IfOk result (λ t. t ≡ choice c a b) }
{
    match c.into_node() {
        Node::Truth(true) => Ok(a),
        Node::Truth(false) => Ok(b),
        node => {
            let c = Term::new(node);
            choice_by(alloc, c, a, b)
        }
    }
}

// The If of these very parts, or a branch where both are equal.
fn choice_by(alloc: Global, c: Term, a: Term, b: Term) -> Result<Term, AllocError>
    ensures { IfOk result (λ t. t ≡ (if same_term a b then a else choose c a b)) }
{
    if a.equals(&b) {
        return Ok(a);
    }
    Ok(Term::new(Node::If(
        Box::new(alloc, c)?,
        Box::new(alloc, a)?,
        Box::new(alloc, b)?,
    )))
}

// The Eq of these very sides.
fn equal(alloc: Global, a: Term, b: Term) -> Result<Term, AllocError>
    ensures { IfOk result (λ t. t ≡ equal a b) }
{
    Ok(Term::new(Node::Eq(Box::new(alloc, a)?, Box::new(alloc, b)?)))
}

impl Term {
    // Whether it is a Sum whose first coefficient is negative.
    fn has_negative_lead(&self) -> bool
        ensures { result ≡ has_negative_lead self.now }
    {
        match &self.node {
            Node::Sum(parts, _) => match parts.first() {
                Some(part) => part.0 < 0,
                None => false,
            },
            _ => false,
        }
    }
}

// Eq(d, 0): of a Num its truth value, and else with a positive lead.
fn equals_zero(alloc: Global, d: Term) -> Result<Term, NormalFault>
    ensures { Gives result (equals_zero d) }
{
    match d.into_node() {
        Node::Num(n) => Ok(Term::new(Node::Truth(n == 0))),
        node => {
            let d = Term::new(node);
            let e = if d.has_negative_lead() {
                affine(alloc, -1, d, 0)?
            } else {
                d
            };
            Ok(equal(alloc, e, Term::new(Node::Num(0)))?)
        }
    }
}

/// Le(0, d), for a normal d: of a Num its truth value.
pub(crate) fn zero_at_most(alloc: Global, d: Term) -> Result<Term, AllocError>
    ensures { IfOk result (λ t. t ≡ zero_at_most d) }
{
    match d.into_node() {
        Node::Num(n) => Ok(Term::new(Node::Truth(0 <= n))),
        node => {
            let d = Term::new(node);
            at_most(alloc, Term::new(Node::Num(0)), d)
        }
    }
}

// The Le of these very sides.
pub(crate) fn at_most(alloc: Global, a: Term, b: Term) -> Result<Term, AllocError>
    ensures { IfOk result (λ t. t ≡ at_most a b) }
{
    Ok(Term::new(Node::Le(Box::new(alloc, a)?, Box::new(alloc, b)?)))
}

// Eq of Bool, where the first side is no truth value: beside one it is the first side or its Not.
fn equivalence_with(alloc: Global, a: Term, b: Term) -> Result<Term, NormalFault>
    ensures { Gives result (equivalence_with a b) }
{
    match b.into_node() {
        Node::Truth(true) => Ok(a),
        Node::Truth(false) => negated(alloc, &a),
        node => {
            let (first, second) = in_order(a, Term::new(node));
            Ok(equal(alloc, first, second)?)
        }
    }
}

// Eq of Bool: beside a truth value the other side or its Not, and else the smaller side first.
fn equivalence(alloc: Global, a: Term, b: Term) -> Result<Term, NormalFault>
    ensures { Gives result (equivalence a b) }
{
    match a.into_node() {
        Node::Truth(true) => Ok(b),
        Node::Truth(false) => negated(alloc, &b),
        node => equivalence_with(alloc, Term::new(node), b),
    }
}

// Eq of sides that aren't equal, by their sort.
fn equation_of(alloc: Global, sort: Option<Sort>, a: Term, b: Term) -> Result<Term, NormalFault>
    ensures { Gives result (equation_of sort a b) }
{
    match sort {
        Some(sort) => match &sort.kind {
            SortKind::Int => equals_zero(alloc, difference(alloc, a, b)?),
            SortKind::Bool => equivalence(alloc, a, b),
            SortKind::Map(_) => {
                let (first, second) = in_order(a, b);
                Ok(equal(alloc, first, second)?)
            }
        },
        None => Ok(equal(alloc, a, b)?),
    }
}

// Eq: equal sides are true.
pub(crate) fn equation(
    alloc: Global,
    sort: Option<Sort>,
    a: Term,
    b: Term,
) -> Result<Term, NormalFault>
    ensures { Gives result (equation sort a b) }
{
    if a.equals(&b) {
        return Ok(Term::new(Node::Truth(true)));
    }
    equation_of(alloc, sort, a, b)
}

// Le, by the difference of the sides.
pub(crate) fn inequality(alloc: Global, a: Term, b: Term) -> Result<Term, NormalFault>
    ensures { Gives result (inequality a b) }
{
    Ok(zero_at_most(alloc, difference(alloc, b, a)?)?)
}

// The quantifier of these parts, ForAll or Exists as that node is, but of a truth value that truth
// value.
pub(crate) fn quantified(
    alloc: Global,
    of: &Node,
    sorts: Vec<Sort>,
    patterns: Vec<Vec<Term>>,
    body: Term,
) -> Result<Term, AllocError>
    ensures { IfOk result (λ t. t ≡ quantified (λ v. with_quantified (tree_of of.now) sorts.items (patterns_of (each_items patterns.items)) v) body) }
{
    match body.into_node() {
        Node::Truth(b) => Ok(Term::new(Node::Truth(b))),
        node => {
            let body = Box::new(alloc, Term::new(node))?;
            Ok(Term::new(of.with_quantified(sorts, patterns, body)))
        }
    }
}
