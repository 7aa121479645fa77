// Whether two sorts or two terms are the same: the same constructs with the same numbers.
ghost use Rattle.std.specs.Prelude.{◌≡◌, ◌&&◌, nat_eq};
ghost use Rattle.std.specs.Ordering.{int_eq};
ghost use Rattle.logic_core.specs.View.{trees_of, parts_of, patterns_of, each_items};
ghost use Rattle.logic_terms.specs.Same.{same_kind, same_kinds, is_some_and, same_term, same_trees, same_parts, same_patterns};
ghost use Rattle.logic_terms.specs.Variant.{as_index, as_sum, as_one, as_two, as_three, as_many, as_quantified};

use crate::sort::{Sort, SortKind};
use crate::term::{Node, Term};

impl Sort {
    /// Whether the two are the same sort.
    pub fn equals(&self, other: &Sort) -> bool
        ensures { result ≡ same_kind self.now other.now }
    {
        match &self.kind {
            SortKind::Int => match &other.kind {
                SortKind::Int => true,
                _ => false,
            },
            SortKind::Bool => match &other.kind {
                SortKind::Bool => true,
                _ => false,
            },
            SortKind::Map(mine) => match &other.kind {
                SortKind::Map(theirs) => mine.equals(theirs),
                _ => false,
            },
        }
    }
}

impl Term {
    /// Whether the two are the same term.
    #[cycle(same)]
    pub fn equals(&self, other: &Term) -> bool
        ensures { result ≡ same_term self.now other.now }
    {
        if self.node.rank() != other.node.rank() {
            return false;
        }
        match &self.node {
            Node::Num(n) => *n == other.node.number(),
            Node::Truth(b) => *b == other.node.flag(),
            Node::Free(v) | Node::Bound(v) => *v == other.node.index(),
            Node::Sum(parts, rest) => equal_sums(parts, *rest, other),
            Node::Mul(a, b) | Node::Read(a, b) | Node::Eq(a, b) | Node::Le(a, b) => {
                equal_two(a, b, other)
            }
            Node::Write(a, b, c) | Node::If(a, b, c) => equal_three(a, b, c, other),
            Node::Call(f, terms) => equal_calls(*f, terms, other),
            Node::Not(a) => equal_one(a, other),
            Node::And(terms) | Node::Or(terms) => equal_many(terms, other),
            Node::ForAll(sorts, patterns, body) | Node::Exists(sorts, patterns, body) => {
                equal_quantified(sorts, patterns, body, other)
            }
        }
    }
}

// Whether the other term has these parts. Choices within an arm for many constructs are functions
// of their own, since a proof goes through each of its ways for each construct.
#[cycle(same)]
fn equal_one(a: &Term, other: &Term) -> bool
    ensures { result ≡ is_some_and (as_one other.now) (λ b. same_term a.now b) }
{
    match other.node.one() {
        Some(b) => a.equals(b),
        None => false,
    }
}

#[cycle(same)]
fn equal_two(a: &Term, b: &Term, other: &Term) -> bool
    ensures { result ≡ is_some_and (as_two other.now) (λ p. same_term a.now p.0 && same_term b.now p.1) }
{
    match other.node.two() {
        Some((c, d)) => a.equals(c) && b.equals(d),
        None => false,
    }
}

#[cycle(same)]
fn equal_three(a: &Term, b: &Term, c: &Term, other: &Term) -> bool
    ensures { result ≡ is_some_and (as_three other.now) (λ p. same_term a.now p.0 && (same_term b.now p.1 && same_term c.now p.2)) }
{
    match other.node.three() {
        Some((d, e, f)) => a.equals(d) && (b.equals(e) && c.equals(f)),
        None => false,
    }
}

#[cycle(same)]
fn equal_many(terms: &[Term], other: &Term) -> bool
    ensures { result ≡ is_some_and (as_many other.now) (λ us. same_trees (trees_of terms.now) us) }
{
    match other.node.many() {
        Some(others) => equal_terms(terms, others),
        None => false,
    }
}

#[cycle(same)]
fn equal_calls(f: u64, terms: &[Term], other: &Term) -> bool
    ensures { result ≡ (nat_eq f (as_index other.now) && is_some_and (as_many other.now) (λ us. same_trees (trees_of terms.now) us)) }
{
    f == other.node.index() && equal_many(terms, other)
}

#[cycle(same)]
fn equal_sums(parts: &[(i128, Term)], rest: i128, other: &Term) -> bool
    ensures { result ≡ is_some_and (as_sum other.now) (λ p. same_parts (parts_of parts.now) p.0 && int_eq rest p.1) }
{
    match other.node.sum() {
        Some((others, other_rest)) => equal_parts(parts, others) && rest == other_rest,
        None => false,
    }
}

#[cycle(same)]
fn equal_quantified(sorts: &[Sort], patterns: &[Vec<Term>], body: &Term, other: &Term) -> bool
    ensures { result ≡ is_some_and (as_quantified other.now) (λ q. same_kinds sorts.now q.0 && (same_patterns (patterns_of (each_items patterns.now)) q.1 && same_term body.now q.2)) }
{
    match other.node.quantified() {
        Some((other_sorts, other_patterns, other_body)) => {
            equal_sorts(sorts, other_sorts)
                && (equal_patterns(patterns, other_patterns) && body.equals(other_body))
        }
        None => false,
    }
}

#[cycle(same)]
fn equal_terms(mine: &[Term], theirs: &[Term]) -> bool
    ensures { result ≡ same_trees (trees_of mine.now) (trees_of theirs.now) }
{
    let shared = mine.len().min(theirs.len());
    for i in 0..shared {
        if !mine[i].equals(&theirs[i]) {
            return false;
        }
    }
    mine.len() == theirs.len()
}

#[cycle(same)]
fn equal_parts(mine: &[(i128, Term)], theirs: &[(i128, Term)]) -> bool
    ensures { result ≡ same_parts (parts_of mine.now) (parts_of theirs.now) }
{
    let shared = mine.len().min(theirs.len());
    for i in 0..shared {
        if mine[i].0 != theirs[i].0 || !mine[i].1.equals(&theirs[i].1) {
            return false;
        }
    }
    mine.len() == theirs.len()
}

#[cycle(same)]
fn equal_patterns(mine: &[Vec<Term>], theirs: &[Vec<Term>]) -> bool
    ensures { result ≡ same_patterns (patterns_of (each_items mine.now)) (patterns_of (each_items theirs.now)) }
{
    let shared = mine.len().min(theirs.len());
    for i in 0..shared {
        if !equal_terms(&mine[i], &theirs[i]) {
            return false;
        }
    }
    mine.len() == theirs.len()
}

/// Whether the two are the same sorts in the same order.
pub fn equal_sorts(mine: &[Sort], theirs: &[Sort]) -> bool
    ensures { result ≡ same_kinds mine.now theirs.now }
{
    let shared = mine.len().min(theirs.len());
    for i in 0..shared {
        if !mine[i].equals(&theirs[i]) {
            return false;
        }
    }
    mine.len() == theirs.len()
}
