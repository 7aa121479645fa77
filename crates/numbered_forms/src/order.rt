// How two terms stand in the order of terms, by number.
ghost use Rattle.std.specs.Prelude.{◌≡◌, ◌<◌, ◌≤◌, length};
ghost use Rattle.std.specs.List.{AllByRecursion};
ghost use Rattle.logic_core.specs.View.{trees_of, parts_of, patterns_of};
ghost use Rattle.logic_core.specs.Order.{first, inside, order, trees_order, parts_order, patterns_order};
ghost use Rattle.term_bank.specs.Numbered.{at};
ghost use Rattle.term_bank.specs.Node.{tree_over, numbers_in, in_lists};
ghost use Rattle.numbered_terms.specs.Lists.{terms_at, atoms_at, lists_at, AtomsBelow};

use logic_core::order::compare_sorts;
use numbered_terms::Terms;
use std::cmp::Ordering;
use term_bank::{Node, TermId};

// By size, and then by rank.
#[tactic(auto, unfolding(logic_core::specs::Order::first))]
fn compare_first(terms: &Terms, a: TermId, b: TermId) -> Ordering
    requires a { a < length terms.now }
    requires b { b < length terms.now }
    ensures { result ≡ first (at terms.now a) (at terms.now b) }
{
    let by_size = terms.size(a).cmp(&terms.size(b));
    by_size.then(
        terms
            .rank_of(terms.node(a))
            .cmp(&terms.rank_of(terms.node(b))),
    )
}

/// How the two stand in the order: by size, then by rank, then by what is inside.
#[cycle(order)]
pub fn compare(terms: &Terms, a: TermId, b: TermId) -> Ordering
    requires a { a < length terms.now }
    requires b { b < length terms.now }
    ensures { result ≡ order (at terms.now a) (at terms.now b) }
{
    if a == b {
        return Ordering::Equal;
    }
    let found = compare_first(terms, a, b);
    if found != Ordering::Equal {
        return found;
    }
    compare_inside(terms, a.number, terms.node(a), terms.node(b))
}

// By what is inside, for terms of one rank.
#[cycle(order)]
fn compare_inside(terms: &Terms, below: usize, node: &Node, other: &Node) -> Ordering
    requires below { below ≤ length terms.now }
    requires node { AllByRecursion (λ j. j < below) (numbers_in node.now) }
    requires other { AllByRecursion (λ j. j < length terms.now) (numbers_in other.now) }
    ensures { result ≡ inside (tree_over (at terms.now) node.now) (tree_over (at terms.now) other.now) }
{
    match node {
        Node::Num(n) => n.cmp(&terms.number_of(other)),
        Node::Truth(b) => b.cmp(&terms.flag_of(other)),
        Node::Free(v) | Node::Bound(v) => v.cmp(&terms.index_of(other)),
        Node::Sum(parts, rest) => match terms.sum_of(other) {
            Some((others, other_rest)) => {
                compare_atoms(terms, below, parts, others).then(rest.cmp(&other_rest))
            }
            None => Ordering::Equal,
        },
        Node::Mul(a, b) | Node::Read(a, b) | Node::Eq(a, b) | Node::Le(a, b) => match terms.two_of(
            other,
        ) {
            Some((c, d)) => compare(terms, *a, c).then(compare(terms, *b, d)),
            None => Ordering::Equal,
        },
        Node::Write(a, b, c) | Node::If(a, b, c) => match terms.three_of(other) {
            Some((d, e, f)) => compare(terms, *a, d).then(compare(terms, *b, e).then(compare(
                terms, *c, f,
            ))),
            None => Ordering::Equal,
        },
        Node::Call(f, ids) => match terms.many_of(other) {
            Some(others) => f
                .cmp(&terms.index_of(other))
                .then(compare_terms(terms, below, ids, others)),
            None => f.cmp(&terms.index_of(other)),
        },
        Node::Not(a) => match terms.one_of(other) {
            Some(b) => compare(terms, *a, b),
            None => Ordering::Equal,
        },
        Node::And(ids) | Node::Or(ids) => match terms.many_of(other) {
            Some(others) => compare_terms(terms, below, ids, others),
            None => Ordering::Equal,
        },
        Node::ForAll(sorts, lists, body) | Node::Exists(sorts, lists, body) => {
            match terms.quantified_of(other) {
                Some((other_sorts, other_lists, other_body)) => compare(
                    terms, *body, other_body,
                ).then(compare_sorts(sorts, other_sorts).then(compare_lists(
                    terms,
                    below,
                    lists,
                    other_lists,
                ))),
                None => Ordering::Equal,
            }
        }
    }
}

// Term by term; a list before a longer one of which it is the front.
#[cycle(order)]
fn compare_terms(terms: &Terms, below: usize, mine: &[TermId], theirs: &[TermId]) -> Ordering
    requires below { below ≤ length terms.now }
    requires mine { AllByRecursion (λ j. j < below) mine.now }
    requires theirs { AllByRecursion (λ j. j < length terms.now) theirs.now }
    ensures { result ≡ trees_order (trees_of (terms_at terms.now mine.now)) (trees_of (terms_at terms.now theirs.now)) }
{
    let shared = mine.len().min(theirs.len());
    for i in 0..shared {
        let found = compare(terms, mine[i], theirs[i]);
        if found != Ordering::Equal {
            return found;
        }
    }
    mine.len().cmp(&theirs.len())
}

// Part by part, each by its atom and then its coefficient.
#[cycle(order)]
fn compare_atoms(
    terms: &Terms,
    below: usize,
    mine: &[(i128, TermId)],
    theirs: &[(i128, TermId)],
) -> Ordering
    requires below { below ≤ length terms.now }
    requires mine { AtomsBelow below mine.now }
    requires theirs { AtomsBelow (length terms.now) theirs.now }
    ensures { result ≡ parts_order (parts_of (atoms_at terms.now mine.now)) (parts_of (atoms_at terms.now theirs.now)) }
{
    let shared = mine.len().min(theirs.len());
    for i in 0..shared {
        let found = compare(terms, mine[i].1, theirs[i].1).then(mine[i].0.cmp(&theirs[i].0));
        if found != Ordering::Equal {
            return found;
        }
    }
    mine.len().cmp(&theirs.len())
}

// Trigger by trigger.
#[cycle(order)]
fn compare_lists(
    terms: &Terms,
    below: usize,
    mine: &[Vec<TermId>],
    theirs: &[Vec<TermId>],
) -> Ordering
    requires below { below ≤ length terms.now }
    requires mine { AllByRecursion (λ j. j < below) (in_lists mine.now) }
    requires theirs { AllByRecursion (λ j. j < length terms.now) (in_lists theirs.now) }
    ensures { result ≡ patterns_order (patterns_of (lists_at terms.now mine.now)) (patterns_of (lists_at terms.now theirs.now)) }
{
    let shared = mine.len().min(theirs.len());
    for i in 0..shared {
        let found = compare_terms(terms, below, &mine[i], &theirs[i]);
        if found != Ordering::Equal {
            return found;
        }
    }
    mine.len().cmp(&theirs.len())
}
