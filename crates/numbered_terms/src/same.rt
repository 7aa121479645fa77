// Whether two nodes are one: the same construct with the same numbers.
ghost use Rattle.std.specs.Prelude.{◌≡◌};
ghost use Rattle.logic_core.specs.View.{trees_of, parts_of, patterns_of};
ghost use Rattle.logic_core.specs.Tree.{free};
ghost use Rattle.logic_core.specs.Same.{same_term, same_trees, same_parts, same_patterns};
ghost use Rattle.numbered_terms.specs.Stored.{shape};
ghost use Rattle.numbered_terms.specs.Shaped.{shaped, shaped_atoms, shaped_lists};

use crate::look::{flag, index, many, number, one, quantified, rank, sum, three, two};
use logic_core::same::equal_sorts;
use term_bank::{Node, TermId};

fn is_same(a: TermId, b: TermId) -> bool
    ensures { result ≡ same_term (free a) (free b) }
{
    a == b
}

fn same_terms(mine: &[TermId], theirs: &[TermId]) -> bool
    ensures { result ≡ same_trees (trees_of (shaped mine.now)) (trees_of (shaped theirs.now)) }
{
    let shared = mine.len().min(theirs.len());
    for i in 0..shared {
        if !is_same(mine[i], theirs[i]) {
            return false;
        }
    }
    mine.len() == theirs.len()
}

fn same_atoms(mine: &[(i128, TermId)], theirs: &[(i128, TermId)]) -> bool
    ensures { result ≡ same_parts (parts_of (shaped_atoms mine.now)) (parts_of (shaped_atoms theirs.now)) }
{
    let shared = mine.len().min(theirs.len());
    for i in 0..shared {
        if mine[i].0 != theirs[i].0 || !is_same(mine[i].1, theirs[i].1) {
            return false;
        }
    }
    mine.len() == theirs.len()
}

fn same_lists(mine: &[Vec<TermId>], theirs: &[Vec<TermId>]) -> bool
    ensures { result ≡ same_patterns (patterns_of (shaped_lists mine.now)) (patterns_of (shaped_lists theirs.now)) }
{
    let shared = mine.len().min(theirs.len());
    for i in 0..shared {
        if !same_terms(&mine[i], &theirs[i]) {
            return false;
        }
    }
    mine.len() == theirs.len()
}

/// Whether the two are one node.
pub fn same(node: &Node, other: &Node) -> bool
    ensures { result ≡ same_term (shape node.now) (shape other.now) }
{
    if rank(node) != rank(other) {
        return false;
    }
    match node {
        Node::Num(n) => *n == number(other),
        Node::Truth(b) => *b == flag(other),
        Node::Free(v) | Node::Bound(v) => *v == index(other),
        Node::Sum(parts, rest) => match sum(other) {
            Some((others, other_rest)) => same_atoms(parts, others) && *rest == other_rest,
            None => false,
        },
        Node::Mul(a, b) | Node::Read(a, b) | Node::Eq(a, b) | Node::Le(a, b) => match two(other) {
            Some((c, d)) => is_same(*a, c) && is_same(*b, d),
            None => false,
        },
        Node::Write(a, b, c) | Node::If(a, b, c) => match three(other) {
            Some((d, e, f)) => is_same(*a, d) && is_same(*b, e) && is_same(*c, f),
            None => false,
        },
        Node::Call(f, terms) => match many(other) {
            Some(others) => *f == index(other) && same_terms(terms, others),
            None => false,
        },
        Node::Not(a) => match one(other) {
            Some(b) => is_same(*a, b),
            None => false,
        },
        Node::And(terms) | Node::Or(terms) => match many(other) {
            Some(others) => same_terms(terms, others),
            None => false,
        },
        Node::ForAll(sorts, patterns, body) | Node::Exists(sorts, patterns, body) => {
            match quantified(other) {
                Some((other_sorts, other_patterns, other_body)) => {
                    equal_sorts(sorts, other_sorts)
                        && same_lists(patterns, other_patterns)
                        && is_same(*body, other_body)
                }
                None => false,
            }
        }
    }
}
