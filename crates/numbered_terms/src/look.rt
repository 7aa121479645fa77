// What a node has, by its construct.
ghost use Rattle.std.specs.Prelude.{◌≡◌, option_map, map};
ghost use Rattle.logic_core.specs.Tree.{free};
ghost use Rattle.logic_core.specs.View.{trees_of, parts_of, patterns_of};
ghost use Rattle.logic_core.specs.Order.{rank, as_number, as_flag, as_index, as_sum, as_one, as_two, as_three, as_many, as_quantified};
ghost use Rattle.numbered_terms.specs.Stored.{shape};
ghost use Rattle.numbered_terms.specs.Shaped.{shaped, shaped_atoms, shaped_lists};

use logic_core::Sort;
use term_bank::{Node, TermId};

/// The number of the construct.
pub fn rank(node: &Node) -> u8
    ensures { result ≡ rank (shape node.now) }
{
    match node {
        Node::Num(_) => 0,
        Node::Truth(_) => 1,
        Node::Free(_) => 2,
        Node::Bound(_) => 3,
        Node::Sum(_, _) => 4,
        Node::Mul(_, _) => 5,
        Node::Read(_, _) => 6,
        Node::Write(_, _, _) => 7,
        Node::If(_, _, _) => 8,
        Node::Call(_, _) => 9,
        Node::Not(_) => 10,
        Node::And(_) => 11,
        Node::Or(_) => 12,
        Node::Eq(_, _) => 13,
        Node::Le(_, _) => 14,
        Node::ForAll(_, _, _) => 15,
        Node::Exists(_, _, _) => 16,
    }
}

/// The value of a Num, and else 0.
pub fn number(node: &Node) -> i128
    ensures { result ≡ as_number (shape node.now) }
{
    match node {
        Node::Num(n) => *n,
        _ => 0,
    }
}

/// The value of a Truth, and else false.
pub fn flag(node: &Node) -> bool
    ensures { result ≡ as_flag (shape node.now) }
{
    match node {
        Node::Truth(b) => *b,
        _ => false,
    }
}

/// The number of a variable or of a definition, and else 0.
pub fn index(node: &Node) -> u64
    ensures { result ≡ as_index (shape node.now) }
{
    match node {
        Node::Free(v) | Node::Bound(v) => *v,
        Node::Call(f, _) => *f,
        _ => 0,
    }
}

/// The parts and the constant of a Sum.
pub fn sum(node: &Node) -> Option<(&[(i128, TermId)], i128)>
    ensures { option_map (λ p. (parts_of (shaped_atoms p.0.now), p.1)) result ≡ as_sum (shape node.now) }
{
    match node {
        Node::Sum(parts, rest) => Some((parts, *rest)),
        _ => None,
    }
}

/// The part of a Not.
pub fn one(node: &Node) -> Option<TermId>
    ensures { option_map (λ a. free a) result ≡ as_one (shape node.now) }
{
    match node {
        Node::Not(a) => Some(*a),
        _ => None,
    }
}

/// The parts of a Mul, Read, Eq or Le.
pub fn two(node: &Node) -> Option<(TermId, TermId)>
    ensures { option_map (λ p. (free p.0, free p.1)) result ≡ as_two (shape node.now) }
{
    match node {
        Node::Mul(a, b) | Node::Read(a, b) | Node::Eq(a, b) | Node::Le(a, b) => Some((*a, *b)),
        _ => None,
    }
}

/// The parts of a Write or an If.
pub fn three(node: &Node) -> Option<(TermId, TermId, TermId)>
    ensures { option_map (λ p. (free p.0, free p.1, free p.2)) result ≡ as_three (shape node.now) }
{
    match node {
        Node::Write(a, b, c) | Node::If(a, b, c) => Some((*a, *b, *c)),
        _ => None,
    }
}

/// The parts of a Call, And or Or.
pub fn many(node: &Node) -> Option<&[TermId]>
    ensures { option_map (λ ts. trees_of (shaped ts.now)) result ≡ as_many (shape node.now) }
{
    match node {
        Node::Call(_, terms) | Node::And(terms) | Node::Or(terms) => Some(terms),
        _ => None,
    }
}

/// The sorts, triggers and body of a quantifier.
pub fn quantified(node: &Node) -> Option<(&[Sort], &[Vec<TermId>], TermId)>
    ensures { option_map (λ q. (q.0.now, patterns_of (shaped_lists q.1.now), free q.2)) result ≡ as_quantified (shape node.now) }
{
    match node {
        Node::ForAll(sorts, patterns, body) | Node::Exists(sorts, patterns, body) => {
            Some((sorts, patterns, *body))
        }
        _ => None,
    }
}
