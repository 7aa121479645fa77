// What a node has, by its construct: its place among the constructs, its number, and its parts; and
// nodes of the same construct with other parts.
ghost use Rattle.std.specs.Prelude.{◌≡◌, option_map};
ghost use Rattle.logic_core.specs.Rebuilt.{with_two, with_three, with_quantified};
ghost use Rattle.logic_core.specs.TermView.{tree_of};
ghost use Rattle.logic_core.specs.View.{trees_of, parts_of, patterns_of, each_items};
ghost use Rattle.logic_terms.specs.Variant.{rank, as_number, as_flag, as_index, as_sum, as_one, as_two, as_three, as_many, as_quantified};

use crate::sort::Sort;
use crate::term::{Node, Term};

impl Node {
    /// The place of the construct in the order, from 0 for Num to 16 for Exists.
    pub fn rank(&self) -> u8
        ensures { result ≡ rank (tree_of self.now) }
    {
        match self {
            Node::Num(_) => 0,
            Node::Truth(_) => 1,
            Node::Free(_) => 2,
            Node::Bound(_) => 3,
            Node::Sum(_, _) => 4,
            Node::Mul(_, _) => 5,
            Node::Read(_, _) => 6,
            Node::Write(_, _, _) => 7,
            Node::If(_, _, _) => 8,
            Node::Call(_, _) => 9,
            Node::Not(_) => 10,
            Node::And(_) => 11,
            Node::Or(_) => 12,
            Node::Eq(_, _) => 13,
            Node::Le(_, _) => 14,
            Node::ForAll(_, _, _) => 15,
            Node::Exists(_, _, _) => 16,
        }
    }

    /// The number of a Num, and else 0.
    pub fn number(&self) -> i128
        ensures { result ≡ as_number (tree_of self.now) }
    {
        match self {
            Node::Num(n) => *n,
            _ => 0,
        }
    }

    /// The value of a Truth, and else false.
    pub fn flag(&self) -> bool
        ensures { result ≡ as_flag (tree_of self.now) }
    {
        match self {
            Node::Truth(b) => *b,
            _ => false,
        }
    }

    /// The number of a variable or of a definition, and else 0.
    pub fn index(&self) -> u64
        ensures { result ≡ as_index (tree_of self.now) }
    {
        match self {
            Node::Free(v) | Node::Bound(v) => *v,
            Node::Call(f, _) => *f,
            _ => 0,
        }
    }

    /// The parts and the constant of a Sum.
    pub fn sum(&self) -> Option<(&[(i128, Term)], i128)>
        ensures { option_map (λ p. (parts_of p.0.now, p.1)) result ≡ as_sum (tree_of self.now) }
    {
        match self {
            Node::Sum(parts, rest) => Some((parts, *rest)),
            _ => None,
        }
    }

    /// The part of a Not.
    pub fn one(&self) -> Option<&Term>
        ensures { option_map (λ a. a.now) result ≡ as_one (tree_of self.now) }
    {
        match self {
            Node::Not(a) => Some(a),
            _ => None,
        }
    }

    /// The parts of a Mul, Read, Eq or Le.
    pub fn two(&self) -> Option<(&Term, &Term)>
        ensures { option_map (λ p. (p.0.now, p.1.now)) result ≡ as_two (tree_of self.now) }
    {
        match self {
            Node::Mul(a, b) | Node::Read(a, b) | Node::Eq(a, b) | Node::Le(a, b) => Some((a, b)),
            _ => None,
        }
    }

    /// The parts of a Write or an If.
    pub fn three(&self) -> Option<(&Term, &Term, &Term)>
        ensures { option_map (λ p. (p.0.now, p.1.now, p.2.now)) result ≡ as_three (tree_of self.now) }
    {
        match self {
            Node::Write(a, b, c) | Node::If(a, b, c) => Some((a, b, c)),
            _ => None,
        }
    }

    /// The parts of a Call, And or Or.
    pub fn many(&self) -> Option<&[Term]>
        ensures { option_map (λ ts. trees_of ts.now) result ≡ as_many (tree_of self.now) }
    {
        match self {
            Node::Call(_, terms) | Node::And(terms) | Node::Or(terms) => Some(terms),
            _ => None,
        }
    }

    /// The sorts, triggers and body of a quantifier.
    pub fn quantified(&self) -> Option<(&[Sort], &[Vec<Term>], &Term)>
        ensures { option_map (λ q. (q.0.now, patterns_of (each_items q.1.now), q.2.now)) result ≡ as_quantified (tree_of self.now) }
    {
        match self {
            Node::ForAll(sorts, patterns, body) | Node::Exists(sorts, patterns, body) => {
                Some((sorts, patterns, body))
            }
            _ => None,
        }
    }

    /// The Mul, Read, Eq or Le of these parts, of which this is one; and else their Mul.
    pub fn with_two(&self, a: Box<Term>, b: Box<Term>) -> Node
        ensures { tree_of result ≡ with_two (tree_of self.now) a.value b.value }
    {
        match self {
            Node::Read(_, _) => Node::Read(a, b),
            Node::Eq(_, _) => Node::Eq(a, b),
            Node::Le(_, _) => Node::Le(a, b),
            _ => Node::Mul(a, b),
        }
    }

    /// The Write or If of these parts, of which this is one; and else their Write.
    pub fn with_three(&self, a: Box<Term>, b: Box<Term>, c: Box<Term>) -> Node
        ensures { tree_of result ≡ with_three (tree_of self.now) a.value b.value c.value }
    {
        match self {
            Node::If(_, _, _) => Node::If(a, b, c),
            _ => Node::Write(a, b, c),
        }
    }

    /// The quantifier of these parts, of which this is one; and else the ForAll.
    pub fn with_quantified(
        &self,
        sorts: Vec<Sort>,
        patterns: Vec<Vec<Term>>,
        body: Box<Term>,
    ) -> Node
        ensures { tree_of result ≡ with_quantified (tree_of self.now) sorts.items (patterns_of (each_items patterns.items)) body.value }
    {
        match self {
            Node::Exists(_, _, _) => Node::Exists(sorts, patterns, body),
            _ => Node::ForAll(sorts, patterns, body),
        }
    }
}
