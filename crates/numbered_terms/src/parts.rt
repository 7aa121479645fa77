// What a node has over the terms of a store, by its construct.
ghost use Rattle.std.specs.Prelude.{◌≡◌, ◌<◌, length, option_map, IfSome};
ghost use Rattle.std.specs.List.{AllByRecursion};
ghost use Rattle.logic_core.specs.View.{trees_of, parts_of, patterns_of};
ghost use Rattle.logic_core.specs.Order.{rank, as_number, as_flag, as_index, as_sum, as_one, as_two, as_three, as_many, as_quantified};
ghost use Rattle.term_bank.specs.Numbered.{at};
ghost use Rattle.term_bank.specs.Node.{tree_over, numbers_in, in_lists};
ghost use Rattle.numbered_terms.specs.Lists.{terms_at, atoms_at, lists_at, AtomsBelow};

use crate::terms::Terms;
use logic_core::Sort;
use term_bank::{Node, TermId};

impl Terms {
    /// The number of the node's construct.
    pub fn rank_of(&self, node: &Node) -> u8
        ensures { result ≡ rank (tree_over (at self.now) node.now) }
    {
        match node {
            Node::Num(_) => 0,
            Node::Truth(_) => 1,
            Node::Free(_) => 2,
            Node::Bound(_) => 3,
            Node::Sum(_, _) => 4,
            Node::Mul(_, _) => 5,
            Node::Read(_, _) => 6,
            Node::Write(_, _, _) => 7,
            Node::If(_, _, _) => 8,
            Node::Call(_, _) => 9,
            Node::Not(_) => 10,
            Node::And(_) => 11,
            Node::Or(_) => 12,
            Node::Eq(_, _) => 13,
            Node::Le(_, _) => 14,
            Node::ForAll(_, _, _) => 15,
            Node::Exists(_, _, _) => 16,
        }
    }

    /// The value of a Num, and else 0.
    pub fn number_of(&self, node: &Node) -> i128
        ensures { result ≡ as_number (tree_over (at self.now) node.now) }
    {
        match node {
            Node::Num(n) => *n,
            _ => 0,
        }
    }

    /// The value of a Truth, and else false.
    pub fn flag_of(&self, node: &Node) -> bool
        ensures { result ≡ as_flag (tree_over (at self.now) node.now) }
    {
        match node {
            Node::Truth(b) => *b,
            _ => false,
        }
    }

    /// The number of a variable or of a definition, and else 0.
    pub fn index_of(&self, node: &Node) -> u64
        ensures { result ≡ as_index (tree_over (at self.now) node.now) }
    {
        match node {
            Node::Free(v) | Node::Bound(v) => *v,
            Node::Call(f, _) => *f,
            _ => 0,
        }
    }

    /// The atoms and the constant of a Sum.
    pub fn sum_of<'n>(&self, node: &'n Node) -> Option<(&'n [(i128, TermId)], i128)>
        requires { AllByRecursion (λ j. j < length self.now) (numbers_in node.now) }
        ensures is { option_map (λ p. (parts_of (atoms_at self.now p.0.now), p.1)) result ≡ as_sum (tree_over (at self.now) node.now) }
        ensures within { IfSome result (λ p. AtomsBelow (length self.now) p.0.now) }
    {
        match node {
            Node::Sum(parts, rest) => Some((parts, *rest)),
            _ => None,
        }
    }

    /// The part of a Not.
    pub fn one_of(&self, node: &Node) -> Option<TermId>
        requires { AllByRecursion (λ j. j < length self.now) (numbers_in node.now) }
        ensures is { option_map (λ a. at self.now a) result ≡ as_one (tree_over (at self.now) node.now) }
        ensures within { IfSome result (λ a. a < length self.now) }
    {
        match node {
            Node::Not(a) => Some(*a),
            _ => None,
        }
    }

    /// The parts of a Mul, Read, Eq or Le.
    pub fn two_of(&self, node: &Node) -> Option<(TermId, TermId)>
        requires { AllByRecursion (λ j. j < length self.now) (numbers_in node.now) }
        ensures is { option_map (λ p. (at self.now p.0, at self.now p.1)) result ≡ as_two (tree_over (at self.now) node.now) }
        ensures first { IfSome result (λ p. p.0 < length self.now) }
        ensures second { IfSome result (λ p. p.1 < length self.now) }
    {
        match node {
            Node::Mul(a, b) | Node::Read(a, b) | Node::Eq(a, b) | Node::Le(a, b) => Some((*a, *b)),
            _ => None,
        }
    }

    /// The parts of a Write or an If.
    pub fn three_of(&self, node: &Node) -> Option<(TermId, TermId, TermId)>
        requires { AllByRecursion (λ j. j < length self.now) (numbers_in node.now) }
        ensures is { option_map (λ p. (at self.now p.0, at self.now p.1, at self.now p.2)) result ≡ as_three (tree_over (at self.now) node.now) }
        ensures first { IfSome result (λ p. p.0 < length self.now) }
        ensures second { IfSome result (λ p. p.1 < length self.now) }
        ensures third { IfSome result (λ p. p.2 < length self.now) }
    {
        match node {
            Node::Write(a, b, c) | Node::If(a, b, c) => Some((*a, *b, *c)),
            _ => None,
        }
    }

    /// The parts of a Call, And or Or.
    pub fn many_of<'n>(&self, node: &'n Node) -> Option<&'n [TermId]>
        requires { AllByRecursion (λ j. j < length self.now) (numbers_in node.now) }
        ensures is { option_map (λ ids. trees_of (terms_at self.now ids.now)) result ≡ as_many (tree_over (at self.now) node.now) }
        ensures within { IfSome result (λ ids. AllByRecursion (λ j. j < length self.now) ids.now) }
    {
        match node {
            Node::Call(_, terms) | Node::And(terms) | Node::Or(terms) => Some(terms),
            _ => None,
        }
    }

    /// The sorts, triggers and body of a quantifier.
    pub fn quantified_of<'n>(
        &self,
        node: &'n Node,
    ) -> Option<(&'n [Sort], &'n [Vec<TermId>], TermId)>
        requires { AllByRecursion (λ j. j < length self.now) (numbers_in node.now) }
        ensures is { option_map (λ q. (q.0.now, patterns_of (lists_at self.now q.1.now), at self.now q.2)) result ≡ as_quantified (tree_over (at self.now) node.now) }
        ensures lists { IfSome result (λ q. AllByRecursion (λ j. j < length self.now) (in_lists q.1.now)) }
        ensures body { IfSome result (λ q. q.2 < length self.now) }
    {
        match node {
            Node::ForAll(sorts, lists, body) | Node::Exists(sorts, lists, body) => {
                Some((sorts, lists, *body))
            }
            _ => None,
        }
    }
}
