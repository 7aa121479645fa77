// The first term outside quantifiers for which a rule looks.
ghost use Rattle.std.specs.Prelude.{◌≡◌, find};
ghost use Rattle.std.specs.Option.{option_copied};
ghost use Rattle.logic_core.specs.Subterm.{outside, outside_each, outside_parts};
ghost use Rattle.logic_core.specs.View.{trees_of, parts_of};
ghost use Rattle.tableau_branch.specs.Shapes.{has_shape};

use logic_core::term::{Node, Term};

/// What is looked for.
#[derive(Clone, Copy)]
pub enum Shape {
    /// A Call.
    Call,
    /// An If.
    Choice,
    /// A Read of a Write.
    Access,
    /// A Read or a Call.
    Application,
}

impl Shape {
    /// Whether the term is what is looked for.
    pub fn fits(self, term: &Term) -> bool
        ensures { result ≡ has_shape self term.now }
    {
        match self {
            Shape::Call => matches!(&term.node, Node::Call(_, _)),
            Shape::Choice => matches!(&term.node, Node::If(_, _, _)),
            Shape::Access => is_access(term),
            Shape::Application => matches!(&term.node, Node::Read(_, _) | Node::Call(_, _)),
        }
    }
}

/// Whether the term is a Read of a Write.
fn is_access(term: &Term) -> bool
    ensures { result ≡ has_shape Shape.Access term.now }
{
    match &term.node {
        Node::Read(map, _) => matches!(&map.node, Node::Write(_, _, _)),
        _ => false,
    }
}

/// The first such term that stands in the term outside quantifiers, in preorder.
#[cycle(first)]
#[tactic(auto, using(crate::proofs::Lists::find_append))]
pub fn first_outside<'a>(shape: Shape, term: &'a Term) -> Option<&'a Term>
    ensures { option_copied result ≡ find (has_shape shape) (outside term.now) }
{
    if shape.fits(term) {
        return Some(term);
    }
    match &term.node {
        Node::Num(_) | Node::Truth(_) | Node::Free(_) | Node::Bound(_) => None,
        Node::ForAll(_, _, _) | Node::Exists(_, _, _) => None,
        Node::Sum(parts, _) => first_in_parts(shape, parts),
        Node::Mul(a, b) | Node::Read(a, b) | Node::Eq(a, b) | Node::Le(a, b) => {
            match first_outside(shape, a) {
                Some(found) => Some(found),
                None => first_outside(shape, b),
            }
        }
        Node::Write(a, b, c) | Node::If(a, b, c) => match first_outside(shape, a) {
            Some(found) => Some(found),
            None => match first_outside(shape, b) {
                Some(found) => Some(found),
                None => first_outside(shape, c),
            },
        },
        Node::Not(a) => first_outside(shape, a),
        Node::Call(_, terms) | Node::And(terms) | Node::Or(terms) => first_in_terms(shape, terms),
    }
}

#[cycle(first)]
#[tactic(auto, using(crate::proofs::Lists::find_append))]
fn first_in_terms<'a>(shape: Shape, terms: &'a [Term]) -> Option<&'a Term>
    ensures { option_copied result ≡ find (has_shape shape) (outside_each (trees_of terms.now)) }
{
    for term in terms {
        if let Some(found) = first_outside(shape, term) {
            return Some(found);
        }
    }
    None
}

#[cycle(first)]
#[tactic(auto, using(crate::proofs::Lists::find_append))]
fn first_in_parts<'a>(shape: Shape, parts: &'a [(i128, Term)]) -> Option<&'a Term>
    ensures { option_copied result ≡ find (has_shape shape) (outside_parts (parts_of parts.now)) }
{
    for part in parts {
        if let Some(found) = first_outside(shape, &part.1) {
            return Some(found);
        }
    }
    None
}
