// The terms in a term that stand outside quantifiers.
ghost use Rattle.std.specs.Prelude.{◌≡◌, ◌++◌, map, IfOk, OnOk};
ghost use Rattle.logic_core.specs.View.{trees_of, parts_of};
ghost use Rattle.logic_core.specs.Subterm.{outside, outside_each, outside_parts};

use logic_core::term::{Node, Term};
use std::alloc::{AllocError, Global};

// Adds the term and those in it, in preorder.
#[cycle(outside)]
#[tactic(auto, using(crate::proofs::Joining::pushed))]
fn push_outside<'t>(term: &'t Term, found: &mut Vec<&'t Term>) -> Result<(), AllocError>
    ensures { OnOk result (map (λ x. x.now) found.new.items ≡ map (λ x. x.now) found.old.items ++ outside term.now) }
{
    found.push(term)?;
    match &term.node {
        Node::Num(_) | Node::Truth(_) | Node::Free(_) | Node::Bound(_) => Ok(()),
        Node::Sum(parts, _) => push_parts(parts, found),
        Node::Mul(a, b) | Node::Read(a, b) | Node::Eq(a, b) | Node::Le(a, b) => {
            push_outside(a, found)?;
            push_outside(b, found)
        }
        Node::Write(a, b, c) | Node::If(a, b, c) => {
            push_outside(a, found)?;
            push_outside(b, found)?;
            push_outside(c, found)
        }
        Node::Call(_, terms) | Node::And(terms) | Node::Or(terms) => push_each(terms, found),
        Node::Not(a) => push_outside(a, found),
        Node::ForAll(..) | Node::Exists(..) => Ok(()),
    }
}

// Adds those of each of the terms.
#[cycle(outside)]
fn push_each<'t>(terms: &'t [Term], found: &mut Vec<&'t Term>) -> Result<(), AllocError>
    ensures { OnOk result (map (λ x. x.now) found.new.items ≡ map (λ x. x.now) found.old.items ++ outside_each (trees_of terms.now)) }
{
    for term in terms {
        push_outside(term, found)?;
    }
    Ok(())
}

// Adds those of each of the atoms.
#[cycle(outside)]
fn push_parts<'t>(parts: &'t [(i128, Term)], found: &mut Vec<&'t Term>) -> Result<(), AllocError>
    ensures { OnOk result (map (λ x. x.now) found.new.items ≡ map (λ x. x.now) found.old.items ++ outside_parts (parts_of parts.now)) }
{
    for part in parts {
        push_outside(&part.1, found)?;
    }
    Ok(())
}

/// The term and those in it that stand outside quantifiers, in preorder.
pub(crate) fn outside<'t>(alloc: Global, term: &'t Term) -> Result<Vec<&'t Term>, AllocError>
    ensures { IfOk result (λ v. map (λ x. x.now) v.items ≡ outside term.now) }
{
    let mut found = Vec::new(alloc);
    push_outside(term, &mut found)?;
    Ok(found)
}
