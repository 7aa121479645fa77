// All terms outside quantifiers for which a rule looks.
ghost use Rattle.std.specs.Prelude.{◌≡◌, [], ◌∷◌, ◌++◌, filter, OnOk};
ghost use Rattle.logic_core.specs.Subterm.{outside, outside_each, outside_parts};
ghost use Rattle.logic_core.specs.View.{trees_of, parts_of};
ghost use Rattle.tableau_branch.specs.Shapes.{has_shape};

use logic_core::term::{Node, Term};
use std::alloc::{AllocError, Global};
use tableau_branch::outside::Shape;

/// Copies of all such terms that stand in the term outside quantifiers, in preorder.
#[cycle(all)]
#[tactic(auto, using(tableau_branch::proofs::Lists::filter_append))]
pub fn push_outside(
    alloc: Global,
    shape: Shape,
    term: &Term,
    found: &mut Vec<Term>,
) -> Result<(), AllocError>
    ensures { OnOk result (found.new.items ≡ found.old.items ++ filter (has_shape shape) (outside term.now)) }
{
    push_fitting(alloc, shape, term, found)?;
    match &term.node {
        Node::Num(_) | Node::Truth(_) | Node::Free(_) | Node::Bound(_) => Ok(()),
        Node::ForAll(_, _, _) | Node::Exists(_, _, _) => Ok(()),
        Node::Sum(parts, _) => push_from_parts(alloc, shape, parts, found),
        Node::Mul(a, b) | Node::Read(a, b) | Node::Eq(a, b) | Node::Le(a, b) => {
            push_outside(alloc, shape, a, found)?;
            push_outside(alloc, shape, b, found)
        }
        Node::Write(a, b, c) | Node::If(a, b, c) => {
            push_outside(alloc, shape, a, found)?;
            push_outside(alloc, shape, b, found)?;
            push_outside(alloc, shape, c, found)
        }
        Node::Not(a) => push_outside(alloc, shape, a, found),
        Node::Call(_, terms) | Node::And(terms) | Node::Or(terms) => {
            push_from_terms(alloc, shape, terms, found)
        }
    }
}

/// A copy of the term, where it is what is looked for.
fn push_fitting(
    alloc: Global,
    shape: Shape,
    term: &Term,
    found: &mut Vec<Term>,
) -> Result<(), AllocError>
    ensures { OnOk result (found.new.items ≡ found.old.items ++ filter (has_shape shape) (term.now ∷ [])) }
{
    if shape.fits(term) {
        found.push(term.copy(alloc)?)?;
    }
    Ok(())
}

#[cycle(all)]
#[tactic(auto, using(tableau_branch::proofs::Lists::filter_append))]
fn push_from_terms(
    alloc: Global,
    shape: Shape,
    terms: &[Term],
    found: &mut Vec<Term>,
) -> Result<(), AllocError>
    ensures { OnOk result (found.new.items ≡ found.old.items ++ filter (has_shape shape) (outside_each (trees_of terms.now))) }
{
    for term in terms {
        push_outside(alloc, shape, term, found)?;
    }
    Ok(())
}

#[cycle(all)]
#[tactic(auto, using(tableau_branch::proofs::Lists::filter_append))]
fn push_from_parts(
    alloc: Global,
    shape: Shape,
    parts: &[(i128, Term)],
    found: &mut Vec<Term>,
) -> Result<(), AllocError>
    ensures { OnOk result (found.new.items ≡ found.old.items ++ filter (has_shape shape) (outside_parts (parts_of parts.now))) }
{
    for part in parts {
        push_outside(alloc, shape, &part.1, found)?;
    }
    Ok(())
}
