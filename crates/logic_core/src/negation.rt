// The normal Not of a normal formula: Nots are moved in to the atoms by De Morgan's laws. Over the
// integers, where 0 <= d doesn't hold, 0 <= -d - 1 does.
ghost use Rattle.std.specs.Prelude.{◌≡◌, option_map, IfOk};
ghost use Rattle.logic_terms.specs.Tree.{negation, at_most};
ghost use Rattle.logic_core.specs.View.{trees_of, each_items};
ghost use Rattle.logic_core.specs.Gives.{Gives, GivesAs};
ghost use Rattle.logic_core.specs.Junction.{junction, negated, negated_each};

use crate::construct::at_most;
use crate::copy::{copy_patterns, copy_sorts};
use crate::fault::NormalFault;
use crate::junction::{Connective, junction};
use crate::sort::Sort;
use crate::sum::affine;
use crate::term::{Node, Term};
use std::alloc::{AllocError, Global};

// The Not of this very term.
fn plain_negation(alloc: Global, term: &Term) -> Result<Term, AllocError>
    ensures { IfOk result (λ t. t ≡ negation term.now) }
{
    Ok(Term::new(Node::Not(Box::new(alloc, term.copy(alloc)?)?)))
}

// The normal Not of Le(0, d), which the term is, is Le(0, -d - 1).
fn negated_inequality(
    alloc: Global,
    term: &Term,
    low: &Term,
    high: &Term,
) -> Result<Term, NormalFault>
    requires { term.now ≡ at_most low.now high.now }
    ensures { Gives result (negated (at_most low.now high.now)) }
{
    if low.is_zero() {
        let high = affine(alloc, -1, high.copy(alloc)?, -1)?;
        return Ok(at_most(alloc, low.copy(alloc)?, high)?);
    }
    Ok(plain_negation(alloc, term)?)
}

/// The normal Not of a normal formula: a truth value is flipped, Not of Not drops both, And and
/// Or change into each other with Nots inside, and so do ForAll and Exists, whose triggers stay.
/// The Not of Le(0, d) is Le(0, -d - 1). Wide exactly where a number leaves 128 bits.
#[cycle(negated)]
pub fn negated(alloc: Global, term: &Term) -> Result<Term, NormalFault>
    ensures { Gives result (negated term.now) }
{
    match &term.node {
        Node::Truth(b) => Ok(Term::new(Node::Truth(!*b))),
        Node::Not(a) => Ok(a.copy(alloc)?),
        Node::And(terms) => negated_junction(alloc, Connective::Or, terms),
        Node::Or(terms) => negated_junction(alloc, Connective::And, terms),
        Node::Le(low, high) => negated_inequality(alloc, term, low, high),
        Node::ForAll(sorts, patterns, body) => {
            let (sorts, patterns, body) = negated_parts(alloc, sorts, patterns, body)?;
            Ok(Term::new(Node::Exists(sorts, patterns, body)))
        }
        Node::Exists(sorts, patterns, body) => {
            let (sorts, patterns, body) = negated_parts(alloc, sorts, patterns, body)?;
            Ok(Term::new(Node::ForAll(sorts, patterns, body)))
        }
        _ => Ok(plain_negation(alloc, term)?),
    }
}

// The And or the Or of the normal Nots.
#[cycle(negated)]
fn negated_junction(
    alloc: Global,
    connective: Connective,
    terms: &[Term],
) -> Result<Term, NormalFault>
    ensures { Gives result (option_map (λ ts. junction connective ts) (negated_each (trees_of terms.now))) }
{
    let parts = negated_each(alloc, terms)?;
    Ok(junction(alloc, connective, parts)?)
}

// The parts of the other quantifier: the same sorts and triggers, and the normal Not of the body.
#[cycle(negated)]
fn negated_parts(
    alloc: Global,
    sorts: &[Sort],
    patterns: &[Vec<Term>],
    body: &Term,
) -> Result<(Vec<Sort>, Vec<Vec<Term>>, Box<Term>), NormalFault>
    ensures sorts { IfOk result (λ p. p.0.items ≡ sorts.now) }
    ensures patterns { IfOk result (λ p. each_items p.1.items ≡ each_items patterns.now) }
    ensures body { GivesAs (λ p. p.2.value) result (negated body.now) }
{
    let body = negated(alloc, body)?;
    let sorts = copy_sorts(alloc, sorts)?;
    let patterns = copy_patterns(alloc, patterns)?;
    Ok((sorts, patterns, Box::new(alloc, body)?))
}

// The normal Nots of the formulas.
#[cycle(negated)]
fn negated_each(alloc: Global, terms: &[Term]) -> Result<Vec<Term>, NormalFault>
    ensures { GivesAs (λ v. trees_of v.items) result (negated_each (trees_of terms.now)) }
{
    let mut parts = Vec::new(alloc);
    for term in terms {
        parts.push(negated(alloc, term)?)?;
    }
    Ok(parts)
}
