// The normal Not of a normal formula, by number: Nots are moved in to the atoms.
ghost use Rattle.std.specs.Prelude.{◌≡◌, ◌<◌, ◌≤◌, length, IfOk};
ghost use Rattle.std.specs.List.{AllByRecursion};
ghost use Rattle.logic_core.specs.Tree.{at_most};
ghost use Rattle.logic_core.specs.View.{trees_of};
ghost use Rattle.logic_core.specs.Gives.{GivesAs};
ghost use Rattle.logic_core.specs.Junction.{negated, negated_each, is_zero};
ghost use Rattle.term_bank.specs.Numbered.{at, Begins};
ghost use Rattle.numbered_terms.specs.At.{GivesAt};
ghost use Rattle.numbered_terms.specs.Lists.{terms_at};

use crate::arithmetic::affine;
use crate::junction::junction;
use logic_core::NormalFault;
use logic_core::copy::copy_sorts;
use logic_core::junction::Connective;
use numbered_terms::Terms;
use numbered_terms::renumber::{copy_lists, copy_numbers};
use term_bank::{Node, TermId};

/// Whether this is the number 0.
pub fn is_zero(terms: &Terms, id: TermId) -> bool
    requires { id < length terms.now }
    ensures { result ≡ is_zero (at terms.now id) }
{
    match terms.node(id) {
        Node::Num(n) => *n == 0,
        _ => false,
    }
}

// The normal Not of Le(0, d) is Le(0, -d - 1).
fn negated_inequality(
    terms: &mut Terms,
    id: TermId,
    low: TermId,
    high: TermId,
) -> Result<TermId, NormalFault>
    requires id { id < length terms.old }
    requires low { low < length terms.old }
    requires high { high < length terms.old }
    requires is { at terms.old id ≡ at_most (at terms.old low) (at terms.old high) }
    ensures grows { Begins terms.old terms.new }
    ensures gives { GivesAt terms.new result (negated (at terms.old id)) }
{
    if is_zero(terms, low) {
        let high = affine(terms, -1, high, -1)?;
        return Ok(terms.make(Node::Le(low, high))?);
    }
    Ok(terms.make(Node::Not(id))?)
}

/// The normal Not of a normal formula: a truth value is flipped, Not of Not drops both, And and
/// Or change into each other with Nots inside, and so do ForAll and Exists, whose triggers stay.
/// The Not of Le(0, d) is Le(0, -d - 1). Wide exactly where a number leaves 128 bits.
#[cycle(negated)]
pub fn negated(terms: &mut Terms, id: TermId) -> Result<TermId, NormalFault>
    requires { id < length terms.old }
    ensures grows { Begins terms.old terms.new }
    ensures gives { GivesAt terms.new result (negated (at terms.old id)) }
{
    match terms.node(id) {
        Node::Truth(b) => {
            let flipped = !*b;
            Ok(terms.make(Node::Truth(flipped))?)
        }
        Node::Not(a) => Ok(*a),
        Node::And(parts) => {
            let parts = copy_numbers(terms.alloc(), parts)?;
            let made = negated_each(terms, id.number, &parts)?;
            Ok(junction(terms, Connective::Or, &made)?)
        }
        Node::Or(parts) => {
            let parts = copy_numbers(terms.alloc(), parts)?;
            let made = negated_each(terms, id.number, &parts)?;
            Ok(junction(terms, Connective::And, &made)?)
        }
        Node::Le(low, high) => {
            let low = *low;
            let high = *high;
            negated_inequality(terms, id, low, high)
        }
        Node::ForAll(sorts, lists, body) => {
            let body = *body;
            let sorts = copy_sorts(terms.alloc(), sorts)?;
            let lists = copy_lists(terms.alloc(), lists)?;
            let body = negated(terms, body)?;
            Ok(terms.make(Node::Exists(sorts, lists, body))?)
        }
        Node::Exists(sorts, lists, body) => {
            let body = *body;
            let sorts = copy_sorts(terms.alloc(), sorts)?;
            let lists = copy_lists(terms.alloc(), lists)?;
            let body = negated(terms, body)?;
            Ok(terms.make(Node::ForAll(sorts, lists, body))?)
        }
        _ => Ok(terms.make(Node::Not(id))?),
    }
}

// The normal Nots of the formulas.
#[cycle(negated)]
fn negated_each(terms: &mut Terms, below: usize, ids: &[TermId]) -> Result<Vec<TermId>, NormalFault>
    requires below { below ≤ length terms.old }
    requires ids { AllByRecursion (λ j. j < below) ids.now }
    ensures grows { Begins terms.old terms.new }
    ensures gives { GivesAs (λ v. trees_of (terms_at terms.new v.items)) result (negated_each (trees_of (terms_at terms.old ids.now))) }
    ensures within { IfOk result (λ v. AllByRecursion (λ j. j < length terms.new) v.items) }
{
    let mut parts = Vec::new(terms.alloc());
    for id in ids {
        let part = negated(terms, *id)?;
        parts.push(part)?;
    }
    Ok(parts)
}
