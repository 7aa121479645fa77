// And and Or of normal formulas, by number: nested ones of the kind are taken in, the neutral truth
// value drops, beside the other one the whole is that value, one part alone is the result, and no
// part is the neutral value.
ghost use Rattle.std.specs.Prelude.{◌≡◌, ◌<◌, ◌++◌, [], ◌∷◌, None, length, IfOk, IfSome, IfNone};
ghost use Rattle.std.specs.List.{AllByRecursion};
ghost use Rattle.logic_core.specs.Tree.{Trees};
ghost use Rattle.logic_core.specs.View.{trees_of};
ghost use Rattle.logic_core.specs.Before.{before, tree_before};
ghost use Rattle.logic_core.specs.Junction.{is_truth, has_truth, neutral, joined, as_joined, with_operand, operands, joined_or_alone, junction};
ghost use Rattle.term_bank.specs.Numbered.{at, Begins};
ghost use Rattle.numbered_terms.specs.At.{IsAt};
ghost use Rattle.numbered_terms.specs.Lists.{terms_at};

use logic_core::junction::Connective;
use numbered_terms::Terms;
use std::alloc::AllocError;
use term_bank::{Node, TermId};

// The truth value that drops: true from an And, false from an Or.
fn neutral(connective: Connective) -> bool
    ensures { result ≡ neutral connective }
{
    match connective {
        Connective::And => true,
        Connective::Or => false,
    }
}

/// Whether this is the truth value b.
pub fn is_truth(terms: &Terms, id: TermId, b: bool) -> bool
    requires { id < length terms.now }
    ensures { result ≡ is_truth b (at terms.now id) }
{
    match terms.node(id) {
        Node::Truth(value) => *value == b,
        _ => false,
    }
}

// Whether the truth value b stands in the list.
fn has_truth(terms: &Terms, b: bool, ids: &[TermId]) -> bool
    requires { AllByRecursion (λ j. j < length terms.now) ids.now }
    ensures { result ≡ has_truth b (trees_of (terms_at terms.now ids.now)) }
{
    for id in ids {
        if is_truth(terms, *id, b) {
            return true;
        }
    }
    false
}

// The parts where this is one of the kind.
fn nested(terms: &Terms, connective: Connective, id: TermId) -> Option<&[TermId]>
    requires { id < length terms.now }
    ensures nested { IfSome result (λ ids. at terms.now id ≡ joined connective (trees_of (terms_at terms.now ids.now))) }
    ensures within { IfSome result (λ ids. AllByRecursion (λ j. j < id) ids.now) }
    ensures other { IfNone result (as_joined connective (at terms.now id) ≡ None) }
{
    match connective {
        Connective::And => match terms.node(id) {
            Node::And(parts) => Some(parts),
            _ => None,
        },
        Connective::Or => match terms.node(id) {
            Node::Or(parts) => Some(parts),
            _ => None,
        },
    }
}

// The parts, and one more at the end.
fn push_number(parts: Vec<TermId>, id: TermId) -> Result<Vec<TermId>, AllocError>
    ensures { IfOk result (λ v. v.items ≡ parts.items ++ id ∷ []) }
{
    let mut parts = parts;
    parts.push(id)?;
    Ok(parts)
}

// The parts, and more at the end.
fn append_numbers(parts: Vec<TermId>, more: &[TermId]) -> Result<Vec<TermId>, AllocError>
    ensures { IfOk result (λ v. v.items ≡ parts.items ++ more.now) }
{
    let mut parts = parts;
    parts.extend_from_slice(more)?;
    Ok(parts)
}

// One more part: a nested one of the kind is taken in, and the neutral truth value drops.
fn push_operand(
    terms: &Terms,
    connective: Connective,
    parts: Vec<TermId>,
    id: TermId,
) -> Result<Vec<TermId>, AllocError>
    requires id { id < length terms.now }
    requires parts { AllByRecursion (λ j. j < length terms.now) parts.items }
    ensures gives { IfOk result (λ v. (us : Trees) → before tree_before (terms_at terms.now v.items) us ≡ before tree_before (terms_at terms.now parts.items) (with_operand connective (at terms.now id) us)) }
    ensures within { IfOk result (λ v. AllByRecursion (λ j. j < length terms.now) v.items) }
{
    if is_truth(terms, id, neutral(connective)) {
        return Ok(parts);
    }
    match nested(terms, connective, id) {
        Some(more) => append_numbers(parts, more),
        None => push_number(parts, id),
    }
}

// The parts, those of nested ones of the kind among them, without the neutral truth value.
fn operands(
    terms: &Terms,
    connective: Connective,
    ids: &[TermId],
) -> Result<Vec<TermId>, AllocError>
    requires { AllByRecursion (λ j. j < length terms.now) ids.now }
    ensures gives { IfOk result (λ v. trees_of (terms_at terms.now v.items) ≡ operands connective (trees_of (terms_at terms.now ids.now))) }
    ensures within { IfOk result (λ v. AllByRecursion (λ j. j < length terms.now) v.items) }
{
    let mut parts = Vec::new(terms.alloc());
    for id in ids {
        parts = push_operand(terms, connective, parts, *id)?;
    }
    Ok(parts)
}

// One part alone is the result, and none is the neutral truth value.
fn joined_or_alone(
    terms: &mut Terms,
    connective: Connective,
    parts: Vec<TermId>,
) -> Result<TermId, AllocError>
    requires { AllByRecursion (λ j. j < length terms.old) parts.items }
    ensures grows { Begins terms.old terms.new }
    ensures gives { IfOk result (λ i. IsAt terms.new i (joined_or_alone connective (trees_of (terms_at terms.old parts.items)))) }
{
    if parts.len() > 1 {
        return match connective {
            Connective::And => terms.make(Node::And(parts)),
            Connective::Or => terms.make(Node::Or(parts)),
        };
    }
    match parts.first() {
        Some(alone) => Ok(*alone),
        None => terms.make(Node::Truth(neutral(connective))),
    }
}

/// The And or the Or of normal formulas: nested ones of the kind are taken in, the neutral truth
/// value drops, and beside the other one the whole is that value.
pub fn junction(
    terms: &mut Terms,
    connective: Connective,
    ids: &[TermId],
) -> Result<TermId, AllocError>
    requires { AllByRecursion (λ j. j < length terms.old) ids.now }
    ensures grows { Begins terms.old terms.new }
    ensures gives { IfOk result (λ i. IsAt terms.new i (junction connective (trees_of (terms_at terms.old ids.now)))) }
{
    let parts = operands(terms, connective, ids)?;
    let absorbing = !neutral(connective);
    if has_truth(terms, absorbing, &parts) {
        return terms.make(Node::Truth(absorbing));
    }
    joined_or_alone(terms, connective, parts)
}
