// The candidates of a quantifier.
ghost use Rattle.std.specs.Prelude.{◌≡◌, map, filter, filter_map, slice_get, IfOk};
ghost use Rattle.std.specs.List.{list_any, list_all};
ghost use Rattle.logic_core.specs.Subterm.{outside};
ghost use Rattle.quantifier_triggers.specs.Candidates.{is_simple, is_read_or_call, is_plain, bound_number, bound_numbers, touches, is_candidate};

use crate::outside::outside;
use logic_core::def::Def;
use logic_core::term::{Node, Term};
use std::alloc::{AllocError, Global};

// A read, an application, a variable or a literal.
fn is_simple(term: &Term) -> bool
    ensures { result ≡ is_simple term.now }
{
    match &term.node {
        Node::Num(_)
        | Node::Truth(_)
        | Node::Free(_)
        | Node::Bound(_)
        | Node::Read(..)
        | Node::Call(..) => true,
        Node::Sum(..)
        | Node::Mul(..)
        | Node::Write(..)
        | Node::If(..)
        | Node::Not(_)
        | Node::And(_)
        | Node::Or(_)
        | Node::Eq(..)
        | Node::Le(..)
        | Node::ForAll(..)
        | Node::Exists(..) => false,
    }
}

// All terms are simple.
fn are_simple(terms: &[&Term]) -> bool
    ensures { result ≡ list_all is_simple (map (λ x. x.now) terms.now) }
{
    for term in terms {
        if !is_simple(*term) {
            return false;
        }
    }
    true
}

// The definition is there and not logical.
fn is_plain(defs: &[Def], number: u64) -> bool
    ensures { result ≡ is_plain (slice_get defs.now number) }
{
    match defs.get(number as usize) {
        Some(def) => !def.logical,
        None => false,
    }
}

// A read, or an application of a plain function.
fn is_read_or_call(defs: &[Def], term: &Term) -> bool
    ensures { result ≡ is_read_or_call defs.now term.now }
{
    match &term.node {
        Node::Read(..) => true,
        Node::Call(f, _) => is_plain(defs, *f),
        _ => false,
    }
}

// The number of a bound variable.
fn bound_number(term: &Term) -> Option<u64>
    ensures { result ≡ bound_number term.now }
{
    match &term.node {
        Node::Bound(v) => Some(*v),
        _ => None,
    }
}

// The numbers of the bound variables among the terms.
fn numbers_among(alloc: Global, terms: &[&Term]) -> Result<Vec<u64>, AllocError>
    ensures { IfOk result (λ v. v.items ≡ filter_map bound_number (map (λ x. x.now) terms.now)) }
{
    let mut numbers = Vec::new(alloc);
    for term in terms {
        if let Some(number) = bound_number(*term) {
            numbers.push(number)?;
        }
    }
    Ok(numbers)
}

/// The bound variables that the term mentions outside its quantifiers.
pub(crate) fn bound_numbers(alloc: Global, term: &Term) -> Result<Vec<u64>, AllocError>
    ensures { IfOk result (λ v. v.items ≡ bound_numbers term.now) }
{
    let terms = outside(alloc, term)?;
    numbers_among(alloc, &terms)
}

// One of the quantifier's variables is among these numbers.
fn touches(variables: u64, numbers: &[u64]) -> bool
    ensures { result ≡ touches variables numbers.now }
{
    numbers.iter().any(|number| *number < variables)
}

// Whether the term may stand in a trigger of a quantifier of so many variables.
fn is_candidate(
    alloc: Global,
    defs: &[Def],
    variables: u64,
    term: &Term,
) -> Result<bool, AllocError>
    ensures { IfOk result (λ b. b ≡ is_candidate defs.now variables term.now) }
{
    if !is_read_or_call(defs, term) {
        return Ok(false);
    }
    let terms = outside(alloc, term)?;
    if !are_simple(&terms) {
        return Ok(false);
    }
    let numbers = numbers_among(alloc, &terms)?;
    Ok(touches(variables, &numbers))
}

/// The candidates in a body, in preorder. One that stands there twice is found twice.
pub(crate) fn candidates<'t>(
    alloc: Global,
    defs: &[Def],
    variables: u64,
    body: &'t Term,
) -> Result<Vec<&'t Term>, AllocError>
    ensures { IfOk result (λ v. map (λ x. x.now) v.items ≡ filter (is_candidate defs.now variables) (outside body.now)) }
{
    let terms = outside(alloc, body)?;
    let mut found = Vec::new(alloc);
    for term in &terms {
        if is_candidate(alloc, defs, variables, *term)? {
            found.push(*term)?;
        }
    }
    Ok(found)
}
