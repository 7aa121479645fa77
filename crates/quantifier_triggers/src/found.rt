// The terms found for a quantifier's variables.
ghost use Rattle.std.specs.Prelude.{◌≡◌, ◌<◌, IfOk, Some, None, map, option_map, length, slice_set};
ghost use Rattle.quantifier_triggers.specs.Match.{each_found, tuple_of, variable};

use logic_core::def::Def;
use logic_core::sequence::Sequence;
use logic_core::sort::Sort;
use logic_core::term::Term;
use std::alloc::{AllocError, Global};

/// The terms found so far; that of `Bound(0)` stands first.
pub type Found = Sequence<Option<Term>>;

/// None for any of the variables of these sorts.
pub fn nothing_found(alloc: Global, sorts: &[Sort]) -> Result<Found, AllocError>
    ensures { IfOk result (λ b. b ≡ map (λ k. None) sorts.now) }
{
    let mut found = Vec::new(alloc);
    for _sort in sorts {
        found.push(None)?;
    }
    Ok(Sequence::of(found))
}

// An equal term, where there is one.
fn copy_some(alloc: Global, term: &Option<Term>) -> Result<Option<Term>, AllocError>
    ensures { IfOk result (λ o. o ≡ term.now) }
{
    match term {
        Some(term) => Ok(Some(term.copy(alloc)?)),
        None => Ok(None),
    }
}

/// Equal findings.
pub fn copy_found(alloc: Global, found: &[Option<Term>]) -> Result<Found, AllocError>
    ensures { IfOk result (λ b. b ≡ found.now) }
{
    let mut copies = Vec::new(alloc);
    for term in found {
        copies.push(copy_some(alloc, term)?)?;
    }
    Ok(Sequence::of(copies))
}

// With a term for the variable of this number.
fn with_term(found: Found, number: usize, term: Term) -> Found
    requires { number < length found }
    ensures { result ≡ slice_set found number (Some term) }
{
    let mut terms = found.into_vec();
    terms[number] = Some(term);
    Sequence::of(terms)
}

/// That `Bound(number)` is the term: a term of its sort, and the same where one was found before.
/// `kinds` are the sorts of `Bound(0)`, `Bound(1)` and so on.
pub fn find_variable(
    alloc: Global,
    vars: &[Sort],
    defs: &[Def],
    kinds: &[Sort],
    number: u64,
    term: &Term,
    found: Found,
) -> Result<Option<Found>, AllocError>
    ensures { IfOk result (λ o. o ≡ variable vars.now defs.now kinds.now number term.now found) }
{
    let number = number as usize;
    match found.as_slice().get(number) {
        None => Ok(None),
        Some(Some(before)) => {
            if before.equals(term) {
                Ok(Some(found))
            } else {
                Ok(None)
            }
        }
        Some(None) => {
            let Some(kind) = kinds.get(number) else {
                return Ok(None);
            };
            if !term.has_sort(alloc, vars, defs, &[], kind)? {
                return Ok(None);
            }
            Ok(Some(with_term(found, number, term.copy(alloc)?)))
        }
    }
}

// The terms, that of `Bound(0)` first, where there is one for each variable.
fn each_found(alloc: Global, found: &[Option<Term>]) -> Result<Option<Vec<Term>>, AllocError>
    ensures { IfOk result (λ o. option_map (λ v. v.items) o ≡ each_found found.now) }
{
    let mut terms = Vec::new(alloc);
    for term in found {
        match term {
            Some(term) => terms.push(term.copy(alloc)?)?,
            None => return Ok(None),
        }
    }
    Ok(Some(terms))
}

/// The terms in the order of the variables, where there is one for each.
pub fn tuple_of(alloc: Global, found: &Found) -> Result<Option<Vec<Term>>, AllocError>
    ensures { IfOk result (λ o. option_map (λ v. v.items) o ≡ tuple_of found.now) }
{
    match each_found(alloc, found.as_slice())? {
        Some(mut terms) => {
            terms.reverse();
            Ok(Some(terms))
        }
        None => Ok(None),
    }
}
