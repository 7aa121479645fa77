// The trigger of a quantifier.
ghost use Rattle.std.specs.Prelude.{◌≡◌, nat_eq, cond, Some, None, [], ◌∷◌, ◌++◌, map, filter, option_map, IfOk, OnOk};
ghost use Rattle.std.specs.List.{list_any};
ghost use Rattle.logic_core.specs.View.{patterns_of, each_items};
ghost use Rattle.quantifier_triggers.specs.Candidates.{bound_numbers, covers};
ghost use Rattle.quantifier_triggers.specs.Choice.{any_new, adds, smaller_of, least, cover, pick, as_trigger, chosen, triggers};

use crate::candidates::{bound_numbers, candidates};
use logic_core::copy::copy_patterns;
use logic_core::def::Def;
use logic_core::term::Term;
use std::alloc::{AllocError, Global};

// The number is among these.
fn is_among(numbers: &[u64], number: u64) -> bool
    ensures { result ≡ list_any (nat_eq number) numbers.now }
{
    numbers.iter().any(|other| number == *other)
}

// Every variable of the quantifier is among these numbers.
fn covers(variables: u64, numbers: &[u64]) -> bool
    ensures { result ≡ covers variables numbers.now }
{
    for variable in 0..variables {
        if !is_among(numbers, variable) {
            return false;
        }
    }
    true
}

// One of the numbers is that of a variable of the quantifier that is not covered.
fn adds(variables: u64, covered: &[u64], numbers: &[u64]) -> bool
    ensures { result ≡ any_new variables covered.now numbers.now }
{
    for number in numbers {
        if *number < variables && !is_among(covered, *number) {
            return true;
        }
    }
    false
}

// The term, unless the one found before is no larger.
fn smaller_of<'t>(found: Option<&'t Term>, term: &'t Term) -> &'t Term
    ensures { result.now ≡ smaller_of (option_map (λ x. x.now) found.entry) term.now }
{
    match found {
        Some(before) => {
            if term.size() < before.size() {
                term
            } else {
                before
            }
        }
        None => term,
    }
}

// The candidate, where it mentions all variables and no smaller one that does was found before.
fn smaller_covering<'t>(
    alloc: Global,
    variables: u64,
    found: Option<&'t Term>,
    candidate: &'t Term,
) -> Result<Option<&'t Term>, AllocError>
    ensures { IfOk result (λ o. option_map (λ x. x.now) o ≡ cond (covers variables (bound_numbers candidate.now)) (Some (smaller_of (option_map (λ x. x.now) found.entry) candidate.now)) (option_map (λ x. x.now) found.entry)) }
{
    let numbers = bound_numbers(alloc, candidate)?;
    if covers(variables, &numbers) {
        Ok(Some(smaller_of(found, candidate)))
    } else {
        Ok(found)
    }
}

// The least candidate that mentions all variables, the first of equals.
fn least_covering<'t>(
    alloc: Global,
    variables: u64,
    candidates: &[&'t Term],
) -> Result<Option<&'t Term>, AllocError>
    ensures { IfOk result (λ o. option_map (λ x. x.now) o ≡ least (filter (λ t. covers variables (bound_numbers t)) (map (λ x. x.now) candidates.now))) }
{
    let mut found = None;
    for candidate in candidates {
        found = smaller_covering(alloc, variables, found, *candidate)?;
    }
    Ok(found)
}

// The candidate joins those taken, and its numbers those covered, where it mentions a variable that is not covered.
fn take_new(
    alloc: Global,
    variables: u64,
    covered: &mut Vec<u64>,
    taken: &mut Vec<Term>,
    candidate: &Term,
) -> Result<(), AllocError>
    ensures covered { OnOk result (covered.new.items ≡ cond (adds variables covered.old.items candidate.now) (covered.old.items ++ bound_numbers candidate.now) covered.old.items) }
    ensures taken { OnOk result (taken.new.items ≡ cond (adds variables covered.old.items candidate.now) (taken.old.items ++ candidate.now ∷ []) taken.old.items) }
{
    let mut numbers = bound_numbers(alloc, candidate)?;
    if !adds(variables, covered.as_slice(), &numbers) {
        return Ok(());
    }
    taken.push(candidate.copy(alloc)?)?;
    covered.append(&mut numbers)?;
    Ok(())
}

// Those taken, where they cover all variables.
fn if_covering(variables: u64, covered: Vec<u64>, taken: Vec<Term>) -> Option<Vec<Term>>
    ensures { option_map (λ v. v.items) result ≡ cond (covers variables covered.items) (Some taken.items) None }
{
    if covers(variables, &covered) {
        Some(taken)
    } else {
        None
    }
}

// In order the candidates that mention a variable that those taken before don't, until all variables are covered.
fn cover(
    alloc: Global,
    variables: u64,
    candidates: &[&Term],
) -> Result<Option<Vec<Term>>, AllocError>
    ensures { IfOk result (λ o. option_map (λ v. v.items) o ≡ cover variables [] (map (λ x. x.now) candidates.now)) }
{
    let mut covered = Vec::new(alloc);
    let mut taken = Vec::new(alloc);
    for candidate in candidates {
        if covers(variables, &covered) {
            return Ok(Some(taken));
        }
        take_new(alloc, variables, &mut covered, &mut taken, *candidate)?;
    }
    Ok(if_covering(variables, covered, taken))
}

// An equal term alone.
fn alone(alloc: Global, term: &Term) -> Result<Option<Vec<Term>>, AllocError>
    ensures { IfOk result (λ o. option_map (λ v. v.items) o ≡ Some (term.now ∷ [])) }
{
    let mut terms = Vec::new(alloc);
    terms.push(term.copy(alloc)?)?;
    Ok(Some(terms))
}

// A candidate that mentions all variables, or several that do so together.
fn pick(
    alloc: Global,
    variables: u64,
    candidates: &[&Term],
) -> Result<Option<Vec<Term>>, AllocError>
    ensures { IfOk result (λ o. option_map (λ v. v.items) o ≡ pick variables (map (λ x. x.now) candidates.now)) }
{
    let found = least_covering(alloc, variables, candidates)?;
    match found {
        Some(term) => alone(alloc, term),
        None => cover(alloc, variables, candidates),
    }
}

// The trigger of these patterns, if there are any.
fn trigger_of(alloc: Global, taken: Option<Vec<Term>>) -> Result<Vec<Vec<Term>>, AllocError>
    ensures { IfOk result (λ v. patterns_of (each_items v.items) ≡ as_trigger (option_map (λ v. v.items) taken)) }
{
    let mut triggers = Vec::new(alloc);
    match taken {
        Some(terms) => {
            triggers.push(terms)?;
            Ok(triggers)
        }
        None => Ok(triggers),
    }
}

// The trigger chosen for a body, if there is one.
fn chosen(
    alloc: Global,
    defs: &[Def],
    variables: u64,
    body: &Term,
) -> Result<Vec<Vec<Term>>, AllocError>
    ensures { IfOk result (λ v. patterns_of (each_items v.items) ≡ chosen defs.now variables body.now) }
{
    let candidates = candidates(alloc, defs, variables, body)?;
    let taken = pick(alloc, variables, &candidates)?;
    trigger_of(alloc, taken)
}

/// The triggers of a quantifier of so many variables: those given, or the one that is chosen.
pub(crate) fn triggers(
    alloc: Global,
    defs: &[Def],
    variables: u64,
    given: &[Vec<Term>],
    body: &Term,
) -> Result<Vec<Vec<Term>>, AllocError>
    ensures { IfOk result (λ v. patterns_of (each_items v.items) ≡ triggers defs.now variables (patterns_of (each_items given.now)) body.now) }
{
    if given.is_empty() {
        chosen(alloc, defs, variables, body)
    } else {
        copy_patterns(alloc, given)
    }
}
