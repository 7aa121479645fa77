// The numbers found for a quantifier's variables; that of `Bound(0)` stands first.
ghost use Rattle.std.specs.Prelude.{◌≡◌, ◌<◌, Some, None, map, reverse, length, slice_get, slice_set, option_map, IfOk, OnOk};
ghost use Rattle.logic_core.specs.Wide.{when};
ghost use Rattle.term_bank.specs.Numbered.{at};
ghost use Rattle.quantifier_triggers.specs.Match.{taken, variable};
ghost use Rattle.numbered_instances.specs.Finding.{found_at, each_number, IsFoundBelow};

use crate::sorts::has_sort;
use logic_core::{Def, Sort};
use numbered_terms::Terms;
use std::alloc::{AllocError, Global};
use term_bank::TermId;

/// None for any of the variables of these sorts.
pub fn nothing_found(alloc: Global, sorts: &[Sort]) -> Result<Vec<Option<TermId>>, AllocError>
    ensures { IfOk result (λ b. b.items ≡ map (λ k. None) sorts.now) }
{
    let mut found = Vec::new(alloc);
    for _sort in sorts {
        found.push(None)?;
    }
    Ok(found)
}

/// The same findings as those before.
pub fn restore(found: &mut Vec<Option<TermId>>, before: &[Option<TermId>]) -> Result<(), AllocError>
    ensures { OnOk result (found.new.items ≡ before.now) }
{
    found.clear();
    found.extend_from_slice(before)?;
    Ok(())
}

// A term for the variable of this number.
fn put_term(found: &mut Vec<Option<TermId>>, number: usize, term: TermId)
    requires { number < length found.old.items }
    ensures { found.new.items ≡ slice_set found.old.items number (Some term) }
{
    found[number] = Some(term);
}

// The same of a variable for which nothing is found yet.
fn take_variable(
    terms: &Terms,
    vars: &[Sort],
    defs: &[Def],
    kinds: &[Sort],
    number: usize,
    term: TermId,
    found: &mut Vec<Option<TermId>>,
) -> Result<bool, AllocError>
    requires term { term < length terms.now }
    requires free { slice_get found.old.items number ≡ Some None }
    requires within { IsFoundBelow (length terms.now) found.old.items }
    ensures gives { IfOk result (λ b. taken vars.now defs.now kinds.now number (at terms.now term) (found_at terms.now found.old.items) None ≡ when b (Some (found_at terms.now found.new.items))) }
    ensures within { OnOk result (IsFoundBelow (length terms.now) found.new.items) }
{
    let Some(kind) = kinds.get(number) else {
        return Ok(false);
    };
    let fits = has_sort(terms, vars, defs, term, kind)?;
    if fits {
        put_term(found, number, term);
        return Ok(true);
    }
    Ok(false)
}

/// Whether `Bound(number)` can be the term: a term of its sort, and the same where one was found
/// before. It is found then. `kinds` are the sorts of `Bound(0)`, `Bound(1)` and so on.
pub fn find_variable(
    terms: &Terms,
    vars: &[Sort],
    defs: &[Def],
    kinds: &[Sort],
    number: u64,
    term: TermId,
    found: &mut Vec<Option<TermId>>,
) -> Result<bool, AllocError>
    requires term { term < length terms.now }
    requires within { IsFoundBelow (length terms.now) found.old.items }
    ensures gives { IfOk result (λ b. variable vars.now defs.now kinds.now number (at terms.now term) (found_at terms.now found.old.items) ≡ when b (Some (found_at terms.now found.new.items))) }
    ensures within { OnOk result (IsFoundBelow (length terms.now) found.new.items) }
{
    let number = number as usize;
    match found.get(number).copied() {
        None => Ok(false),
        Some(Some(before)) => Ok(terms.is_same(before, term)),
        Some(None) => take_variable(terms, vars, defs, kinds, number, term, found),
    }
}

// The numbers, that of `Bound(0)` first, where there is one for each variable.
fn each_found(alloc: Global, found: &[Option<TermId>]) -> Result<Option<Vec<TermId>>, AllocError>
    ensures { IfOk result (λ o. option_map (λ v. v.items) o ≡ each_number found.now) }
{
    let mut terms = Vec::new(alloc);
    for term in found {
        match term {
            Some(term) => terms.push(*term)?,
            None => return Ok(None),
        }
    }
    Ok(Some(terms))
}

/// The numbers in the order of the variables, where there is one for each.
pub fn tuple_of(alloc: Global, found: &[Option<TermId>]) -> Result<Option<Vec<TermId>>, AllocError>
    ensures { IfOk result (λ o. option_map (λ v. v.items) o ≡ option_map reverse (each_number found.now)) }
{
    match each_found(alloc, found)? {
        Some(mut terms) => {
            terms.reverse();
            Ok(Some(terms))
        }
        None => Ok(None),
    }
}
