// The sort of a closed term, by number: that of a variable, a sum, a product, a Read or a Call by those of
// its parts, and any other over trees. Of a variable, and of a Read of one, no sort is copied to be compared.
ghost use Rattle.std.specs.Prelude.{◌≡◌, ◌<◌, ◌≤◌, Some, [], length, map, slice_get, IfOk};
ghost use Rattle.std.specs.List.{AllByRecursion};
ghost use Rattle.logic_core.specs.Same.{is_some_and};
ghost use Rattle.logic_core.specs.Sorts.{is, range, sort_of, are, are_ints};
ghost use Rattle.logic_core.specs.Tree.{int, mul, read, call, free};
ghost use Rattle.logic_core.specs.View.{trees_of, parts_of};
ghost use Rattle.logic_core.specs.Wide.{when};
ghost use Rattle.term_bank.specs.Numbered.{at};
ghost use Rattle.numbered_terms.specs.Lists.{atoms_at, terms_at, AtomsBelow};

use logic_core::{Def, Sort, SortKind};
use numbered_forms::sorts::sort_of;
use numbered_terms::Terms;
use std::alloc::{AllocError, Global};
use term_bank::{Node, TermId};

// The sort with that number, where there is one.
fn sort_at(alloc: Global, sorts: &[Sort], number: u64) -> Result<Option<Sort>, AllocError>
    ensures { IfOk result (λ s. s ≡ slice_get sorts.now number) }
{
    match sorts.get(number as usize) {
        Some(sort) => Ok(Some(sort.copy(alloc)?)),
        None => Ok(None),
    }
}

// The sort, where the test holds.
fn when(holds: bool, sort: Sort) -> Option<Sort>
    ensures { result ≡ when holds (Some sort) }
{
    if holds { Some(sort) } else { None }
}

// The sort of a closed term, where it is well sorted.
#[cycle(sorts)]
fn sort_over(
    terms: &Terms,
    vars: &[Sort],
    defs: &[Def],
    id: TermId,
) -> Result<Option<Sort>, AllocError>
    requires { id < length terms.now }
    ensures { IfOk result (λ s. s ≡ sort_of vars.now defs.now [] (at terms.now id)) }
{
    match terms.node(id) {
        Node::Num(_) => Ok(Some(Sort::int())),
        Node::Free(v) => sort_at(terms.alloc(), vars, *v),
        Node::Sum(parts, _) => sum_sort(terms, vars, defs, id.number, parts),
        Node::Mul(a, b) => product_sort(terms, vars, defs, id.number, *a, *b),
        Node::Read(map, index) => read_sort(terms, vars, defs, id.number, *map, *index),
        Node::Call(f, args) => call_sort(terms, vars, defs, id.number, *f, args),
        _ => sort_of(terms, vars, defs, &[], id),
    }
}

// Whether the variable of that number is of the sort.
fn is_of(vars: &[Sort], number: u64, sort: &Sort) -> bool
    ensures { result ≡ is sort.now (slice_get vars.now number) }
{
    match vars.get(number as usize) {
        Some(found) => found.equals(sort),
        None => false,
    }
}

// Whether what maps of the one sort hold is of the other.
fn has_range(map: &Sort, sort: &Sort) -> bool
    ensures { result ≡ is sort.now (range map.now) }
{
    match &map.kind {
        SortKind::Map(held) => held.equals(sort),
        _ => false,
    }
}

// Whether the variable of that number is a map that holds values of the sort.
fn holds(vars: &[Sort], number: u64, sort: &Sort) -> bool
    ensures { result ≡ is_some_and (slice_get vars.now number) (λ s. is sort.now (range s)) }
{
    match vars.get(number as usize) {
        Some(found) => has_range(found, sort),
        None => false,
    }
}

/// Whether the term has this sort.
#[cycle(sorts)]
pub fn has_sort(
    terms: &Terms,
    vars: &[Sort],
    defs: &[Def],
    id: TermId,
    sort: &Sort,
) -> Result<bool, AllocError>
    requires { id < length terms.now }
    ensures { IfOk result (λ b. b ≡ is sort.now (sort_of vars.now defs.now [] (at terms.now id))) }
{
    match terms.node(id) {
        Node::Free(v) => Ok(is_of(vars, *v, sort)),
        Node::Read(map, index) => reads(terms, vars, defs, id.number, *map, *index, sort),
        _ => has_found(terms, vars, defs, id, sort),
    }
}

// The same, by the sort found.
#[cycle(sorts)]
fn has_found(
    terms: &Terms,
    vars: &[Sort],
    defs: &[Def],
    id: TermId,
    sort: &Sort,
) -> Result<bool, AllocError>
    requires { id < length terms.now }
    ensures { IfOk result (λ b. b ≡ is sort.now (sort_of vars.now defs.now [] (at terms.now id))) }
{
    match sort_over(terms, vars, defs, id)? {
        Some(found) => Ok(found.equals(sort)),
        None => Ok(false),
    }
}

// Whether a Read of the variable of that number has this sort.
#[cycle(sorts)]
#[tactic(auto, using(crate::proofs::ReadSorts::read_is))]
fn reads_free(
    terms: &Terms,
    vars: &[Sort],
    defs: &[Def],
    below: usize,
    number: u64,
    index: TermId,
    sort: &Sort,
) -> Result<bool, AllocError>
    requires below { below ≤ length terms.now }
    requires index { index < below }
    ensures { IfOk result (λ b. b ≡ is sort.now (sort_of vars.now defs.now [] (read (free number) (at terms.now index)))) }
{
    Ok(holds(vars, number, sort) && has_sort(terms, vars, defs, index, &Sort::int())?)
}

// Whether a Read of the map has this sort, by the sort found.
#[cycle(sorts)]
fn reads_found(
    terms: &Terms,
    vars: &[Sort],
    defs: &[Def],
    below: usize,
    map: TermId,
    index: TermId,
    sort: &Sort,
) -> Result<bool, AllocError>
    requires below { below ≤ length terms.now }
    requires map { map < below }
    requires index { index < below }
    ensures { IfOk result (λ b. b ≡ is sort.now (sort_of vars.now defs.now [] (read (at terms.now map) (at terms.now index)))) }
{
    match read_sort(terms, vars, defs, below, map, index)? {
        Some(found) => Ok(found.equals(sort)),
        None => Ok(false),
    }
}

// Whether a Read has this sort.
#[cycle(sorts)]
fn reads(
    terms: &Terms,
    vars: &[Sort],
    defs: &[Def],
    below: usize,
    map: TermId,
    index: TermId,
    sort: &Sort,
) -> Result<bool, AllocError>
    requires below { below ≤ length terms.now }
    requires map { map < below }
    requires index { index < below }
    ensures { IfOk result (λ b. b ≡ is sort.now (sort_of vars.now defs.now [] (read (at terms.now map) (at terms.now index)))) }
{
    match terms.node(map) {
        Node::Free(v) => reads_free(terms, vars, defs, below, *v, index, sort),
        _ => reads_found(terms, vars, defs, below, map, index, sort),
    }
}

// Int, where all atoms of the sum are integers.
#[cycle(sorts)]
fn sum_sort(
    terms: &Terms,
    vars: &[Sort],
    defs: &[Def],
    below: usize,
    parts: &[(i128, TermId)],
) -> Result<Option<Sort>, AllocError>
    requires below { below ≤ length terms.now }
    requires parts { AtomsBelow below parts.now }
    ensures { IfOk result (λ s. s ≡ when (are_ints vars.now defs.now [] (parts_of (atoms_at terms.now parts.now))) (Some int)) }
{
    for part in parts {
        if !has_sort(terms, vars, defs, part.1, &Sort::int())? {
            return Ok(None);
        }
    }
    Ok(Some(Sort::int()))
}

// Int, where both factors are integers.
#[cycle(sorts)]
fn product_sort(
    terms: &Terms,
    vars: &[Sort],
    defs: &[Def],
    below: usize,
    a: TermId,
    b: TermId,
) -> Result<Option<Sort>, AllocError>
    requires below { below ≤ length terms.now }
    requires a { a < below }
    requires b { b < below }
    ensures { IfOk result (λ s. s ≡ sort_of vars.now defs.now [] (mul (at terms.now a) (at terms.now b))) }
{
    Ok(when(
        has_sort(terms, vars, defs, a, &Sort::int())?
            && has_sort(terms, vars, defs, b, &Sort::int())?,
        Sort::int(),
    ))
}

// What the map holds, where the index is an integer.
#[cycle(sorts)]
fn read_sort(
    terms: &Terms,
    vars: &[Sort],
    defs: &[Def],
    below: usize,
    map: TermId,
    index: TermId,
) -> Result<Option<Sort>, AllocError>
    requires below { below ≤ length terms.now }
    requires map { map < below }
    requires index { index < below }
    ensures { IfOk result (λ s. s ≡ sort_of vars.now defs.now [] (read (at terms.now map) (at terms.now index))) }
{
    let Some(sort) = sort_over(terms, vars, defs, map)? else {
        return Ok(None);
    };
    let Some(held) = sort.range(terms.alloc())? else {
        return Ok(None);
    };
    Ok(when(has_sort(terms, vars, defs, index, &Sort::int())?, held))
}

// Whether the terms have these sorts, and are as many.
#[cycle(sorts)]
fn are(
    terms: &Terms,
    vars: &[Sort],
    defs: &[Def],
    below: usize,
    sorts: &[Sort],
    ids: &[TermId],
) -> Result<bool, AllocError>
    requires below { below ≤ length terms.now }
    requires ids { AllByRecursion (λ j. j < below) ids.now }
    ensures { IfOk result (λ b. b ≡ are vars.now defs.now [] sorts.now (trees_of (terms_at terms.now ids.now))) }
{
    let shared = sorts.len().min(ids.len());
    for i in 0..shared {
        if !has_sort(terms, vars, defs, ids[i], &sorts[i])? {
            return Ok(false);
        }
    }
    Ok(sorts.len() == ids.len())
}

// The sort of the definition's applications, where the arguments have the sorts of its parameters.
#[cycle(sorts)]
fn call_sort(
    terms: &Terms,
    vars: &[Sort],
    defs: &[Def],
    below: usize,
    f: u64,
    args: &[TermId],
) -> Result<Option<Sort>, AllocError>
    requires below { below ≤ length terms.now }
    requires args { AllByRecursion (λ j. j < below) args.now }
    ensures { IfOk result (λ s. s ≡ sort_of vars.now defs.now [] (call f (trees_of (terms_at terms.now args.now)))) }
{
    let Some(def) = defs.get(f as usize) else {
        return Ok(None);
    };
    Ok(when(
        are(terms, vars, defs, below, def.params.as_slice(), args)?,
        def.sort.copy(terms.alloc())?,
    ))
}
