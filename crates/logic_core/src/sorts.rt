// The sort of a term, where it is well sorted: each construct has parts of the sorts that it is
// for, a Call has the definition's parameters, both branches of an If and both sides of an Eq have
// one sort, and triggers are well sorted, of any sorts.
ghost use Rattle.std.specs.Prelude.{◌≡◌, ◌++◌, ◌&&◌, reverse, IfOk, slice_get, Some};
ghost use Rattle.logic_terms.specs.Tree.{int, boolean, call};
ghost use Rattle.logic_core.specs.View.{trees_of, parts_of, patterns_of, each_items};
ghost use Rattle.logic_terms.specs.Wide.{when};
ghost use Rattle.logic_terms.specs.Sorts.{is, read_sort, write_sort, choice_sort, equation_sort, sort_of, are, are_formulas, are_ints, have_sorts, have_sorts_in};

use crate::copy::copy_sorts;
use crate::def::{Def, Signature};
use crate::sort::Sort;
use crate::term::{Node, Term};
use std::alloc::{AllocError, Global};

/// The sort with that number, where there is one.
fn sort_at(alloc: Global, sorts: &[Sort], number: u64) -> Result<Option<Sort>, AllocError>
    ensures { IfOk result (λ s. s ≡ slice_get sorts.now number) }
{
    match sorts.get(number as usize) {
        Some(sort) => Ok(Some(sort.copy(alloc)?)),
        None => Ok(None),
    }
}

/// The sorts of the bound variables in reach of a binder's body: the binder's last variable first.
pub fn within_binder(alloc: Global, sorts: &[Sort], bound: &[Sort]) -> Result<Vec<Sort>, AllocError>
    ensures { IfOk result (λ v. v.items ≡ reverse sorts.now ++ bound.now) }
{
    let mut reach = copy_sorts(alloc, sorts)?;
    reach.reverse();
    for sort in bound {
        reach.push(sort.copy(alloc)?)?;
    }
    Ok(reach)
}

impl Term {
    /// The sort of the term over this signature, None exactly where it isn't well sorted. `bound` are
    /// the sorts of the bound variables in reach, that of `Bound(0)` last.
    pub fn sort_of(
        &self,
        alloc: Global,
        sig: &Signature,
        bound: &[Sort],
    ) -> Result<Option<Sort>, AllocError>
        ensures { IfOk result (λ s. s ≡ sort_of sig.now.vars sig.now.defs (reverse bound.now) self.now) }
    {
        let mut reach = copy_sorts(alloc, bound)?;
        reach.reverse();
        self.sort_over(alloc, sig.vars(), sig.defs(), &reach)
    }

    /// The sort of the term over these variables and definitions, None exactly where it isn't well
    /// sorted. `bound` are the sorts of the bound variables in reach, that of `Bound(0)` first.
    #[cycle(sorts)]
    pub fn sort_over(
        &self,
        alloc: Global,
        vars: &[Sort],
        defs: &[Def],
        bound: &[Sort],
    ) -> Result<Option<Sort>, AllocError>
        ensures { IfOk result (λ s. s ≡ sort_of vars.now defs.now bound.now self.now) }
    {
        match &self.node {
            Node::Num(_) => Ok(Some(Sort::int())),
            Node::Truth(_) => Ok(Some(Sort::boolean())),
            Node::Free(v) => sort_at(alloc, vars, *v),
            Node::Bound(v) => sort_at(alloc, bound, *v),
            Node::Sum(parts, _) => Ok(when(
                are_ints(alloc, vars, defs, bound, parts)?,
                Sort::int(),
            )),
            Node::Mul(a, b) => Ok(when(
                are_both(alloc, vars, defs, bound, a, b, &Sort::int())?,
                Sort::int(),
            )),
            Node::Read(map, index) => read_sort(alloc, vars, defs, bound, map, index),
            Node::Write(map, index, value) => {
                write_sort(alloc, vars, defs, bound, map, index, value)
            }
            Node::If(condition, a, b) => choice_sort(alloc, vars, defs, bound, condition, a, b),
            Node::Call(f, terms) => call_sort(alloc, vars, defs, bound, *f, terms),
            Node::Not(a) => Ok(when(
                a.has_sort(alloc, vars, defs, bound, &Sort::boolean())?,
                Sort::boolean(),
            )),
            Node::And(terms) | Node::Or(terms) => {
                Ok(when(
                    are_formulas(alloc, vars, defs, bound, terms)?,
                    Sort::boolean(),
                ))
            }
            Node::Eq(a, b) => equation_sort(alloc, vars, defs, bound, a, b),
            Node::Le(a, b) => Ok(when(
                are_both(alloc, vars, defs, bound, a, b, &Sort::int())?,
                Sort::boolean(),
            )),
            Node::ForAll(sorts, patterns, body) | Node::Exists(sorts, patterns, body) => {
                Ok(when(
                    is_quantified(alloc, vars, defs, bound, sorts, patterns, body)?,
                    Sort::boolean(),
                ))
            }
        }
    }

    /// Whether the term is well sorted and has this sort.
    #[cycle(sorts)]
    pub fn has_sort(
        &self,
        alloc: Global,
        vars: &[Sort],
        defs: &[Def],
        bound: &[Sort],
        sort: &Sort,
    ) -> Result<bool, AllocError>
        ensures { IfOk result (λ h. h ≡ is sort.now (sort_of vars.now defs.now bound.now self.now)) }
    {
        match self.sort_over(alloc, vars, defs, bound)? {
            Some(found) => Ok(found.equals(sort)),
            None => Ok(false),
        }
    }
}

// The sort of a Read of these parts.
#[cycle(sorts)]
fn read_sort(
    alloc: Global,
    vars: &[Sort],
    defs: &[Def],
    bound: &[Sort],
    map: &Term,
    index: &Term,
) -> Result<Option<Sort>, AllocError>
    ensures { IfOk result (λ s. s ≡ read_sort (sort_of vars.now defs.now bound.now map.now) (sort_of vars.now defs.now bound.now index.now)) }
{
    let Some(sort) = map.sort_over(alloc, vars, defs, bound)? else {
        return Ok(None);
    };
    let Some(held) = sort.range(alloc)? else {
        return Ok(None);
    };
    Ok(when(
        index.has_sort(alloc, vars, defs, bound, &Sort::int())?,
        held,
    ))
}

// The sort of a Write of these parts.
#[cycle(sorts)]
fn write_sort(
    alloc: Global,
    vars: &[Sort],
    defs: &[Def],
    bound: &[Sort],
    map: &Term,
    index: &Term,
    value: &Term,
) -> Result<Option<Sort>, AllocError>
    ensures { IfOk result (λ s. s ≡ write_sort (sort_of vars.now defs.now bound.now map.now) (sort_of vars.now defs.now bound.now index.now) (sort_of vars.now defs.now bound.now value.now)) }
{
    let Some(sort) = map.sort_over(alloc, vars, defs, bound)? else {
        return Ok(None);
    };
    let Some(held) = sort.range(alloc)? else {
        return Ok(None);
    };
    Ok(when(
        index.has_sort(alloc, vars, defs, bound, &Sort::int())?
            && value.has_sort(alloc, vars, defs, bound, &held)?,
        sort,
    ))
}

// The sort of an If of these parts.
#[cycle(sorts)]
fn choice_sort(
    alloc: Global,
    vars: &[Sort],
    defs: &[Def],
    bound: &[Sort],
    condition: &Term,
    a: &Term,
    b: &Term,
) -> Result<Option<Sort>, AllocError>
    ensures { IfOk result (λ s. s ≡ choice_sort (sort_of vars.now defs.now bound.now condition.now) (sort_of vars.now defs.now bound.now a.now) (sort_of vars.now defs.now bound.now b.now)) }
{
    let Some(sort) = a.sort_over(alloc, vars, defs, bound)? else {
        return Ok(None);
    };
    Ok(when(
        condition.has_sort(alloc, vars, defs, bound, &Sort::boolean())?
            && b.has_sort(alloc, vars, defs, bound, &sort)?,
        sort,
    ))
}

// The sort of a Call of that definition with these arguments.
#[cycle(sorts)]
fn call_sort(
    alloc: Global,
    vars: &[Sort],
    defs: &[Def],
    bound: &[Sort],
    f: u64,
    terms: &[Term],
) -> Result<Option<Sort>, AllocError>
    ensures { IfOk result (λ s. s ≡ sort_of vars.now defs.now bound.now (call f (trees_of terms.now))) }
{
    let Some(def) = defs.get(f as usize) else {
        return Ok(None);
    };
    Ok(when(
        are(alloc, vars, defs, bound, def.params.as_slice(), terms)?,
        def.sort.copy(alloc)?,
    ))
}

// The sort of an Eq of these sides.
#[cycle(sorts)]
fn equation_sort(
    alloc: Global,
    vars: &[Sort],
    defs: &[Def],
    bound: &[Sort],
    a: &Term,
    b: &Term,
) -> Result<Option<Sort>, AllocError>
    ensures { IfOk result (λ s. s ≡ equation_sort (sort_of vars.now defs.now bound.now a.now) (sort_of vars.now defs.now bound.now b.now)) }
{
    let Some(sort) = a.sort_over(alloc, vars, defs, bound)? else {
        return Ok(None);
    };
    Ok(when(
        b.has_sort(alloc, vars, defs, bound, &sort)?,
        Sort::boolean(),
    ))
}

// Whether both terms are well sorted and have this sort.
#[cycle(sorts)]
fn are_both(
    alloc: Global,
    vars: &[Sort],
    defs: &[Def],
    bound: &[Sort],
    a: &Term,
    b: &Term,
    sort: &Sort,
) -> Result<bool, AllocError>
    ensures { IfOk result (λ h. h ≡ (is sort.now (sort_of vars.now defs.now bound.now a.now) && is sort.now (sort_of vars.now defs.now bound.now b.now))) }
{
    Ok(a.has_sort(alloc, vars, defs, bound, sort)? && b.has_sort(alloc, vars, defs, bound, sort)?)
}

// Whether the triggers of a quantifier over these sorts are well sorted, and its body is a formula.
#[cycle(sorts)]
fn is_quantified(
    alloc: Global,
    vars: &[Sort],
    defs: &[Def],
    bound: &[Sort],
    sorts: &[Sort],
    patterns: &[Vec<Term>],
    body: &Term,
) -> Result<bool, AllocError>
    ensures { IfOk result (λ h. h ≡ (have_sorts_in vars.now defs.now (reverse sorts.now ++ bound.now) (patterns_of (each_items patterns.now)) && is boolean (sort_of vars.now defs.now (reverse sorts.now ++ bound.now) body.now))) }
{
    let reach = within_binder(alloc, sorts, bound)?;
    Ok(
        have_sorts_in(alloc, vars, defs, reach.as_slice(), patterns)?
            && body.has_sort(alloc, vars, defs, reach.as_slice(), &Sort::boolean())?,
    )
}

/// The sort, where the test holds.
fn when(holds: bool, sort: Sort) -> Option<Sort>
    ensures { result ≡ when holds (Some sort) }
{
    if holds { Some(sort) } else { None }
}

/// Whether the terms have these sorts, and are as many.
#[cycle(sorts)]
pub fn are(
    alloc: Global,
    vars: &[Sort],
    defs: &[Def],
    bound: &[Sort],
    sorts: &[Sort],
    terms: &[Term],
) -> Result<bool, AllocError>
    ensures { IfOk result (λ h. h ≡ are vars.now defs.now bound.now sorts.now (trees_of terms.now)) }
{
    let shared = sorts.len().min(terms.len());
    for i in 0..shared {
        if !terms[i].has_sort(alloc, vars, defs, bound, &sorts[i])? {
            return Ok(false);
        }
    }
    Ok(sorts.len() == terms.len())
}

/// Whether the terms are well sorted formulas.
#[cycle(sorts)]
fn are_formulas(
    alloc: Global,
    vars: &[Sort],
    defs: &[Def],
    bound: &[Sort],
    terms: &[Term],
) -> Result<bool, AllocError>
    ensures { IfOk result (λ h. h ≡ are_formulas vars.now defs.now bound.now (trees_of terms.now)) }
{
    for term in terms {
        if !term.has_sort(alloc, vars, defs, bound, &Sort::boolean())? {
            return Ok(false);
        }
    }
    Ok(true)
}

/// Whether the atoms are well sorted, of sort Int.
#[cycle(sorts)]
fn are_ints(
    alloc: Global,
    vars: &[Sort],
    defs: &[Def],
    bound: &[Sort],
    parts: &[(i128, Term)],
) -> Result<bool, AllocError>
    ensures { IfOk result (λ h. h ≡ are_ints vars.now defs.now bound.now (parts_of parts.now)) }
{
    for part in parts {
        if !part.1.has_sort(alloc, vars, defs, bound, &Sort::int())? {
            return Ok(false);
        }
    }
    Ok(true)
}

/// Whether the terms are well sorted, of any sorts.
#[cycle(sorts)]
fn have_sorts(
    alloc: Global,
    vars: &[Sort],
    defs: &[Def],
    bound: &[Sort],
    terms: &[Term],
) -> Result<bool, AllocError>
    ensures { IfOk result (λ h. h ≡ have_sorts vars.now defs.now bound.now (trees_of terms.now)) }
{
    for term in terms {
        if term.sort_over(alloc, vars, defs, bound)?.is_none() {
            return Ok(false);
        }
    }
    Ok(true)
}

/// Whether the patterns' terms are well sorted, of any sorts.
#[cycle(sorts)]
fn have_sorts_in(
    alloc: Global,
    vars: &[Sort],
    defs: &[Def],
    bound: &[Sort],
    patterns: &[Vec<Term>],
) -> Result<bool, AllocError>
    ensures { IfOk result (λ h. h ≡ have_sorts_in vars.now defs.now bound.now (patterns_of (each_items patterns.now))) }
{
    for pattern in patterns {
        if !have_sorts(alloc, vars, defs, bound, pattern)? {
            return Ok(false);
        }
    }
    Ok(true)
}
