// The tuples of a trigger.
ghost use Rattle.std.specs.Prelude.{◌≡◌, ◌<◌, ◌++◌, false, length, reverse, flat_map, option_to_list, IfOk, OnOk};
ghost use Rattle.std.specs.List.{AllByRecursion};
ghost use Rattle.logic_core.specs.View.{trees_of};
ghost use Rattle.term_bank.specs.Numbered.{at};
ghost use Rattle.term_bank.specs.Node.{in_lists};
ghost use Rattle.quantifier_triggers.specs.Match.{matched, tuple_of, tuples as tuples_by, tuples_from};
ghost use Rattle.numbered_terms.specs.Lists.{terms_at, lists_at};
ghost use Rattle.numbered_instances.specs.Finding.{found_at, IsFoundBelow};
ghost use Rattle.numbered_instances.specs.Passed.{FindOne};

use crate::found::{nothing_found, restore, tuple_of};
use crate::passed::{has_new, is_passed};
use crate::pattern::matched;
use logic_core::copy::copy_sorts;
use logic_core::{Def, Sort};
use numbered_terms::Terms;
use numbered_terms::number_set::NumberSet;
use std::alloc::{AllocError, Global};
use term_bank::TermId;

// The tuple of what is found, where there is a term for each variable.
fn push_tuple(
    terms: &Terms,
    found: &[Option<TermId>],
    tuples: &mut Vec<Vec<TermId>>,
) -> Result<(), AllocError>
    requires found { IsFoundBelow (length terms.now) found.now }
    requires within { AllByRecursion (λ j. j < length terms.now) (in_lists tuples.old.items) }
    ensures tuples { OnOk result (lists_at terms.now tuples.new.items ≡ lists_at terms.now tuples.old.items ++ option_to_list (tuple_of (found_at terms.now found.now))) }
    ensures within { OnOk result (AllByRecursion (λ j. j < length terms.now) (in_lists tuples.new.items)) }
{
    if let Some(tuple) = tuple_of(terms.alloc(), found)? {
        tuples.push(tuple)?;
    }
    Ok(())
}

// The tuples of the patterns that are left, each matched against the ground terms in order. A tuple of one
// passed term alone may be left out.
#[cycle(push_tuples)]
fn push_tuples(
    terms: &Terms,
    vars: &[Sort],
    defs: &[Def],
    kinds: &[Sort],
    patterns: &[TermId],
    ground: &[TermId],
    passed: &NumberSet,
    found: &[Option<TermId>],
    tuples: &mut Vec<Vec<TermId>>,
) -> Result<(), AllocError>
    requires patterns { AllByRecursion (λ j. j < length terms.now) patterns.now }
    requires ground { AllByRecursion (λ j. j < length terms.now) ground.now }
    requires found { IsFoundBelow (length terms.now) found.now }
    requires within { AllByRecursion (λ j. j < length terms.now) (in_lists tuples.old.items) }
    ensures tuples { OnOk result (FindOne terms.now passed.now (lists_at terms.now tuples.new.items) (lists_at terms.now tuples.old.items ++ tuples_from vars.now defs.now kinds.now (terms_at terms.now ground.now) (trees_of (terms_at terms.now patterns.now)) (found_at terms.now found.now))) }
    ensures within { OnOk result (AllByRecursion (λ j. j < length terms.now) (in_lists tuples.new.items)) }
{
    let Some((pattern, rest)) = patterns.split_first() else {
        return push_tuple(terms, found, tuples);
    };
    let mut after = Vec::new(terms.alloc());
    for term in ground {
        push_term(
            terms, vars, defs, kinds, *pattern, *term, rest, ground, passed, found, &mut after,
            tuples,
        )?;
    }
    Ok(())
}

// The tuples of those of which the first pattern is matched against this ground term.
#[cycle(push_tuples)]
fn push_term(
    terms: &Terms,
    vars: &[Sort],
    defs: &[Def],
    kinds: &[Sort],
    pattern: TermId,
    term: TermId,
    rest: &[TermId],
    ground: &[TermId],
    passed: &NumberSet,
    found: &[Option<TermId>],
    after: &mut Vec<Option<TermId>>,
    tuples: &mut Vec<Vec<TermId>>,
) -> Result<(), AllocError>
    requires pattern { pattern < length terms.now }
    requires term { term < length terms.now }
    requires rest { AllByRecursion (λ j. j < length terms.now) rest.now }
    requires ground { AllByRecursion (λ j. j < length terms.now) ground.now }
    requires found { IsFoundBelow (length terms.now) found.now }
    requires within { AllByRecursion (λ j. j < length terms.now) (in_lists tuples.old.items) }
    ensures tuples { OnOk result (FindOne terms.now passed.now (lists_at terms.now tuples.new.items) (lists_at terms.now tuples.old.items ++ flat_map (λ c. tuples_from vars.now defs.now kinds.now (terms_at terms.now ground.now) (trees_of (terms_at terms.now rest.now)) c) (option_to_list (matched vars.now defs.now kinds.now false (at terms.now pattern) (at terms.now term) (found_at terms.now found.now))))) }
    ensures within { OnOk result (AllByRecursion (λ j. j < length terms.now) (in_lists tuples.new.items)) }
{
    if has_new(passed, tuples) {
        return Ok(());
    }
    if is_passed(terms, passed, pattern, term, rest, found) {
        return Ok(());
    }
    restore(after, found)?;
    let meets = matched(terms, vars, defs, kinds, pattern, term, after)?;
    if meets {
        return push_tuples(
            terms, vars, defs, kinds, rest, ground, passed, after, tuples,
        );
    }
    Ok(())
}

// The sorts of Bound(0), Bound(1) and so on.
fn kinds_of(alloc: Global, sorts: &[Sort]) -> Result<Vec<Sort>, AllocError>
    ensures { IfOk result (λ v. v.items ≡ reverse sorts.now) }
{
    let mut kinds = copy_sorts(alloc, sorts)?;
    kinds.reverse();
    Ok(kinds)
}

/// Puts the tuples of terms for a quantifier's variables that a trigger of it finds behind the others,
/// in the order of the positions at which its patterns, left to right, match the ground terms. `sorts`
/// are the sorts of the variables, and a tuple has their order. A tuple that is found twice stands
/// there twice. A tuple of one passed term alone may be left out, and each behind one that is new: the
/// first new one is the same.
pub fn push_matches(
    terms: &Terms,
    trigger: &[TermId],
    sorts: &[Sort],
    vars: &[Sort],
    defs: &[Def],
    ground: &[TermId],
    passed: &NumberSet,
    tuples: &mut Vec<Vec<TermId>>,
) -> Result<(), AllocError>
    requires trigger { AllByRecursion (λ j. j < length terms.now) trigger.now }
    requires ground { AllByRecursion (λ j. j < length terms.now) ground.now }
    requires within { AllByRecursion (λ j. j < length terms.now) (in_lists tuples.old.items) }
    ensures tuples { OnOk result (FindOne terms.now passed.now (lists_at terms.now tuples.new.items) (lists_at terms.now tuples.old.items ++ tuples_by vars.now defs.now (trees_of (terms_at terms.now trigger.now)) sorts.now (terms_at terms.now ground.now))) }
    ensures within { OnOk result (AllByRecursion (λ j. j < length terms.now) (in_lists tuples.new.items)) }
{
    let kinds = kinds_of(terms.alloc(), sorts)?;
    let found = nothing_found(terms.alloc(), sorts)?;
    push_tuples(
        terms, vars, defs, &kinds, trigger, ground, passed, &found, tuples,
    )
}
