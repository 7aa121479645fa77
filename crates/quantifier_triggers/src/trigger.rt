// The tuples of a trigger.
ghost use Rattle.std.specs.Prelude.{◌≡◌, ◌++◌, IfOk, OnOk, option_to_list};
ghost use Rattle.logic_core.specs.View.{trees_of, each_items};
ghost use Rattle.quantifier_triggers.specs.Match.{tuple_of, tuples, tuples_from};

use crate::found::{Found, copy_found, nothing_found, tuple_of};
use crate::pattern::matched;
use logic_core::copy::copy_sorts;
use logic_core::def::{Def, Signature};
use logic_core::sort::Sort;
use logic_core::term::Term;
use std::alloc::{AllocError, Global};

// The tuple of what is found, where there is a term for each variable.
fn push_tuple(alloc: Global, found: &Found, tuples: &mut Vec<Vec<Term>>) -> Result<(), AllocError>
    ensures { OnOk result (each_items tuples.new.items ≡ each_items tuples.old.items ++ option_to_list (tuple_of found.now)) }
{
    if let Some(tuple) = tuple_of(alloc, found)? {
        tuples.push(tuple)?;
    }
    Ok(())
}

// The tuples of the patterns that are left, each matched against the ground terms in order.
fn push_tuples(
    alloc: Global,
    vars: &[Sort],
    defs: &[Def],
    kinds: &[Sort],
    patterns: &[Term],
    ground: &[Term],
    found: &Found,
    tuples: &mut Vec<Vec<Term>>,
) -> Result<(), AllocError>
    ensures { OnOk result (each_items tuples.new.items ≡ each_items tuples.old.items ++ tuples_from vars.now defs.now kinds.now ground.now (trees_of patterns.now) found.now) }
{
    let Some((pattern, rest)) = patterns.split_first() else {
        return push_tuple(alloc, found, tuples);
    };
    for term in ground {
        let before = copy_found(alloc, found.as_slice())?;
        if let Some(after) = matched(alloc, vars, defs, kinds, pattern, term, before)? {
            push_tuples(alloc, vars, defs, kinds, rest, ground, &after, tuples)?;
        }
    }
    Ok(())
}

/// The tuples of terms for a quantifier's variables that a trigger of it finds, in the order of the
/// positions at which its patterns, left to right, match the ground terms. `sorts` are the sorts of
/// the variables, and a tuple has their order. A tuple that is found twice stands there twice.
pub fn matches_over(
    alloc: Global,
    trigger: &[Term],
    sorts: &[Sort],
    vars: &[Sort],
    defs: &[Def],
    ground: &[Term],
) -> Result<Vec<Vec<Term>>, AllocError>
    ensures { IfOk result (λ v. each_items v.items ≡ tuples vars.now defs.now (trees_of trigger.now) sorts.now ground.now) }
{
    let mut kinds = copy_sorts(alloc, sorts)?;
    kinds.reverse();
    let found = nothing_found(alloc, sorts)?;
    let mut tuples = Vec::new(alloc);
    push_tuples(
        alloc,
        vars,
        defs,
        &kinds,
        trigger,
        ground,
        &found,
        &mut tuples,
    )?;
    Ok(tuples)
}

/// The tuples over this signature, as `matches_over` has them.
pub fn matches(
    alloc: Global,
    trigger: &[Term],
    sorts: &[Sort],
    sig: &Signature,
    ground: &[Term],
) -> Result<Vec<Vec<Term>>, AllocError>
    ensures { IfOk result (λ v. each_items v.items ≡ tuples sig.now.vars sig.now.defs (trees_of trigger.now) sorts.now ground.now) }
{
    matches_over(alloc, trigger, sorts, sig.vars(), sig.defs(), ground)
}
