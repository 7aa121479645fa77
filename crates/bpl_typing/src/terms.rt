// Whether terms, targets and calls are as statements and contracts need them.
ghost use Rattle.std.specs.Prelude.{◌≡◌, ◌==◌, IfOk, map};
ghost use Rattle.std.specs.List.{list_all};
ghost use Rattle.logic_core.specs.Tree.{boolean};
ghost use Rattle.logic_core.specs.Sorts.{is, sort_of};
ghost use Rattle.flow_core.specs.State.{sorts_at};
ghost use Rattle.bpl_model.specs.TypedTest.{distinct, between, is_formula, is_formula_or_none, fits, may_be_set, are_targets, is_call_of};

use bpl_model::variables::push_local_sorts;
use bpl_model::{Proc, Variables};
use logic_core::same::equal_sorts;
use logic_core::sorts::are;
use logic_core::{Def, Formula, Sort, Term};
use std::alloc::{AllocError, Global};

/// Whether it is a formula over these variables and definitions.
pub fn is_formula(
    alloc: Global,
    defs: &[Def],
    vars: &[Sort],
    formula: &Formula,
) -> Result<bool, AllocError>
    ensures { IfOk result (λ h. h ≡ is_formula defs.now vars.now formula.now) }
{
    formula.has_sort(alloc, vars, defs, &[], &Sort::boolean())
}

/// Whether it is a formula over these variables and definitions, where there is one.
pub fn is_formula_or_none(
    alloc: Global,
    defs: &[Def],
    vars: &[Sort],
    formula: &Option<Formula>,
) -> Result<bool, AllocError>
    ensures { IfOk result (λ h. h ≡ is_formula_or_none defs.now vars.now formula.now) }
{
    match formula {
        Some(formula) => is_formula(alloc, defs, vars, formula),
        None => Ok(true),
    }
}

/// Whether each of them is a formula over these variables and definitions.
pub fn are_formulas(
    alloc: Global,
    defs: &[Def],
    vars: &[Sort],
    formulas: &[Formula],
) -> Result<bool, AllocError>
    ensures { IfOk result (λ h. h ≡ list_all (is_formula defs.now vars.now) formulas.now) }
{
    for formula in formulas {
        if !is_formula(alloc, defs, vars, formula)? {
            return Ok(false);
        }
    }
    Ok(true)
}

/// Whether the number is at least the first and below the second.
pub fn between(low: u64, high: u64, number: u64) -> bool
    ensures { result ≡ between low high number }
{
    low <= number && number < high
}

/// Whether each number is at least the first and below the second.
pub fn all_between(low: u64, high: u64, numbers: &[u64]) -> bool
    ensures { result ≡ list_all (between low high) numbers.now }
{
    numbers.iter().all(|number| between(low, high, *number))
}

/// Whether no number stands there twice.
fn are_distinct(numbers: &[u64]) -> bool
    ensures { result ≡ distinct numbers.now }
{
    for (i, number) in numbers.iter().enumerate() {
        if numbers[i + 1..].contains(number) {
            return false;
        }
    }
    true
}

fn may_be_set(vars: &Variables, var: u64) -> bool
    ensures { result ≡ may_be_set vars.now var }
{
    between(vars.first_global, vars.first_entry, var)
        || between(vars.first_out, vars.sorts.len() as u64, var)
}

/// Whether the variables may be set, and none stands there twice.
pub fn are_targets(vars: &Variables, targets: &[u64]) -> bool
    ensures { result ≡ are_targets vars.now targets.now }
{
    are_distinct(targets) && all_may_be_set(vars, targets)
}

fn all_may_be_set(vars: &Variables, targets: &[u64]) -> bool
    ensures { result ≡ list_all (may_be_set vars.now) targets.now }
{
    targets.iter().all(|var| may_be_set(vars, *var))
}

/// The variables of pairs of a variable and a term.
pub fn targets_of(alloc: Global, pairs: &[(u64, Term)]) -> Result<Vec<u64>, AllocError>
    ensures { IfOk result (λ v. v.items ≡ map (λ a. a.0) pairs.now) }
{
    let mut targets = Vec::new(alloc);
    for pair in pairs {
        targets.push(pair.0)?;
    }
    Ok(targets)
}

/// Whether each term has the sort of its variable.
pub fn all_fit(
    alloc: Global,
    defs: &[Def],
    vars: &[Sort],
    pairs: &[(u64, Term)],
) -> Result<bool, AllocError>
    ensures { IfOk result (λ h. h ≡ list_all (fits defs.now vars.now) pairs.now) }
{
    for pair in pairs {
        if !fits(alloc, defs, vars, pair)? {
            return Ok(false);
        }
    }
    Ok(true)
}

fn fits(alloc: Global, defs: &[Def], vars: &[Sort], pair: &(u64, Term)) -> Result<bool, AllocError>
    ensures { IfOk result (λ h. h ≡ fits defs.now vars.now pair.now) }
{
    match vars.get(pair.0 as usize) {
        Some(sort) => pair.1.has_sort(alloc, vars, defs, &[], sort),
        None => pair.1.has_sort(alloc, vars, defs, &[], &Sort::int()),
    }
}

/// Whether the callee takes the arguments, and gives the variables values of their sorts.
pub fn is_call_of(
    alloc: Global,
    defs: &[Def],
    vars: &[Sort],
    callee: &Proc,
    arguments: &[Term],
    targets: &[u64],
) -> Result<bool, AllocError>
    ensures { IfOk result (λ h. h ≡ is_call_of defs.now vars.now (Some callee.now) arguments.now targets.now) }
{
    let mut ins = Vec::new(alloc);
    push_local_sorts(alloc, &mut ins, &callee.ins)?;
    let mut outs = Vec::new(alloc);
    push_local_sorts(alloc, &mut outs, &callee.outs)?;
    Ok(
        are(alloc, vars, defs, &[], &ins, arguments)?
            && equal_sorts(&sorts_at(alloc, vars, targets)?, &outs),
    )
}

// The sorts of these variables; that of one which isn't there is Int.
fn sorts_at(alloc: Global, vars: &[Sort], numbers: &[u64]) -> Result<Vec<Sort>, AllocError>
    ensures { IfOk result (λ v. v.items ≡ sorts_at vars.now numbers.now) }
{
    let mut sorts = Vec::new(alloc);
    for number in numbers {
        match vars.get(*number as usize) {
            Some(sort) => sorts.push(sort.copy(alloc)?)?,
            None => sorts.push(Sort::int())?,
        }
    }
    Ok(sorts)
}
