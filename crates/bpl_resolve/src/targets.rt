// Variables that statements set, and formulas that may be missing.
ghost use Rattle.std.specs.Prelude.{◌≡◌, IfOk};
ghost use Rattle.bpl_ast.specs.ExprView.{exprs_of};
ghost use Rattle.bpl_scopes.specs.Functions.{in_number_order};
ghost use Rattle.bpl_faults.specs.ScopeView.{scope_seen};
ghost use Rattle.bpl_resolve.specs.Elaborate.{number_of_term, target_number, target_numbers, assignment, assignments, guard_of, invariants_of};

use bpl_ast::{Expr, Invariant as AstInvariant, Name, Target};
use bpl_faults::Scope;
use bpl_scopes::Positions;
use bpl_terms::numbers::meaning_term;
use bpl_terms::{stored, term_of, terms_in};
use flow_core::Invariant;
use logic_core::{Node, Term};
use std::alloc::{AllocError, Global};

fn number_of_term(term: &Term) -> u64
    ensures { result ≡ number_of_term term.now }
{
    match &term.node {
        Node::Free(number) => *number,
        _ => 0,
    }
}

/// The number of a variable that is set.
pub(crate) fn target_number(scope: &Scope, name: &Name) -> Result<u64, AllocError>
    ensures { IfOk result (λ n. n ≡ target_number (scope_seen scope.now) name.now) }
{
    let term = meaning_term(false, scope.counts, scope.meaning(name.text.as_bytes()))?;
    Ok(number_of_term(&term))
}

/// The numbers of variables that are set.
pub(crate) fn target_numbers(
    alloc: Global,
    scope: &Scope,
    names: &[Name],
) -> Result<Vec<u64>, AllocError>
    ensures { IfOk result (λ v. v.items ≡ target_numbers (scope_seen scope.now) names.now) }
{
    let mut numbers = Vec::new(alloc);
    for name in names {
        numbers.push(target_number(scope, name)?)?;
    }
    Ok(numbers)
}

fn assignment<'a>(
    alloc: Global,
    scope: &Scope<'_, 'a>,
    order: &Positions,
    target: &'a Target,
    value: &'a Expr,
) -> Result<(u64, Term), AllocError>
    requires { order.now ≡ in_number_order (scope_seen scope.now).table }
    ensures { IfOk result (λ p. p ≡ assignment (scope_seen scope.now) target.now value.now) }
{
    let number = target_number(scope, &target.name)?;
    let indices = terms_in(alloc, scope, order, false, &target.indices)?;
    let value = term_of(alloc, scope, order, value)?;
    let value = stored(alloc, Term::new(Node::Free(number)), &indices, value)?;
    Ok((number, value))
}

/// Each target with what it takes.
pub(crate) fn assignments<'a>(
    alloc: Global,
    scope: &Scope<'_, 'a>,
    order: &Positions,
    targets: &'a [Target],
    values: &'a [Expr],
) -> Result<Vec<(u64, Term)>, AllocError>
    requires { order.now ≡ in_number_order (scope_seen scope.now).table }
    ensures { IfOk result (λ v. v.items ≡ assignments (scope_seen scope.now) targets.now (exprs_of values.now)) }
{
    let mut found = Vec::new(alloc);
    let mut rest = values;
    for target in targets {
        match rest.split_first() {
            Some((value, others)) => {
                found.push(assignment(alloc, scope, order, target, value)?)?;
                rest = others;
            }
            None => return Ok(found),
        }
    }
    Ok(found)
}

/// A formula that may be missing.
pub(crate) fn guard_of<'a>(
    alloc: Global,
    scope: &Scope<'_, 'a>,
    order: &Positions,
    guard: &'a Option<Expr>,
) -> Result<Option<Term>, AllocError>
    requires { order.now ≡ in_number_order (scope_seen scope.now).table }
    ensures { IfOk result (λ g. g ≡ guard_of (scope_seen scope.now) guard.now) }
{
    match guard {
        Some(formula) => Ok(Some(term_of(alloc, scope, order, formula)?)),
        None => Ok(None),
    }
}

/// The invariants of a loop.
pub(crate) fn invariants_of<'a>(
    alloc: Global,
    scope: &Scope<'_, 'a>,
    order: &Positions,
    invariants: &'a [AstInvariant],
) -> Result<Vec<Invariant>, AllocError>
    requires { order.now ≡ in_number_order (scope_seen scope.now).table }
    ensures { IfOk result (λ v. v.items ≡ invariants_of (scope_seen scope.now) invariants.now) }
{
    let mut found = Vec::new(alloc);
    for invariant in invariants {
        found.push(Invariant {
            free: invariant.free,
            place: invariant.at,
            formula: term_of(alloc, scope, order, &invariant.formula)?,
        })?;
    }
    Ok(found)
}
