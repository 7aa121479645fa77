// What stands for a call.
ghost use Rattle.std.specs.Prelude.{◌≡◌, ◌++◌, IfOk, OnOk, map, zip};
ghost use Rattle.logic_core.specs.Tree.{free};
ghost use Rattle.bpl_model.specs.Module.{assign, havoc};
ghost use Rattle.bpl_model.specs.Contract.{modified};
ghost use Rattle.bpl_model.specs.Typed.{IsTypedProc};
ghost use Rattle.bpl_model.specs.Cut.{arguments, old_globals, results, contract_of, own_variables};
ghost use Rattle.call_cut.specs.Table.{at_call, between_calls};

use crate::assignment::{as_terms, pairs};
use crate::contract::{modified, push_checks, push_postconditions};
use crate::number::range;
use crate::own::{push_owned, push_owned_globals, push_results};
use crate::table::{enter_call, leave_call};
use bpl_model::number::sum;
use bpl_model::{Local, Parts, Place, Proc, Stmt, StmtForm};
use logic_core::Term;
use std::alloc::{AllocError, Global};

/// The variables that the calls so far own, and the table of the caller's variables.
#[derive(Drop)]
pub struct CallVariables {
    pub own: Vec<Local>,
    pub table: Vec<u64>,
}

/// The statements for a call whose own variables begin at number `n`: assign the arguments; assert
/// each checked `requires`; keep the modified globals; havoc them and the results; assume each
/// `ensures`; assign the results. The call's own variables come after those before: the arguments,
/// the old globals, the results.
pub fn replaced(
    alloc: Global,
    parts: &Parts,
    n: u64,
    at: Place,
    callee: &Proc,
    arguments: &[Term],
    vars: &[u64],
    variables: &mut CallVariables,
) -> Result<Vec<Stmt>, AllocError>
    requires typed { IsTypedProc parts.now callee.now }
    requires between { variables.old.table.items ≡ between_calls parts.now }
    ensures stmts { IfOk result (λ v. v.items ≡ contract_of parts.now n at callee.now arguments.now vars.now) }
    ensures own { OnOk result (variables.new.own.items ≡ variables.old.own.items ++ own_variables parts.now callee.now n) }
    ensures between { OnOk result (variables.new.table.items ≡ between_calls parts.now) }
{
    let changed = modified(alloc, parts, callee)?;
    enter_call(alloc, &mut variables.table, parts, callee, &changed, n)?;
    push_own(
        alloc,
        parts,
        n,
        callee,
        &changed,
        &variables.table,
        &mut variables.own,
    )?;
    let stmts = statements(
        alloc,
        parts,
        n,
        at,
        callee,
        arguments,
        vars,
        &changed,
        &variables.table,
    )?;
    leave_call(&mut variables.table, parts, callee, &changed);
    Ok(stmts)
}

// The call's own variables: the arguments, the old values of the globals that the callee may modify,
// and the results.
fn push_own(
    alloc: Global,
    parts: &Parts,
    n: u64,
    callee: &Proc,
    changed: &[u64],
    table: &[u64],
    own: &mut Vec<Local>,
) -> Result<(), AllocError>
    requires typed { IsTypedProc parts.now callee.now }
    requires called { table.now ≡ at_call parts.now callee.now n }
    requires may { changed.now ≡ modified parts.now callee.now }
    ensures { OnOk result (own.new.items ≡ own.old.items ++ own_variables parts.now callee.now n) }
{
    push_owned(alloc, &callee.ins, own)?;
    push_owned_globals(alloc, parts, changed, own)?;
    push_results(alloc, &callee.outs, table, own)
}

// The statements, over the table of the call.
fn statements(
    alloc: Global,
    parts: &Parts,
    n: u64,
    at: Place,
    callee: &Proc,
    arguments: &[Term],
    vars: &[u64],
    changed: &[u64],
    table: &[u64],
) -> Result<Vec<Stmt>, AllocError>
    requires typed { IsTypedProc parts.now callee.now }
    requires called { table.now ≡ at_call parts.now callee.now n }
    requires may { changed.now ≡ modified parts.now callee.now }
    ensures { IfOk result (λ v. v.items ≡ contract_of parts.now n at callee.now arguments.now vars.now) }
{
    let results = result_numbers(alloc, parts, n, callee, changed)?;
    let mut stmts = Vec::new(alloc);
    stmts.push(give_arguments(alloc, parts, n, at, callee, arguments)?)?;
    push_checks(alloc, at, &callee.specs, table, &mut stmts)?;
    stmts.push(keep_globals(alloc, parts, n, at, callee, changed)?)?;
    stmts.push(havoc_both(alloc, at, changed, &results)?)?;
    push_postconditions(alloc, at, &callee.specs, table, &mut stmts)?;
    stmts.push(take_results(alloc, at, vars, &results)?)?;
    Ok(stmts)
}

// The call's own variables take the arguments.
fn give_arguments(
    alloc: Global,
    parts: &Parts,
    n: u64,
    at: Place,
    callee: &Proc,
    given: &[Term],
) -> Result<Stmt, AllocError>
    ensures { IfOk result (λ s. s ≡ assign at (zip (arguments parts.now callee.now n) given.now)) }
{
    let own = range(alloc, n, callee.ins.len())?;
    Ok(Stmt::new(StmtForm::Assign(at, pairs(alloc, own.as_slice(), given)?)))
}

// Further ones keep the globals that the callee may modify.
fn keep_globals(
    alloc: Global,
    parts: &Parts,
    n: u64,
    at: Place,
    callee: &Proc,
    changed: &[u64],
) -> Result<Stmt, AllocError>
    requires { changed.now ≡ modified parts.now callee.now }
    ensures { IfOk result (λ s. s ≡ assign at (zip (old_globals parts.now callee.now n) (map free (modified parts.now callee.now)))) }
{
    let own = range(alloc, sum(n, callee.ins.len() as u64)?, changed.len())?;
    let globals = as_terms(alloc, changed)?;
    Ok(Stmt::new(StmtForm::Assign(at, pairs(alloc, own.as_slice(), globals.as_slice())?)))
}

// The call's own variables for the results.
fn result_numbers(
    alloc: Global,
    parts: &Parts,
    n: u64,
    callee: &Proc,
    changed: &[u64],
) -> Result<Vec<u64>, AllocError>
    requires { changed.now ≡ modified parts.now callee.now }
    ensures { IfOk result (λ v. v.items ≡ results parts.now callee.now n) }
{
    let first_old = sum(n, callee.ins.len() as u64)?;
    range(
        alloc,
        sum(first_old, changed.len() as u64)?,
        callee.outs.len(),
    )
}

// The modified globals and the results get any values.
fn havoc_both(alloc: Global, at: Place, changed: &[u64], own: &[u64]) -> Result<Stmt, AllocError>
    ensures { IfOk result (λ s. s ≡ havoc at (changed.now ++ own.now)) }
{
    let mut both = Vec::from_slice(alloc, changed)?;
    both.extend_from_slice(own)?;
    Ok(Stmt::new(StmtForm::Havoc(at, both)))
}

// The caller's variables take the results.
fn take_results(alloc: Global, at: Place, vars: &[u64], own: &[u64]) -> Result<Stmt, AllocError>
    ensures { IfOk result (λ s. s ≡ assign at (zip vars.now (map free own.now))) }
{
    let results = as_terms(alloc, own)?;
    Ok(Stmt::new(StmtForm::Assign(at, pairs(alloc, vars, results.as_slice())?)))
}
