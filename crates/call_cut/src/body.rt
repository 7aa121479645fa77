// Bodies without calls.
ghost use Rattle.std.specs.Prelude.{◌≡◌, ◌++◌, ◌+◌, IfOk, OnOk, length, slice_get, option_map};
ghost use Rattle.std.specs.List.{AllByRecursion};
ghost use Rattle.bpl_model.specs.Typed.{IsTypedProc};
ghost use Rattle.bpl_model.specs.StmtView.{body_of, stmts_of};
ghost use Rattle.call_cut.specs.Table.{between_calls};
ghost use Rattle.bpl_model.specs.Cut.{cut_call, one, with_labels, cut_stmt, cut_list, cut_body};

use crate::call::{CallVariables, replaced};
use bpl_model::copy_decls::copy_optional_formula;
use bpl_model::copy_stmts::copy_invariants;
use bpl_model::name::copy_names;
use bpl_model::number::sum;
use bpl_model::{Name, Parts, Place, Proc, Stmt, StmtForm};
use logic_core::Term;
use std::alloc::{AllocError, Global};

// What stands for a call of the procedure of this number; the variables that calls own begin at
// number `first`, and it takes the next of them.
fn cut_call(
    alloc: Global,
    parts: &Parts,
    first: u64,
    at: Place,
    callee: u64,
    arguments: &[Term],
    vars: &[u64],
    variables: &mut CallVariables,
) -> Result<Vec<Stmt>, AllocError>
    requires typed { AllByRecursion (IsTypedProc parts.now) parts.now.procs }
    requires between { variables.old.table.items ≡ between_calls parts.now }
    ensures stmts { IfOk result (λ v. stmts_of v.items ≡ (cut_call parts.now (first + length variables.old.own.items) at (slice_get parts.now.procs callee) arguments.now vars.now).0) }
    ensures own { OnOk result (variables.new.own.items ≡ variables.old.own.items ++ (cut_call parts.now (first + length variables.old.own.items) at (slice_get parts.now.procs callee) arguments.now vars.now).1) }
    ensures between { OnOk result (variables.new.table.items ≡ between_calls parts.now) }
{
    let n = sum(first, variables.own.len() as u64)?;
    match proc_at(parts, callee) {
        None => Ok(Vec::new(alloc)),
        Some(callee) => replaced(alloc, parts, n, at, callee, arguments, vars, variables),
    }
}

fn proc_at(parts: &Parts, number: u64) -> Option<&Proc>
    ensures { option_map (λ p. p.now) result ≡ slice_get parts.now.procs number }
{
    parts.procs.get(number as usize)
}

// Labels stay on a statement that is still one.
fn with_labels(
    alloc: Global,
    labels: &[Name],
    mut stmts: Vec<Stmt>,
) -> Result<Vec<Stmt>, AllocError>
    ensures { IfOk result (λ v. stmts_of v.items ≡ with_labels labels.now (stmts_of stmts.items)) }
{
    if stmts.as_slice().len() != 1 {
        return Ok(stmts);
    }
    let Some(stmt) = stmts.pop() else {
        return Ok(stmts);
    };
    let labels = copy_names(alloc, labels)?;
    stmts.push(Stmt::new(StmtForm::Labelled(labels, Box::new(alloc, stmt)?)))?;
    Ok(stmts)
}

fn one(alloc: Global, stmt: Stmt) -> Result<Vec<Stmt>, AllocError>
    ensures { IfOk result (λ v. stmts_of v.items ≡ one stmt) }
{
    let mut stmts = Vec::new(alloc);
    stmts.push(stmt)?;
    Ok(stmts)
}

// The statement as it stands.
fn copied(alloc: Global, stmt: &Stmt) -> Result<Vec<Stmt>, AllocError>
    ensures { IfOk result (λ v. stmts_of v.items ≡ one stmt.now) }
{
    one(alloc, stmt.copy(alloc)?)
}

// What stands for a statement. Its calls take the next of the variables that calls own, which begin
// at number `first`.
#[cycle(cut)]
fn cut_stmt(
    alloc: Global,
    parts: &Parts,
    first: u64,
    stmt: &Stmt,
    variables: &mut CallVariables,
) -> Result<Vec<Stmt>, AllocError>
    requires typed { AllByRecursion (IsTypedProc parts.now) parts.now.procs }
    requires between { variables.old.table.items ≡ between_calls parts.now }
    ensures stmts { IfOk result (λ v. stmts_of v.items ≡ (cut_stmt parts.now (first + length variables.old.own.items) stmt.now).0) }
    ensures own { OnOk result (variables.new.own.items ≡ variables.old.own.items ++ (cut_stmt parts.now (first + length variables.old.own.items) stmt.now).1) }
    ensures between { OnOk result (variables.new.table.items ≡ between_calls parts.now) }
{
    match &stmt.form {
        StmtForm::Call(at, callee, arguments, vars) => {
            cut_call(
                alloc, parts, first, *at, *callee, arguments, vars, variables,
            )
        }
        StmtForm::If(at, has_else, guard, ifs, elses) => {
            let guard = copy_optional_formula(alloc, guard)?;
            let ifs = cut_list(alloc, parts, first, ifs, variables)?;
            let elses = cut_list(alloc, parts, first, elses, variables)?;
            one(
                alloc,
                Stmt::new(StmtForm::If(*at, *has_else, guard, ifs, elses)),
            )
        }
        StmtForm::While(at, guard, invariants, body) => {
            let guard = copy_optional_formula(alloc, guard)?;
            let invariants = copy_invariants(alloc, invariants)?;
            let body = cut_list(alloc, parts, first, body, variables)?;
            one(
                alloc,
                Stmt::new(StmtForm::While(*at, guard, invariants, body)),
            )
        }
        StmtForm::Labelled(labels, behind) => {
            let cut = cut_stmt(alloc, parts, first, behind, variables)?;
            with_labels(alloc, labels, cut)
        }
        _ => copied(alloc, stmt),
    }
}

#[cycle(cut)]
fn cut_list(
    alloc: Global,
    parts: &Parts,
    first: u64,
    stmts: &[Stmt],
    variables: &mut CallVariables,
) -> Result<Vec<Stmt>, AllocError>
    requires typed { AllByRecursion (IsTypedProc parts.now) parts.now.procs }
    requires between { variables.old.table.items ≡ between_calls parts.now }
    ensures stmts { IfOk result (λ v. stmts_of v.items ≡ (cut_list parts.now (first + length variables.old.own.items) (stmts_of stmts.now)).0) }
    ensures own { OnOk result (variables.new.own.items ≡ variables.old.own.items ++ (cut_list parts.now (first + length variables.old.own.items) (stmts_of stmts.now)).1) }
    ensures between { OnOk result (variables.new.table.items ≡ between_calls parts.now) }
{
    let mut cuts = Vec::new(alloc);
    for stmt in stmts {
        let mut cut = cut_stmt(alloc, parts, first, stmt, variables)?;
        cuts.append(&mut cut)?;
    }
    Ok(cuts)
}

/// The body without calls, and after the variables before those that its calls own, which begin at
/// number `first`.
pub fn cut_body(
    alloc: Global,
    parts: &Parts,
    first: u64,
    body: &Option<Vec<Stmt>>,
    variables: &mut CallVariables,
) -> Result<Option<Vec<Stmt>>, AllocError>
    requires typed { AllByRecursion (IsTypedProc parts.now) parts.now.procs }
    requires between { variables.old.table.items ≡ between_calls parts.now }
    ensures body { IfOk result (λ b. body_of b ≡ (cut_body parts.now (first + length variables.old.own.items) (body_of body.now)).0) }
    ensures own { OnOk result (variables.new.own.items ≡ variables.old.own.items ++ (cut_body parts.now (first + length variables.old.own.items) (body_of body.now)).1) }
    ensures between { OnOk result (variables.new.table.items ≡ between_calls parts.now) }
{
    match body {
        None => Ok(None),
        Some(stmts) => Ok(Some(cut_list(alloc, parts, first, stmts, variables)?)),
    }
}
