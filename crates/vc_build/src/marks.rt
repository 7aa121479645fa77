// The marks of statements and procedures.
ghost use Rattle.std.specs.Prelude.{◌≡◌, ◌++◌, IfOk, OnOk, map, option_map, slice_get};
ghost use Rattle.bpl_model.specs.StmtView.{stmts_of};
ghost use Rattle.vc_build.specs.Goals.{goals_by_passes};
ghost use Rattle.vc_build.specs.Marks.{call_marks, list_marks, proc_marks, stmt_marks};

use crate::clauses::{push_ensured, push_invariants, push_required};
use crate::mark_laws::goals_have_their_marks;
use bpl_model::{GoalKind, Mark, Parts, Place, Proc, Stmt, StmtForm};
use std::alloc::{AllocError, Global};

// The procedure of this number, if there is one.
fn procedure_at(parts: &Parts, p: usize) -> Option<&Proc>
    ensures { option_map (λ q. q.now) result ≡ slice_get parts.now.procs p }
{
    parts.procs.get(p)
}

// Those of a call at this place come behind; where no procedure has the number there are none.
fn push_call(parts: &Parts, marks: &mut Vec<Mark>, at: Place, callee: u64) -> Result<(), AllocError>
    ensures { OnOk result (marks.new.items ≡ marks.old.items ++ call_marks parts.now at callee) }
{
    match procedure_at(parts, callee as usize) {
        Some(procedure) => push_required(marks, at, &procedure.specs),
        None => Ok(()),
    }
}

// Those of the statement come behind.
#[cycle(marks)]
fn push_stmt(parts: &Parts, marks: &mut Vec<Mark>, stmt: &Stmt) -> Result<(), AllocError>
    ensures { OnOk result (marks.new.items ≡ marks.old.items ++ stmt_marks (call_marks parts.now) stmt.now) }
{
    match &stmt.form {
        StmtForm::Assert(mark, _) => {
            marks.push(*mark)?;
            Ok(())
        }
        StmtForm::Call(at, callee, _, _) => push_call(parts, marks, *at, *callee),
        StmtForm::If(_, _, _, first, second) => {
            push_stmts(parts, marks, first)?;
            push_stmts(parts, marks, second)
        }
        StmtForm::While(_, _, invariants, body) => {
            push_invariants(marks, GoalKind::InvariantEntry, invariants)?;
            push_stmts(parts, marks, body)?;
            push_invariants(marks, GoalKind::InvariantKept, invariants)
        }
        StmtForm::Labelled(_, behind) => push_stmt(parts, marks, behind),
        _ => Ok(()),
    }
}

// Those of the statements come behind.
#[cycle(marks)]
fn push_stmts(parts: &Parts, marks: &mut Vec<Mark>, stmts: &[Stmt]) -> Result<(), AllocError>
    ensures { OnOk result (marks.new.items ≡ marks.old.items ++ list_marks (call_marks parts.now) (stmts_of stmts.now)) }
{
    for stmt in stmts {
        push_stmt(parts, marks, stmt)?;
    }
    Ok(())
}

// By the text.
fn marks_in_text(alloc: Global, parts: &Parts, proc: &Proc) -> Result<Vec<Mark>, AllocError>
    ensures { IfOk result (λ v. v.items ≡ proc_marks parts.now proc.now) }
{
    let mut marks = Vec::new(alloc);
    if let Some(body) = &proc.body {
        push_stmts(parts, &mut marks, body)?;
        push_ensured(&mut marks, &proc.specs)?;
    }
    Ok(marks)
}

/// The marks of the procedure's goals, in their order. The time is that of one walk over its body, and
/// over the contracts of the procedures that it calls.
pub fn marks_of(alloc: Global, parts: &Parts, proc: &Proc) -> Result<Vec<Mark>, AllocError>
    ensures { IfOk result (λ v. v.items ≡ map (λ g. g.mark) (goals_by_passes parts.now proc.now)) }
{
    goals_have_their_marks();
    let marks = marks_in_text(alloc, parts, proc)?;
    Ok(marks)
}
