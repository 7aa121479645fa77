// A point put into statements.
ghost use Rattle.std.specs.Prelude.{◌≡◌, ◌-◌, Some, IfOk, OnOk, cond, option_map};
ghost use Rattle.bpl_model.specs.StmtView.{stmts_of, body_of};
ghost use Rattle.smoke_report.specs.Put.{count_in, count_within, ended, ended_if, put_in, put_within, put_list, proc_with, proc_with_point};

use crate::point::Point;
use crate::proc_points::{of_number, points};
use bpl_model::copy_decls::{copy_locals, copy_optional_formula, copy_specs};
use bpl_model::copy_stmts::copy_invariants;
use bpl_model::name::copy_names;
use bpl_model::{Mark, Proc, Stmt, StmtForm};
use logic_core::{Node, Term};
use std::alloc::{AllocError, Global};

// What is false is asserted at the list's end where that is the next point, which is then behind.
#[tactic(auto, using(crate::proofs::Lists::one_more, crate::proofs::Steps::ended_here, crate::proofs::Steps::ended_elsewhere))]
fn end(mark: Mark, left: &mut u64, list: &mut Vec<Stmt>) -> Result<(), AllocError>
    ensures list { OnOk result (stmts_of list.new.items ≡ ended mark left.old (stmts_of list.old.items)) }
    ensures left { OnOk result (left.new ≡ left.old - 1) }
{
    let number = *left;
    *left = number.saturating_sub(1);
    if number != 1 {
        return Ok(());
    }
    let never = Term::new(Node::Truth(false));
    list.push(Stmt::new(StmtForm::Assert(mark, never)))?;
    Ok(())
}

// The statement with the point, where it is in there; so many points are left up to it.
#[cycle(put)]
#[tactic(auto, using(crate::proofs::Counts::count_if, crate::proofs::Counts::count_while))]
fn put_in(alloc: Global, mark: Mark, left: &mut u64, stmt: &Stmt) -> Result<Stmt, AllocError>
    ensures put { IfOk result (λ s. s ≡ put_in mark left.old stmt.now) }
    ensures left { OnOk result (left.new ≡ left.old - count_in stmt.now) }
{
    match &stmt.form {
        StmtForm::If(at, has_else, guard, first, second) => {
            let guard = copy_optional_formula(alloc, guard)?;
            let first = put_list(alloc, mark, left, first)?;
            let second = put_beside(alloc, mark, left, *has_else, second)?;
            Ok(Stmt::new(StmtForm::If(*at, *has_else, guard, first, second)))
        }
        StmtForm::While(at, guard, invariants, body) => {
            let guard = copy_optional_formula(alloc, guard)?;
            let invariants = copy_invariants(alloc, invariants)?;
            let body = put_list(alloc, mark, left, body)?;
            Ok(Stmt::new(StmtForm::While(*at, guard, invariants, body)))
        }
        StmtForm::Labelled(labels, behind) => {
            let labels = copy_names(alloc, labels)?;
            let behind = Box::new(alloc, put_in(alloc, mark, left, behind)?)?;
            Ok(Stmt::new(StmtForm::Labelled(labels, behind)))
        }
        _ => stmt.copy(alloc),
    }
}

// The statements with the point, where it is in one of them.
#[cycle(put)]
#[tactic(auto, using(crate::proofs::Lists::append_none))]
fn put_within(
    alloc: Global,
    mark: Mark,
    left: &mut u64,
    stmts: &[Stmt],
) -> Result<Vec<Stmt>, AllocError>
    ensures put { IfOk result (λ v. stmts_of v.items ≡ put_within mark left.old (stmts_of stmts.now)) }
    ensures left { OnOk result (left.new ≡ left.old - count_within (stmts_of stmts.now)) }
{
    let mut put = Vec::new(alloc);
    for stmt in stmts {
        put.push(put_in(alloc, mark, left, stmt)?)?;
    }
    Ok(put)
}

// The list, whose end is a point too.
#[cycle(put)]
fn put_list(
    alloc: Global,
    mark: Mark,
    left: &mut u64,
    stmts: &[Stmt],
) -> Result<Vec<Stmt>, AllocError>
    ensures put { IfOk result (λ v. stmts_of v.items ≡ put_list mark left.old (stmts_of stmts.now)) }
    ensures left { OnOk result (left.new ≡ left.old - count_within (stmts_of stmts.now) - 1) }
{
    let mut put = put_within(alloc, mark, left, stmts)?;
    end(mark, left, &mut put)?;
    Ok(put)
}

// The other branch of an `if`, whose end is a point too where it is an `else` list.
#[cycle(put)]
fn put_beside(
    alloc: Global,
    mark: Mark,
    left: &mut u64,
    has_else: bool,
    stmts: &[Stmt],
) -> Result<Vec<Stmt>, AllocError>
    ensures put { IfOk result (λ v. stmts_of v.items ≡ ended_if mark has_else (left.old - count_within (stmts_of stmts.now)) (put_within mark left.old (stmts_of stmts.now))) }
    ensures left { OnOk result (left.new ≡ left.old - count_within (stmts_of stmts.now) - cond has_else 1 0) }
{
    if has_else {
        put_list(alloc, mark, left, stmts)
    } else {
        put_within(alloc, mark, left, stmts)
    }
}

fn put_body(
    alloc: Global,
    mark: Mark,
    n: u64,
    body: &Option<Vec<Stmt>>,
) -> Result<Option<Vec<Stmt>>, AllocError>
    ensures { IfOk result (λ b. body_of b ≡ option_map (put_list mark n) (body_of body.now)) }
{
    let mut left = n;
    match body {
        Some(stmts) => Ok(Some(put_list(alloc, mark, &mut left, stmts)?)),
        None => Ok(None),
    }
}

// The procedure with this point, of this number.
fn proc_with(alloc: Global, proc: &Proc, n: u64, point: &Point) -> Result<Proc, AllocError>
    ensures { IfOk result (λ p. p ≡ proc_with proc.now n (Some point.now)) }
{
    Ok(Proc {
        name: proc.name.copy(alloc)?,
        ins: copy_locals(alloc, &proc.ins)?,
        outs: copy_locals(alloc, &proc.outs)?,
        locals: copy_locals(alloc, &proc.locals)?,
        specs: copy_specs(alloc, &proc.specs)?,
        body: put_body(alloc, point.mark, n, &proc.body)?,
    })
}

/// The procedure with its point of this number, if it has one: at the end of that list what is false is
/// asserted, with the point's mark.
pub fn proc_with_point(alloc: Global, proc: &Proc, n: u64) -> Result<Proc, AllocError>
    ensures { IfOk result (λ p. p ≡ proc_with_point proc.now n) }
{
    match of_number(&points(alloc, proc)?, n) {
        Some(point) => proc_with(alloc, proc, n, &point),
        None => proc.copy(alloc),
    }
}
