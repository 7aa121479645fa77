// The parts of statements' lines.
ghost use Rattle.std.specs.Prelude.{◌≡◌, [], ◌∷◌, ◌++◌, map, OnOk};
ghost use Rattle.bpl_ast.specs.StmtView.{stmts_of, branches_of, last_of};
ghost use Rattle.bpl_dependencies.specs.AppliedView.{variables_seen};
ghost use Rattle.bpl_texts.specs.Uses.{stmt_uses, guard_uses};
ghost use Rattle.stmt_checksum.specs.Parts.{naming, braced_parts, invariant_part, statement_parts, chain_parts, others_parts, statements_parts};

use crate::parts::Parts;
use bpl_ast::{Branch, Expr, Invariant, Place, Stmt, StmtForm};
use bpl_dependencies::Variables;
use bpl_texts::line_uses::{guard_uses, invariant_uses, stmt_uses};
use std::alloc::AllocError;

// The part of an invariant.
fn push_invariant<'a>(
    parts: &mut Parts<'a>,
    variables: &Variables<'_, 'a>,
    invariant: &'a Invariant,
) -> Result<(), AllocError>
    ensures { OnOk result (parts.new ≡ parts.old ++ invariant_part (variables_seen variables.now) invariant.now ∷ []) }
{
    let uses = invariant_uses(parts.alloc(), variables, invariant)?;
    parts.push(uses, Some(invariant.at))
}

// The parts of invariants.
fn push_invariants<'a>(
    parts: &mut Parts<'a>,
    variables: &Variables<'_, 'a>,
    list: &'a [Invariant],
) -> Result<(), AllocError>
    ensures { OnOk result (parts.new ≡ parts.old ++ map (invariant_part (variables_seen variables.now)) list.now) }
{
    let mut rest = list;
    while let Some((invariant, tail)) = rest.split_first() {
        push_invariant(parts, variables, invariant)?;
        rest = tail;
    }
    Ok(())
}

// The part of a guard.
fn push_guard<'a>(
    parts: &mut Parts<'a>,
    variables: &Variables<'_, 'a>,
    guard: &'a Option<Expr>,
) -> Result<(), AllocError>
    ensures { OnOk result (parts.new ≡ parts.old ++ naming (guard_uses (variables_seen variables.now) guard.now) ∷ []) }
{
    let uses = guard_uses(parts.alloc(), variables, guard)?;
    parts.push(uses, None)
}

// The part of a statement of one line.
fn push_simple<'a>(
    parts: &mut Parts<'a>,
    variables: &Variables<'_, 'a>,
    stmt: &'a Stmt,
    place: Option<Place>,
) -> Result<(), AllocError>
    ensures { OnOk result (parts.new ≡ parts.old ++ record { uses = stmt_uses (variables_seen variables.now) stmt.now; place = place } ∷ []) }
{
    let uses = stmt_uses(parts.alloc(), variables, stmt)?;
    parts.push(uses, place)
}

// The head of a loop, and its invariants.
fn push_loop<'a>(
    parts: &mut Parts<'a>,
    variables: &Variables<'_, 'a>,
    guard: &'a Option<Expr>,
    invariants: &'a [Invariant],
) -> Result<(), AllocError>
    ensures { OnOk result (parts.new ≡ parts.old ++ naming (guard_uses (variables_seen variables.now) guard.now) ∷ map (invariant_part (variables_seen variables.now)) invariants.now) }
{
    push_guard(parts, variables, guard)?;
    push_invariants(parts, variables, invariants)
}

// The parts of a statement.
#[cycle(push_stmt)]
fn push_stmt<'a>(
    parts: &mut Parts<'a>,
    variables: &Variables<'_, 'a>,
    stmt: &'a Stmt,
) -> Result<(), AllocError>
    ensures { OnOk result (parts.new ≡ parts.old ++ statement_parts (variables_seen variables.now) stmt.now) }
{
    match &stmt.form {
        StmtForm::Assert(_) => push_simple(parts, variables, stmt, Some(stmt.at)),
        StmtForm::Call(_, _, _) => push_simple(parts, variables, stmt, Some(stmt.at)),
        StmtForm::If(branches, last) => push_chain(parts, variables, branches, last),
        StmtForm::While(guard, invariants, body) => {
            push_loop(parts, variables, guard, invariants)?;
            push_block(parts, variables, body)
        }
        StmtForm::Assume(_) => push_simple(parts, variables, stmt, None),
        StmtForm::Havoc(_) => push_simple(parts, variables, stmt, None),
        StmtForm::Assign(_, _) => push_simple(parts, variables, stmt, None),
        StmtForm::Break(_) => parts.bare(),
        StmtForm::Return => parts.bare(),
        StmtForm::Goto(_) => parts.bare(),
    }
}

// The parts of an `if`.
#[cycle(push_stmt)]
#[tactic(auto, using(crate::proofs::NoBranch::no_chain_parts))]
fn push_chain<'a>(
    parts: &mut Parts<'a>,
    variables: &Variables<'_, 'a>,
    branches: &'a [Branch],
    last: &'a Option<Vec<Stmt>>,
) -> Result<(), AllocError>
    ensures { OnOk result (parts.new ≡ parts.old ++ chain_parts (variables_seen variables.now) (branches_of branches.now (last_of last.now))) }
{
    match branches.split_first() {
        Some((branch, tail)) => {
            push_if(parts, variables, branch)?;
            push_others(parts, variables, tail, last)
        }
        None => Ok(()),
    }
}

// The parts of the branches behind the first, each with its `else`.
#[cycle(push_stmt)]
fn push_others<'a>(
    parts: &mut Parts<'a>,
    variables: &Variables<'_, 'a>,
    branches: &'a [Branch],
    last: &'a Option<Vec<Stmt>>,
) -> Result<(), AllocError>
    ensures { OnOk result (parts.new ≡ parts.old ++ others_parts (variables_seen variables.now) (branches_of branches.now (last_of last.now))) }
{
    let mut rest = branches;
    while let Some((branch, tail)) = rest.split_first() {
        parts.bare()?;
        push_if(parts, variables, branch)?;
        rest = tail;
    }
    push_last(parts, variables, last)
}

// The parts of a branch without its `else`.
#[cycle(push_stmt)]
fn push_if<'a>(
    parts: &mut Parts<'a>,
    variables: &Variables<'_, 'a>,
    branch: &'a Branch,
) -> Result<(), AllocError>
    ensures { OnOk result (parts.new ≡ parts.old ++ naming (guard_uses (variables_seen variables.now) branch.now.guard) ∷ braced_parts (statements_parts (variables_seen variables.now) (stmts_of branch.now.body.items))) }
{
    push_guard(parts, variables, &branch.guard)?;
    push_block(parts, variables, &branch.body)
}

// The parts of the last `else`, if there is one.
#[cycle(push_stmt)]
fn push_last<'a>(
    parts: &mut Parts<'a>,
    variables: &Variables<'_, 'a>,
    last: &'a Option<Vec<Stmt>>,
) -> Result<(), AllocError>
    ensures { OnOk result (parts.new ≡ parts.old ++ others_parts (variables_seen variables.now) (last_of last.now)) }
{
    match last {
        Some(body) => {
            parts.bare()?;
            push_block(parts, variables, body)
        }
        None => Ok(()),
    }
}

// The parts of a block.
#[cycle(push_stmt)]
fn push_block<'a>(
    parts: &mut Parts<'a>,
    variables: &Variables<'_, 'a>,
    body: &'a [Stmt],
) -> Result<(), AllocError>
    ensures { OnOk result (parts.new ≡ parts.old ++ braced_parts (statements_parts (variables_seen variables.now) (stmts_of body.now))) }
{
    parts.bare()?;
    push_stmts(parts, variables, body)?;
    parts.bare()
}

/// The parts of statements.
#[cycle(push_stmt)]
pub fn push_stmts<'a>(
    parts: &mut Parts<'a>,
    variables: &Variables<'_, 'a>,
    list: &'a [Stmt],
) -> Result<(), AllocError>
    ensures { OnOk result (parts.new ≡ parts.old ++ statements_parts (variables_seen variables.now) (stmts_of list.now)) }
{
    let mut rest = list;
    while let Some((stmt, tail)) = rest.split_first() {
        push_stmt(parts, variables, stmt)?;
        rest = tail;
    }
    Ok(())
}
