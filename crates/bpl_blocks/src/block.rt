// Statements as blocks, in the order of the text.
ghost use Rattle.std.specs.Prelude.{◌≡◌, true, [], ◌∷◌, ◌++◌, IfOk, OnOk, option_map};
ghost use Rattle.logic_core.specs.Tree.{negation};
ghost use Rattle.bpl_model.specs.Module.{havoc, if_else, while};
ghost use Rattle.bpl_model.specs.StmtView.{stmts_of};
ghost use Rattle.bpl_blocks.specs.Blocks.{enter};
ghost use Rattle.bpl_blocks.specs.Drawn.{anywhere, ended, with_list, with_stmt};

use crate::clauses::push_assumed;
use crate::drawn::{Drawn, Setting};
use crate::scope::{Scope, Scopes};
use crate::size::list_size;
use crate::targets::loop_targets;
use bpl_model::copy_decls::copy_optional_formula;
use bpl_model::copy_stmts::{copy_assigned, copy_invariants};
use bpl_model::name::copy_names;
use bpl_model::number::sum;
use bpl_model::{Name, Stmt, StmtForm};
use flow_core::{Command, Invariant, LoopHead};
use logic_core::{Formula, Node, Sequence, Term};
use std::alloc::{AllocError, Global};

/// A statement behind these labels.
#[cycle(blocks)]
fn draw_stmt(
    alloc: Global,
    setting: &Setting,
    labels: &[Name],
    scopes: &mut Scopes,
    stmt: &Stmt,
    drawn: &mut Drawn,
) -> Result<(), AllocError>
    ensures drawn { OnOk result (drawn.new ≡ with_stmt setting.now scopes.old drawn.old labels.now stmt.now) }
    ensures scopes { OnOk result (scopes.new ≡ scopes.old) }
{
    match &stmt.form {
        StmtForm::Assert(mark, formula) => {
            drawn.add(Command::Assert(*mark, formula.copy(alloc)?))
        }
        StmtForm::Assume(_, formula) => drawn.add(Command::Assume(formula.copy(alloc)?)),
        StmtForm::Havoc(_, vars) => draw_havoc(alloc, setting, vars, drawn),
        StmtForm::Assign(_, pairs) => {
            let pairs = copy_assigned(alloc, pairs)?;
            drawn.add(Command::Assign(Sequence::of(pairs)))
        }
        StmtForm::Call(_, _, _, _) | StmtForm::Goto(_, _) => Ok(()),
        StmtForm::If(_, _, guard, first, second) => {
            draw_if(alloc, setting, labels, scopes, guard, first, second, drawn)
        }
        StmtForm::While(_, guard, invariants, body) => {
            draw_while(
                alloc, setting, labels, scopes, guard, invariants, body, drawn,
            )
        }
        StmtForm::Break(_, label) => drawn.end(alloc, one(alloc, scopes.behind_break(label))?),
        StmtForm::Return(_) => drawn.end(alloc, one(alloc, setting.last)?),
        StmtForm::Labelled(new, behind) => {
            let mut all = copy_names(alloc, new)?;
            let mut outer = copy_names(alloc, labels)?;
            all.append(&mut outer)?;
            draw_stmt(alloc, setting, all.as_slice(), scopes, behind, drawn)
        }
    }
}

// The variables get any values with which their clauses hold.
fn draw_havoc(
    alloc: Global,
    setting: &Setting,
    vars: &[u64],
    drawn: &mut Drawn,
) -> Result<(), AllocError>
    ensures { OnOk result (drawn.new ≡ with_stmt setting.now [] drawn.old [] (havoc anywhere vars.now)) }
{
    let numbers = Sequence::of(Vec::from_slice(alloc, vars)?);
    drawn.add(Command::Havoc(numbers))?;
    push_assumed(alloc, setting.clauses.as_slice(), vars, &mut drawn.commands)
}

// The first branch, the other branch, and the join block.
#[cycle(blocks)]
fn draw_if(
    alloc: Global,
    setting: &Setting,
    labels: &[Name],
    scopes: &mut Scopes,
    guard: &Option<Formula>,
    first: &[Stmt],
    second: &[Stmt],
    drawn: &mut Drawn,
) -> Result<(), AllocError>
    ensures drawn { OnOk result (drawn.new ≡ with_stmt setting.now scopes.old drawn.old labels.now (if_else anywhere true guard.now (stmts_of first.now) (stmts_of second.now))) }
    ensures scopes { OnOk result (scopes.new ≡ scopes.old) }
{
    let one_more = sum(drawn.number(), 1)?;
    let other = sum(sum(one_more, list_size(first)?)?, 1)?;
    let join = sum(sum(other, list_size(second)?)?, 1)?;
    let labels = copy_names(alloc, labels)?;
    scopes.enter(Scope {
        labels,
        is_loop: false,
        behind: join,
    })?;
    drawn.end(alloc, two(alloc, one_more, other)?)?;
    let holds = copy_optional_formula(alloc, guard)?;
    draw_branch(alloc, setting, scopes, holds, first, join, drawn)?;
    let denied = negated(alloc, guard)?;
    draw_branch(alloc, setting, scopes, denied, second, join, drawn)?;
    scopes.leave();
    Ok(())
}

// The head, the body, the exit block, and the block behind the loop.
#[cycle(blocks)]
fn draw_while(
    alloc: Global,
    setting: &Setting,
    labels: &[Name],
    scopes: &mut Scopes,
    guard: &Option<Formula>,
    invariants: &[Invariant],
    body: &[Stmt],
    drawn: &mut Drawn,
) -> Result<(), AllocError>
    ensures drawn { OnOk result (drawn.new ≡ with_stmt setting.now scopes.old drawn.old labels.now (while anywhere guard.now invariants.now (stmts_of body.now))) }
    ensures scopes { OnOk result (scopes.new ≡ scopes.old) }
{
    let number = sum(drawn.number(), 1)?;
    let inside = sum(number, 1)?;
    let exit = sum(sum(inside, list_size(body)?)?, 1)?;
    let behind = sum(exit, 1)?;
    let head = LoopHead {
        invariants: Sequence::of(copy_invariants(alloc, invariants)?),
        targets: Sequence::of(loop_targets(alloc, setting.own, body)?),
    };
    let labels = copy_names(alloc, labels)?;
    scopes.enter(Scope {
        labels,
        is_loop: true,
        behind,
    })?;
    drawn.end(alloc, one(alloc, number)?)?;
    drawn.add_head(alloc, head, two(alloc, inside, exit)?)?;
    let holds = copy_optional_formula(alloc, guard)?;
    draw_branch(alloc, setting, scopes, holds, body, number, drawn)?;
    scopes.leave();
    let fails = negated(alloc, guard)?;
    draw_exit(alloc, fails, behind, drawn)
}

// What is assumed, the statements, and an edge at their end.
#[cycle(blocks)]
fn draw_branch(
    alloc: Global,
    setting: &Setting,
    scopes: &mut Scopes,
    assumed: Option<Formula>,
    stmts: &[Stmt],
    next: u64,
    drawn: &mut Drawn,
) -> Result<(), AllocError>
    ensures drawn { OnOk result (drawn.new ≡ ended (with_list setting.now scopes.old (record drawn.old { commands = drawn.old.commands ++ enter assumed }) (stmts_of stmts.now)) (next ∷ [])) }
    ensures scopes { OnOk result (scopes.new ≡ scopes.old) }
{
    assume(assumed, drawn)?;
    draw_list(alloc, setting, scopes, stmts, drawn)?;
    drawn.end(alloc, one(alloc, next)?)
}

// A block that assumes and has one edge.
fn draw_exit(
    alloc: Global,
    assumed: Option<Formula>,
    next: u64,
    drawn: &mut Drawn,
) -> Result<(), AllocError>
    ensures { OnOk result (drawn.new ≡ ended (record drawn.old { commands = drawn.old.commands ++ enter assumed }) (next ∷ [])) }
{
    assume(assumed, drawn)?;
    drawn.end(alloc, one(alloc, next)?)
}

fn assume(assumed: Option<Formula>, drawn: &mut Drawn) -> Result<(), AllocError>
    ensures { OnOk result (drawn.new ≡ record drawn.old { commands = drawn.old.commands ++ enter assumed }) }
{
    match assumed {
        None => Ok(()),
        Some(formula) => drawn.add(Command::Assume(formula)),
    }
}

/// Statements one after another.
#[cycle(blocks)]
pub fn draw_list(
    alloc: Global,
    setting: &Setting,
    scopes: &mut Scopes,
    stmts: &[Stmt],
    drawn: &mut Drawn,
) -> Result<(), AllocError>
    ensures drawn { OnOk result (drawn.new ≡ with_list setting.now scopes.old drawn.old (stmts_of stmts.now)) }
    ensures scopes { OnOk result (scopes.new ≡ scopes.old) }
{
    for stmt in stmts {
        draw_stmt(alloc, setting, &[], scopes, stmt, drawn)?;
    }
    Ok(())
}

// The guard's Not; the free choice has none.
fn negated(alloc: Global, guard: &Option<Formula>) -> Result<Option<Formula>, AllocError>
    ensures { IfOk result (λ o. o ≡ option_map negation guard.now) }
{
    match guard {
        None => Ok(None),
        Some(formula) => {
            let boxed = Box::new(alloc, formula.copy(alloc)?)?;
            Ok(Some(Term::new(Node::Not(boxed))))
        }
    }
}

fn one(alloc: Global, number: u64) -> Result<Vec<u64>, AllocError>
    ensures { IfOk result (λ v. v.items ≡ number ∷ []) }
{
    Vec::from_slice(alloc, &[number])
}

fn two(alloc: Global, first: u64, second: u64) -> Result<Vec<u64>, AllocError>
    ensures { IfOk result (λ v. v.items ≡ first ∷ second ∷ []) }
{
    Vec::from_slice(alloc, &[first, second])
}
