// Statements with their terms: an `else if` is the only statement of the other branch.
ghost use Rattle.std.specs.Prelude.{◌≡◌, option_map, IfOk};
ghost use Rattle.bpl_ast.specs.ExprView.{exprs_of};
ghost use Rattle.bpl_ast.specs.Place.{Name as NameTree};
ghost use Rattle.bpl_ast.specs.Statement.{assert, assume, call};
ghost use Rattle.bpl_ast.specs.StmtView.{action_of as action_tree, stmts_of as stmts_tree, branches_of, last_of};
ghost use Rattle.bpl_scopes.specs.Functions.{in_number_order};
ghost use Rattle.bpl_scopes.specs.TableView.{entity_seen};
ghost use Rattle.bpl_faults.specs.ScopeView.{scope_seen};
ghost use Rattle.bpl_model.specs.StmtView.{stmts_of as module_stmts};
ghost use Rattle.bpl_model.specs.Module.{«break», if_else, while};
ghost use Rattle.bpl_resolve.specs.Elaborate.{labelled_as, procedure_number, guard_of, invariants_of, is_else, stmts_of, stmt_of, action_of, chain_of, others_of};

use crate::names::{name_of, names_of};
use crate::targets::{assignments, guard_of, invariants_of, target_numbers};
use bpl_ast::{Branch, Expr, Invariant, Name, Stmt, StmtForm};
use bpl_faults::Scope;
use bpl_model::{Stmt as Typed, StmtForm as TypedForm};
use bpl_scopes::{Entity, Positions};
use bpl_terms::{term_of, terms_in};
use bv_base::place::Place;
use flow_core::{GoalKind, Mark};
use logic_core::{Node, Term};
use std::alloc::{AllocError, Global};

// The number of a procedure, or 0.
fn procedure_number(entity: Option<Entity>) -> u64
    ensures { result ≡ procedure_number (option_map entity_seen entity.entry) }
{
    match entity {
        Some(
            Entity::Procedure {
                number,
                signature: _,
                specs: _,
            },
        ) => number,
        Some(Entity::Constant { number: _, of: _ }) => 0,
        Some(Entity::Global { number: _, of: _ }) => 0,
        Some(
            Entity::Function {
                ins: _,
                of: _,
                value: _,
            },
        ) => 0,
        Some(Entity::Synonym { of: _ }) => 0,
        None => 0,
    }
}

// A statement behind its labels.
fn labelled_as(alloc: Global, labels: &[Name], stmt: Typed) -> Result<Typed, AllocError>
    ensures { IfOk result (λ s. s ≡ labelled_as labels.now stmt) }
{
    if labels.is_empty() {
        return Ok(stmt);
    }
    let labels = names_of(alloc, labels)?;
    Ok(Typed::new(TypedForm::Labelled(labels, Box::new(alloc, stmt)?)))
}

fn assert_of<'a>(
    alloc: Global,
    scope: &Scope<'_, 'a>,
    order: &Positions,
    at: Place,
    formula: &'a Expr,
) -> Result<Typed, AllocError>
    requires { order.now ≡ in_number_order (scope_seen scope.now).table }
    ensures { IfOk result (λ s. s ≡ action_of (scope_seen scope.now) at (assert formula.now)) }
{
    let mark = Mark {
        place: at,
        kind: GoalKind::Assert,
    };
    let formula = term_of(alloc, scope, order, formula)?;
    Ok(Typed::new(TypedForm::Assert(mark, formula)))
}

fn assume_of<'a>(
    alloc: Global,
    scope: &Scope<'_, 'a>,
    order: &Positions,
    at: Place,
    formula: &'a Expr,
) -> Result<Typed, AllocError>
    requires { order.now ≡ in_number_order (scope_seen scope.now).table }
    ensures { IfOk result (λ s. s ≡ action_of (scope_seen scope.now) at (assume formula.now)) }
{
    let formula = term_of(alloc, scope, order, formula)?;
    Ok(Typed::new(TypedForm::Assume(at, formula)))
}

fn break_of(alloc: Global, at: Place, label: &Option<Name>) -> Result<Typed, AllocError>
    ensures { IfOk result (λ s. s ≡ «break» at (option_map (λ (n : NameTree). n.text) label.now)) }
{
    match label {
        None => Ok(Typed::new(TypedForm::Break(at, None))),
        Some(label) => {
            let label = name_of(alloc, label)?;
            Ok(Typed::new(TypedForm::Break(at, Some(label))))
        }
    }
}

#[tactic(auto, using(crate::proofs::StmtLists::arguments_are))]
fn call_of<'a>(
    alloc: Global,
    scope: &Scope<'_, 'a>,
    order: &Positions,
    at: Place,
    targets: &[Name],
    callee: &Name,
    arguments: &'a [Expr],
) -> Result<Typed, AllocError>
    requires { order.now ≡ in_number_order (scope_seen scope.now).table }
    ensures { IfOk result (λ s. s ≡ action_of (scope_seen scope.now) at (call targets.now callee.now (exprs_of arguments.now))) }
{
    let number = procedure_number(scope.types().table().entity(callee.text.as_bytes()));
    let arguments = terms_in(alloc, scope, order, false, arguments)?;
    let targets = target_numbers(alloc, scope, targets)?;
    Ok(Typed::new(TypedForm::Call(at, number, arguments, targets)))
}

// A loop with this body.
fn while_of<'a>(
    alloc: Global,
    scope: &Scope<'_, 'a>,
    order: &Positions,
    at: Place,
    guard: &'a Option<Expr>,
    invariants: &'a [Invariant],
    body: Vec<Typed>,
) -> Result<Typed, AllocError>
    requires { order.now ≡ in_number_order (scope_seen scope.now).table }
    ensures { IfOk result (λ s. s ≡ while at (guard_of (scope_seen scope.now) guard.now) (invariants_of (scope_seen scope.now) invariants.now) (module_stmts body.items)) }
{
    let guard = guard_of(alloc, scope, order, guard)?;
    let invariants = invariants_of(alloc, scope, order, invariants)?;
    Ok(Typed::new(TypedForm::While(at, guard, invariants, body)))
}

/// Statements with their terms.
#[cycle(stmts)]
#[tactic(auto, using(crate::proofs::StmtLists::stmts_are))]
pub(crate) fn stmts_of<'a>(
    alloc: Global,
    scope: &Scope<'_, 'a>,
    order: &Positions,
    stmts: &'a [Stmt],
) -> Result<Vec<Typed>, AllocError>
    requires { order.now ≡ in_number_order (scope_seen scope.now).table }
    ensures { IfOk result (λ v. module_stmts v.items ≡ stmts_of (scope_seen scope.now) (stmts_tree stmts.now)) }
{
    let mut found = Vec::new(alloc);
    for stmt in stmts {
        found.push(stmt_of(alloc, scope, order, stmt)?)?;
    }
    Ok(found)
}

#[cycle(stmts)]
fn stmt_of<'a>(
    alloc: Global,
    scope: &Scope<'_, 'a>,
    order: &Positions,
    stmt: &'a Stmt,
) -> Result<Typed, AllocError>
    requires { order.now ≡ in_number_order (scope_seen scope.now).table }
    ensures { IfOk result (λ s. s ≡ stmt_of (scope_seen scope.now) stmt.now) }
{
    let action = action_of(alloc, scope, order, stmt.at, &stmt.form)?;
    labelled_as(alloc, &stmt.labels, action)
}

#[cycle(stmts)]
fn action_of<'a>(
    alloc: Global,
    scope: &Scope<'_, 'a>,
    order: &Positions,
    at: Place,
    form: &'a StmtForm,
) -> Result<Typed, AllocError>
    requires { order.now ≡ in_number_order (scope_seen scope.now).table }
    ensures { IfOk result (λ s. s ≡ action_of (scope_seen scope.now) at (action_tree form.now)) }
{
    match form {
        StmtForm::Assert(formula) => assert_of(alloc, scope, order, at, formula),
        StmtForm::Assume(formula) => assume_of(alloc, scope, order, at, formula),
        StmtForm::Havoc(names) => {
            let targets = target_numbers(alloc, scope, names)?;
            Ok(Typed::new(TypedForm::Havoc(at, targets)))
        }
        StmtForm::Assign(targets, values) => {
            let pairs = assignments(alloc, scope, order, targets, values)?;
            Ok(Typed::new(TypedForm::Assign(at, pairs)))
        }
        StmtForm::Call(targets, callee, arguments) => {
            call_of(alloc, scope, order, at, targets, callee, arguments)
        }
        StmtForm::If(branches, last) => chain_of(alloc, scope, order, at, branches, last),
        StmtForm::While(guard, invariants, body) => {
            let body = stmts_of(alloc, scope, order, body)?;
            while_of(alloc, scope, order, at, guard, invariants, body)
        }
        StmtForm::Break(label) => break_of(alloc, at, label),
        StmtForm::Return => Ok(Typed::new(TypedForm::Return(at))),
        StmtForm::Goto(labels) => {
            let labels = names_of(alloc, labels)?;
            Ok(Typed::new(TypedForm::Goto(at, labels)))
        }
    }
}

// Whether an else list goes on behind a branch, and not another branch, or nothing.
fn is_else(branches: &[Branch], last: &Option<Vec<Stmt>>) -> bool
    ensures { result ≡ is_else (branches_of branches.now (last_of last.now)) }
{
    match branches.split_first() {
        Some(_) => false,
        None => matches!(last, Some(_)),
    }
}

// A chain of branches; where there is none, the last block, behind a guard that is false.
#[cycle(stmts)]
fn chain_of<'a>(
    alloc: Global,
    scope: &Scope<'_, 'a>,
    order: &Positions,
    at: Place,
    branches: &'a [Branch],
    last: &'a Option<Vec<Stmt>>,
) -> Result<Typed, AllocError>
    requires { order.now ≡ in_number_order (scope_seen scope.now).table }
    ensures { IfOk result (λ s. s ≡ chain_of (scope_seen scope.now) at (branches_of branches.now (last_of last.now))) }
{
    match branches.split_first() {
        Some((first, others)) => {
            let has_else = is_else(others, last);
            let others = others_of(alloc, scope, order, others, last)?;
            branch_of(alloc, scope, order, first, has_else, others)
        }
        None => {
            let has_else = is_else(branches, last);
            let never = Some(Term::new(Node::Truth(false)));
            let last = block_of(alloc, scope, order, last)?;
            let none = Vec::new(alloc);
            Ok(Typed::new(TypedForm::If(at, has_else, never, none, last)))
        }
    }
}

// What stands in the other branch.
#[cycle(stmts)]
fn others_of<'a>(
    alloc: Global,
    scope: &Scope<'_, 'a>,
    order: &Positions,
    branches: &'a [Branch],
    last: &'a Option<Vec<Stmt>>,
) -> Result<Vec<Typed>, AllocError>
    requires { order.now ≡ in_number_order (scope_seen scope.now).table }
    ensures { IfOk result (λ v. module_stmts v.items ≡ others_of (scope_seen scope.now) (branches_of branches.now (last_of last.now))) }
{
    let Some((first, rest)) = branches.split_first() else {
        return block_of(alloc, scope, order, last);
    };
    let has_else = is_else(rest, last);
    let others = others_of(alloc, scope, order, rest, last)?;
    let mut block = Vec::new(alloc);
    block.push(branch_of(alloc, scope, order, first, has_else, others)?)?;
    Ok(block)
}

#[cycle(stmts)]
fn branch_of<'a>(
    alloc: Global,
    scope: &Scope<'_, 'a>,
    order: &Positions,
    branch: &'a Branch,
    has_else: bool,
    others: Vec<Typed>,
) -> Result<Typed, AllocError>
    requires { order.now ≡ in_number_order (scope_seen scope.now).table }
    ensures { IfOk result (λ s. s ≡ if_else branch.now.at has_else (guard_of (scope_seen scope.now) branch.now.guard) (stmts_of (scope_seen scope.now) (stmts_tree branch.now.body.items)) (module_stmts others.items)) }
{
    let guard = guard_of(alloc, scope, order, &branch.guard)?;
    let body = stmts_of(alloc, scope, order, &branch.body)?;
    Ok(Typed::new(TypedForm::If(branch.at, has_else, guard, body, others)))
}

#[cycle(stmts)]
fn block_of<'a>(
    alloc: Global,
    scope: &Scope<'_, 'a>,
    order: &Positions,
    last: &'a Option<Vec<Stmt>>,
) -> Result<Vec<Typed>, AllocError>
    requires { order.now ≡ in_number_order (scope_seen scope.now).table }
    ensures { IfOk result (λ v. module_stmts v.items ≡ others_of (scope_seen scope.now) (last_of last.now)) }
{
    match last {
        Some(stmts) => stmts_of(alloc, scope, order, stmts),
        None => Ok(Vec::new(alloc)),
    }
}
