// The labels of a body, those that gotos name, and the one that is too many.
ghost use Rattle.std.specs.Prelude.{◌≡◌, ◌++◌, [], ◌∷◌, drop, filter, OnOk};
ghost use Rattle.bpl_ast.specs.Place.{Name as name};
ghost use Rattle.bpl_ast.specs.Statement.{no_branch};
ghost use Rattle.bpl_ast.specs.StmtView.{stmts_of, branches_of, last_of};
ghost use Rattle.bv_base.specs.Text.{is_among};
ghost use Rattle.bpl_scopes.specs.Fault.{earlier, first_fault};
ghost use Rattle.bpl_scopes.specs.Scopes.{texts_of};
ghost use Rattle.bpl_faults.specs.Arguments.{names_seen};
ghost use Rattle.bpl_statement_faults.specs.StackView.{let_through};
ghost use Rattle.bpl_statement_faults.specs.Limits.{label_limit};
ghost use Rattle.bpl_statement_faults.specs.StmtFaults.{labels_of, labels_in, branch_labels, goto_labels, goto_labels_in, branch_goto_labels, first_label_faults, many_labels_faults};

use bpl_ast::{Branch, Name, Stmt, StmtForm};
use bpl_faults::listed::push_names;
use bpl_scopes::{Faults, Positions, TypeKind};
use std::alloc::{AllocError, Global};

/// How many labels gotos may name in one body.
pub const LABELS: usize = 500;

/// Puts the labels of statements, those inside them too, behind others.
#[cycle(labels)]
pub(crate) fn push_labels<'a>(
    found: &mut Vec<&'a Name>,
    stmts: &'a [Stmt],
) -> Result<(), AllocError>
    ensures { OnOk result (names_seen found.new.items ≡ names_seen found.old.items ++ labels_of (stmts_of stmts.now)) }
{
    for stmt in stmts {
        push_stmt_labels(found, stmt)?;
    }
    Ok(())
}

#[cycle(labels)]
#[tactic(auto, using(crate::proofs::LabelSteps::if_labels, bpl_ast::specs::StmtFalls::last_counts))]
fn push_stmt_labels<'a>(found: &mut Vec<&'a Name>, stmt: &'a Stmt) -> Result<(), AllocError>
    ensures { OnOk result (names_seen found.new.items ≡ names_seen found.old.items ++ labels_in stmt.now) }
{
    push_names(found, &stmt.labels)?;
    match &stmt.form {
        StmtForm::If(branches, last) => {
            push_branch_labels(found, branches)?;
            push_last_labels(found, last)
        }
        StmtForm::While(_, _, body) => push_labels(found, body),
        StmtForm::Assert(_)
        | StmtForm::Assume(_)
        | StmtForm::Havoc(_)
        | StmtForm::Assign(_, _)
        | StmtForm::Call(_, _, _)
        | StmtForm::Break(_)
        | StmtForm::Return
        | StmtForm::Goto(_) => Ok(()),
    }
}

#[cycle(labels)]
fn push_branch_labels<'a>(
    found: &mut Vec<&'a Name>,
    branches: &'a [Branch],
) -> Result<(), AllocError>
    ensures { OnOk result (names_seen found.new.items ≡ names_seen found.old.items ++ branch_labels (branches_of branches.now no_branch)) }
{
    for branch in branches {
        push_labels(found, &branch.body)?;
    }
    Ok(())
}

#[cycle(labels)]
fn push_last_labels<'a>(
    found: &mut Vec<&'a Name>,
    last: &'a Option<Vec<Stmt>>,
) -> Result<(), AllocError>
    ensures { OnOk result (names_seen found.new.items ≡ names_seen found.old.items ++ branch_labels (last_of last.now)) }
{
    match last {
        Some(stmts) => push_labels(found, stmts),
        None => Ok(()),
    }
}

/// Puts the labels that gotos name behind others.
#[cycle(gotos)]
pub(crate) fn push_gotos<'a>(found: &mut Positions<'a>, stmts: &'a [Stmt]) -> Result<(), AllocError>
    ensures { OnOk result (found.new ≡ found.old ++ goto_labels (stmts_of stmts.now)) }
{
    for stmt in stmts {
        push_stmt_gotos(found, stmt)?;
    }
    Ok(())
}

#[cycle(gotos)]
#[tactic(auto, using(crate::proofs::LabelSteps::if_gotos, bpl_ast::specs::StmtFalls::last_counts))]
fn push_stmt_gotos<'a>(found: &mut Positions<'a>, stmt: &'a Stmt) -> Result<(), AllocError>
    ensures { OnOk result (found.new ≡ found.old ++ goto_labels_in stmt.now) }
{
    match &stmt.form {
        StmtForm::If(branches, last) => {
            push_branch_gotos(found, branches)?;
            push_last_gotos(found, last)
        }
        StmtForm::While(_, _, body) => push_gotos(found, body),
        StmtForm::Goto(labels) => push_named(found, labels),
        StmtForm::Assert(_)
        | StmtForm::Assume(_)
        | StmtForm::Havoc(_)
        | StmtForm::Assign(_, _)
        | StmtForm::Call(_, _, _)
        | StmtForm::Break(_)
        | StmtForm::Return => Ok(()),
    }
}

#[cycle(gotos)]
fn push_branch_gotos<'a>(
    found: &mut Positions<'a>,
    branches: &'a [Branch],
) -> Result<(), AllocError>
    ensures { OnOk result (found.new ≡ found.old ++ branch_goto_labels (branches_of branches.now no_branch)) }
{
    for branch in branches {
        push_gotos(found, &branch.body)?;
    }
    Ok(())
}

#[cycle(gotos)]
fn push_last_gotos<'a>(
    found: &mut Positions<'a>,
    last: &'a Option<Vec<Stmt>>,
) -> Result<(), AllocError>
    ensures { OnOk result (found.new ≡ found.old ++ branch_goto_labels (last_of last.now)) }
{
    match last {
        Some(stmts) => push_gotos(found, stmts),
        None => Ok(()),
    }
}

fn push_named<'a>(found: &mut Positions<'a>, labels: &'a [Name]) -> Result<(), AllocError>
    ensures { OnOk result (found.new ≡ found.old ++ texts_of labels.now) }
{
    for label in labels {
        found.push(label.text.as_bytes())?;
    }
    Ok(())
}

/// Finds the first of the labels that gotos name that is one too many.
pub(crate) fn note_many(
    alloc: Global,
    labels: &[&Name],
    stmts: &[Stmt],
    faults: &mut Faults,
) -> Result<(), AllocError>
    requires { names_seen labels.now ≡ labels_of (stmts_of stmts.now) }
    ensures { OnOk result (faults.new.first ≡ earlier faults.old.first (first_fault (many_labels_faults (stmts_of stmts.now)))) }
{
    let mut named = Positions::new(alloc);
    push_gotos(&mut named, stmts)?;
    note_beyond(&named, labels, faults);
    Ok(())
}

// How many named labels more are let through behind a label; None where it is one too many.
#[tactic(auto, using(crate::proofs::LabelSteps::through_more, crate::proofs::LabelSteps::through_none))]
fn let_through(left: usize, is_named: bool) -> Option<usize>
    ensures { result ≡ let_through left is_named }
{
    if !is_named {
        return Some(left);
    }
    if left == 0 {
        return None;
    }
    Some(left - 1)
}

// Finds the first of the labels that are named that is one too many.
fn note_beyond(named: &Positions, labels: &[&Name], faults: &mut Faults)
    ensures { faults.new.first ≡ earlier faults.old.first (first_fault (first_label_faults (drop label_limit (filter (λ (n : name). is_among named.now n.text) (names_seen labels.now))))) }
{
    let mut left: usize = LABELS;
    for label in labels {
        match let_through(left, named.contains(label.text.as_bytes())) {
            Some(next) => left = next,
            None => {
                faults.note(TypeKind::Labels, label.at);
                return;
            }
        }
    }
}
