// The labels of a body: those that its gotos name, and the length of the longest that stands in it.
ghost use Rattle.std.specs.Prelude.{◌≡◌, OnOk};
ghost use Rattle.bpl_model.specs.Names.{with_names};
ghost use Rattle.bpl_model.specs.StmtView.{stmts_of};
ghost use Rattle.bpl_goto.specs.Labels.{labels_in, labels_within, named_in, named_within, longest};

use bpl_model::declarations::put_names;
use bpl_model::name_set::NameSet;
use bpl_model::{Name, Stmt, StmtForm};
use std::alloc::AllocError;

// Puts in the labels that gotos in the statement name.
#[cycle(named)]
#[tactic(auto, using(crate::proofs::Loops::put_both))]
fn put_named<'a>(names: &mut NameSet<'a>, stmt: &'a Stmt) -> Result<(), AllocError>
    ensures { OnOk result (names.new ≡ with_names names.old (named_in stmt.now)) }
{
    match &stmt.form {
        StmtForm::If(_, _, _, first, second) => {
            put_each_named(names, first)?;
            put_each_named(names, second)
        }
        StmtForm::While(_, _, _, body) => put_each_named(names, body),
        StmtForm::Goto(_, labels) => put_names(names, labels),
        StmtForm::Labelled(_, behind) => put_named(names, behind),
        _ => Ok(()),
    }
}

/// Puts in the labels that gotos in the statements name.
#[cycle(named)]
#[tactic(auto, using(crate::proofs::Loops::put_both))]
pub fn put_each_named<'a>(names: &mut NameSet<'a>, stmts: &'a [Stmt]) -> Result<(), AllocError>
    ensures { OnOk result (names.new ≡ with_names names.old (named_within (stmts_of stmts.now))) }
{
    for stmt in stmts {
        put_named(names, stmt)?;
    }
    Ok(())
}

fn longest_of(names: &[Name]) -> usize
    ensures { result ≡ longest names.now }
{
    let mut most = 0;
    for name in names {
        most = most.max(name.as_bytes().len());
    }
    most
}

#[cycle(longest)]
#[tactic(auto, using(crate::proofs::Loops::longest_both))]
fn longest_in(stmt: &Stmt) -> usize
    ensures { result ≡ longest (labels_in stmt.now) }
{
    match &stmt.form {
        StmtForm::If(_, _, _, first, second) => longest_within(first).max(longest_within(second)),
        StmtForm::While(_, _, _, body) => longest_within(body),
        StmtForm::Labelled(labels, behind) => longest_of(labels).max(longest_in(behind)),
        _ => 0,
    }
}

/// The length of the longest label that stands in the statements.
#[cycle(longest)]
#[tactic(auto, using(crate::proofs::Loops::longest_both))]
pub fn longest_within(stmts: &[Stmt]) -> usize
    ensures { result ≡ longest (labels_within (stmts_of stmts.now)) }
{
    let mut most = 0;
    for stmt in stmts {
        most = most.max(longest_in(stmt));
    }
    most
}
