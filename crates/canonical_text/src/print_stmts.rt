// The lines of statements.
#![tactic(auto, using(crate::proofs::PageLines::lines))]

ghost use Rattle.std.specs.Prelude.{◌≡◌, ◌+◌, [], ◌∷◌, ◌++◌, map, Some, OnOk};
ghost use Rattle.bpl_ast.specs.StmtView.{stmts_of, branches_of, last_of};
ghost use Rattle.canonical_text.specs.Glyph.{word, plain, line};
ghost use Rattle.canonical_text.specs.Lines.{guard, labels, invariant_line, statement, chain, others, statements, block};
ghost use Rattle.canonical_text.specs.Written.{Adds, begun};

use crate::line::Line;
use crate::page::{Page, deeper};
use crate::print_actions::{
    print_assign, print_break, print_call, print_claim, print_guarded, print_kept, print_labels,
    print_named,
};
use bpl_ast::expr::Expr;
use bpl_ast::name::Name;
use bpl_ast::stmt::{Branch, Invariant, Stmt, StmtForm};
use std::alloc::AllocError;

/// The line of an invariant.
fn print_invariant(page: &mut Page, indent: usize, found: &Invariant) -> Result<(), AllocError>
    ensures { OnOk result (page.new ≡ page.old ++ invariant_line indent found.now ∷ []) }
{
    let mut line = page.begin(indent);
    print_kept(&mut line, found);
    page.end(line)
}

/// The lines of invariants.
fn print_invariants(page: &mut Page, indent: usize, list: &[Invariant]) -> Result<(), AllocError>
    ensures { OnOk result (page.new ≡ page.old ++ map (invariant_line indent) list.now) }
{
    let mut rest = list;
    while let Some((found, tail)) = rest.split_first() {
        print_invariant(page, indent, found)?;
        rest = tail;
    }
    Ok(())
}

/// A line that begins with labels.
#[tactic(auto, using(crate::proofs::WrittenLines::writes))]
fn begin_labelled(page: &Page, indent: usize, list: &[Name]) -> Line
    ensures { Adds (Some (begun indent)) (labels list.now) result }
{
    let mut line = page.begin(indent);
    print_labels(&mut line, list);
    line
}

/// The line of a word and a guard behind labels.
fn print_guarded_line(
    page: &mut Page,
    indent: usize,
    before: &[Name],
    token: &[u8],
    found: &Option<Expr>,
) -> Result<(), AllocError>
    ensures { OnOk result (page.new ≡ page.old ++ line indent (labels before.now ++ plain token.now ∷ guard found.now) ∷ []) }
{
    let mut line = page.begin(indent);
    print_guarded(&mut line, before, token, found);
    page.end(line)
}

/// The head of a loop, and its invariants.
fn print_loop(
    page: &mut Page,
    indent: usize,
    before: &[Name],
    found: &Option<Expr>,
    invariants: &[Invariant],
) -> Result<(), AllocError>
    ensures { OnOk result (page.new ≡ page.old ++ line indent (labels before.now ++ word "while" ∷ guard found.now) ∷ map (invariant_line (indent + 2)) invariants.now) }
{
    print_guarded_line(page, indent, before, b"while", found)?;
    print_invariants(page, deeper(indent)?, invariants)
}

/// The lines of a statement behind its labels.
#[cycle(print_stmt)]
fn print_stmt(page: &mut Page, indent: usize, stmt: &Stmt) -> Result<(), AllocError>
    ensures { OnOk result (page.new ≡ page.old ++ statement indent stmt.now) }
{
    match &stmt.form {
        StmtForm::Assert(x) => {
            let mut line = begin_labelled(page, indent, &stmt.labels);
            print_claim(&mut line, b"assert", x);
            page.end(line)
        }
        StmtForm::Assume(x) => {
            let mut line = begin_labelled(page, indent, &stmt.labels);
            print_claim(&mut line, b"assume", x);
            page.end(line)
        }
        StmtForm::Havoc(names) => {
            let mut line = begin_labelled(page, indent, &stmt.labels);
            print_named(&mut line, b"havoc", names);
            page.end(line)
        }
        StmtForm::Assign(targets, values) => {
            let mut line = begin_labelled(page, indent, &stmt.labels);
            print_assign(&mut line, targets, values);
            page.end(line)
        }
        StmtForm::Call(targets, name, arguments) => {
            let mut line = begin_labelled(page, indent, &stmt.labels);
            print_call(&mut line, targets, name, arguments);
            page.end(line)
        }
        StmtForm::If(branches, last) => { print_chain(page, indent, &stmt.labels, branches, last) }
        StmtForm::While(guard, invariants, body) => {
            print_loop(page, indent, &stmt.labels, guard, invariants)?;
            print_block(page, indent, body)
        }
        StmtForm::Break(name) => {
            let mut line = begin_labelled(page, indent, &stmt.labels);
            print_break(&mut line, name);
            page.end(line)
        }
        StmtForm::Return => {
            let mut line = begin_labelled(page, indent, &stmt.labels);
            line.word(b"return");
            line.closing(b";");
            page.end(line)
        }
        StmtForm::Goto(names) => {
            let mut line = begin_labelled(page, indent, &stmt.labels);
            print_named(&mut line, b"goto", names);
            page.end(line)
        }
    }
}

/// The lines of an `if` behind its labels.
#[cycle(print_stmt)]
#[tactic(auto, using(crate::proofs::NoBranch::no_chain))]
fn print_chain(
    page: &mut Page,
    indent: usize,
    before: &[Name],
    branches: &[Branch],
    last: &Option<Vec<Stmt>>,
) -> Result<(), AllocError>
    ensures { OnOk result (page.new ≡ page.old ++ chain indent (labels before.now) (branches_of branches.now (last_of last.now))) }
{
    match branches.split_first() {
        Some((branch, tail)) => {
            print_guarded_line(page, indent, before, b"if", &branch.guard)?;
            print_block(page, indent, &branch.body)?;
            print_others(page, indent, tail, last)
        }
        None => Ok(()),
    }
}

/// The lines of the branches behind the first, each with its `else`.
#[cycle(print_stmt)]
fn print_others(
    page: &mut Page,
    indent: usize,
    branches: &[Branch],
    last: &Option<Vec<Stmt>>,
) -> Result<(), AllocError>
    ensures { OnOk result (page.new ≡ page.old ++ others indent (branches_of branches.now (last_of last.now))) }
{
    let mut rest = branches;
    while let Some((branch, tail)) = rest.split_first() {
        page.bare(indent, b"else")?;
        print_if(page, indent, branch)?;
        rest = tail;
    }
    print_last(page, indent, last)
}

/// The lines of a branch without its `else`.
#[cycle(print_stmt)]
fn print_if(page: &mut Page, indent: usize, branch: &Branch) -> Result<(), AllocError>
    ensures { OnOk result (page.new ≡ page.old ++ line indent (word "if" ∷ guard branch.now.guard) ∷ block indent (stmts_of branch.now.body.items)) }
{
    print_guarded_line(page, indent, &[], b"if", &branch.guard)?;
    print_block(page, indent, &branch.body)
}

/// The lines of the last `else`, if there is one.
#[cycle(print_stmt)]
fn print_last(page: &mut Page, indent: usize, last: &Option<Vec<Stmt>>) -> Result<(), AllocError>
    ensures { OnOk result (page.new ≡ page.old ++ others indent (last_of last.now)) }
{
    match last {
        Some(body) => {
            page.bare(indent, b"else")?;
            print_block(page, indent, body)
        }
        None => Ok(()),
    }
}

/// The lines of a block.
#[cycle(print_stmt)]
fn print_block(page: &mut Page, indent: usize, body: &[Stmt]) -> Result<(), AllocError>
    ensures { OnOk result (page.new ≡ page.old ++ block indent (stmts_of body.now)) }
{
    page.bare(indent, b"{")?;
    print_stmts(page, deeper(indent)?, body)?;
    page.bare(indent, b"}")
}

/// The lines of statements.
#[cycle(print_stmt)]
pub fn print_stmts(page: &mut Page, indent: usize, list: &[Stmt]) -> Result<(), AllocError>
    ensures { OnOk result (page.new ≡ page.old ++ statements indent (stmts_of list.now)) }
{
    let mut rest = list;
    while let Some((stmt, tail)) = rest.split_first() {
        print_stmt(page, indent, stmt)?;
        rest = tail;
    }
    Ok(())
}
