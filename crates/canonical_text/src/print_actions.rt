// The tokens of statements.
#![tactic(auto, using(crate::proofs::WrittenLines::writes))]

ghost use Rattle.std.specs.Prelude.{◌≡◌, ◌∷◌, ◌++◌};
ghost use Rattle.bpl_ast.specs.ExprView.{exprs_of};
ghost use Rattle.canonical_text.specs.Glyph.{word, plain, prefix, opening, closing};
ghost use Rattle.canonical_text.specs.Expression.{expression, names, listed};
ghost use Rattle.canonical_text.specs.Lines.{semicolon, free_word, entries, targets, more_targets, guard, outs, labels, label};
ghost use Rattle.canonical_text.specs.Written.{Adds};

use crate::line::Line;
use crate::print_exprs::{print_expr, print_listed};
use crate::print_types::print_names;
use bpl_ast::expr::Expr;
use bpl_ast::name::Name;
use bpl_ast::stmt::{Invariant, Target};

/// The word `free`, or nothing.
pub fn print_free(line: &mut Line, free: bool)
    ensures { Adds line.old (free_word free) line.new }
{
    if free {
        line.word(b"free");
    }
}

/// The indices of a target.
fn print_entries(line: &mut Line, indices: &[Expr])
    ensures { Adds line.old (entries (exprs_of indices.now)) line.new }
{
    let mut rest = indices;
    while let Some((x, tail)) = rest.split_first() {
        line.index();
        print_expr(line, x);
        line.closing(b"]");
        rest = tail;
    }
}

/// The targets of an assignment, with commas between them.
fn print_targets(line: &mut Line, list: &[Target])
    ensures { Adds line.old (targets list.now) line.new }
{
    if let Some((first, others)) = list.split_first() {
        line.word(first.name.text.as_bytes());
        print_entries(line, &first.indices);
        print_more_targets(line, others);
    }
}

/// The targets behind the first, each behind a comma.
fn print_more_targets(line: &mut Line, list: &[Target])
    ensures { Adds line.old (more_targets list.now) line.new }
{
    let mut rest = list;
    while let Some((target, tail)) = rest.split_first() {
        line.closing(b",");
        line.word(target.name.text.as_bytes());
        print_entries(line, &target.indices);
        rest = tail;
    }
}

/// A guard in its parentheses.
fn print_guard(line: &mut Line, found: &Option<Expr>)
    ensures { Adds line.old (guard found.now) line.new }
{
    line.opening(b"(");
    match found {
        Some(x) => {
            print_expr(line, x);
            line.closing(b")");
        }
        None => {
            line.word(b"*");
            line.closing(b")");
        }
    }
}

/// The targets of a call, if there are any.
fn print_outs(line: &mut Line, list: &[Name])
    ensures { Adds line.old (outs list.now) line.new }
{
    if let Some(_) = list.split_first() {
        print_names(line, list);
        line.word(b":=");
    }
}

/// The labels before a statement.
pub fn print_labels(line: &mut Line, list: &[Name])
    ensures { Adds line.old (labels list.now) line.new }
{
    let mut rest = list;
    while let Some((name, tail)) = rest.split_first() {
        line.word(name.text.as_bytes());
        line.closing(b":");
        rest = tail;
    }
}

/// The label of a `break`, or nothing.
fn print_label(line: &mut Line, found: &Option<Name>)
    ensures { Adds line.old (label found.now) line.new }
{
    if let Some(name) = found {
        line.word(name.text.as_bytes());
    }
}

/// The tokens of an invariant.
pub fn print_kept(line: &mut Line, found: &Invariant)
    ensures { Adds line.old (free_word found.now.free ++ word "invariant" ∷ (expression found.now.formula ++ semicolon)) line.new }
{
    print_free(line, found.free);
    print_claim(line, b"invariant", &found.formula);
}

/// A word, a formula and a semicolon.
pub fn print_claim(line: &mut Line, token: &[u8], x: &Expr)
    ensures { Adds line.old (plain token.now ∷ (expression x.now ++ semicolon)) line.new }
{
    line.word(token);
    print_expr(line, x);
    line.closing(b";");
}

/// A word, names and a semicolon.
pub fn print_named(line: &mut Line, token: &[u8], list: &[Name])
    ensures { Adds line.old (plain token.now ∷ (names list.now ++ semicolon)) line.new }
{
    line.word(token);
    print_names(line, list);
    line.closing(b";");
}

/// An assignment.
pub fn print_assign(line: &mut Line, list: &[Target], values: &[Expr])
    ensures { Adds line.old (targets list.now ++ word ":=" ∷ (listed (exprs_of values.now) ++ semicolon)) line.new }
{
    print_targets(line, list);
    line.word(b":=");
    print_listed(line, values);
    line.closing(b";");
}

/// A procedure's name, and the arguments of a call in their parentheses.
fn print_called(line: &mut Line, name: &Name, arguments: &[Expr])
    ensures { Adds line.old (prefix name.now.text ∷ opening "(" ∷ (listed (exprs_of arguments.now) ++ closing ")" ∷ semicolon)) line.new }
{
    line.opening(name.text.as_bytes());
    line.opening(b"(");
    print_listed(line, arguments);
    line.closing(b")");
    line.closing(b";");
}

/// A call.
pub fn print_call(line: &mut Line, results: &[Name], name: &Name, arguments: &[Expr])
    ensures { Adds line.old (word "call" ∷ (outs results.now ++ prefix name.now.text ∷ opening "(" ∷ (listed (exprs_of arguments.now) ++ closing ")" ∷ semicolon))) line.new }
{
    line.word(b"call");
    print_outs(line, results);
    print_called(line, name, arguments);
}

/// The end of a loop or of a labelled statement.
pub fn print_break(line: &mut Line, found: &Option<Name>)
    ensures { Adds line.old (word "break" ∷ (label found.now ++ semicolon)) line.new }
{
    line.word(b"break");
    print_label(line, found);
    line.closing(b";");
}

/// A word and a guard, behind labels.
pub fn print_guarded(line: &mut Line, before: &[Name], token: &[u8], found: &Option<Expr>)
    ensures { Adds line.old (labels before.now ++ plain token.now ∷ guard found.now) line.new }
{
    print_labels(line, before);
    line.word(token);
    print_guard(line, found);
}
