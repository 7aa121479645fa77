// The tokens of declarations.
#![tactic(auto, using(crate::proofs::WrittenLines::writes))]

ghost use Rattle.std.specs.Prelude.{◌≡◌, ◌∷◌, ◌++◌};
ghost use Rattle.bpl_ast.specs.ExprView.{groups_of};
ghost use Rattle.canonical_text.specs.Glyph.{word, plain, prefix, opening, closing};
ghost use Rattle.canonical_text.specs.Expression.{names, params, type, groups};
ghost use Rattle.canonical_text.specs.Lines.{semicolon, returned, signature, argument, arguments, more_arguments, value, unique_word, synonym_of, ended};
ghost use Rattle.canonical_text.specs.Written.{Adds};

use crate::line::Line;
use crate::print_exprs::{print_expr, print_groups};
use crate::print_types::{print_names, print_params, print_type};
use bpl_ast::decl::{Argument, Body, Signature};
use bpl_ast::expr::{Expr, Group};
use bpl_ast::name::{Name, TypeParams};
use bpl_ast::types::Type;
use bv_base::place::Place;

/// The results of a procedure, if there are any.
fn print_returned(line: &mut Line, list: &[Group])
    ensures { Adds line.old (returned (groups_of list.now)) line.new }
{
    if let Some(_) = list.split_first() {
        line.word(b"returns");
        line.opening(b"(");
        print_groups(line, list);
        line.closing(b")");
    }
}

/// The parameters and results of a procedure.
fn print_signature(line: &mut Line, generic: &Option<TypeParams>, found: &Signature)
    ensures { Adds line.old (signature generic.now found.now) line.new }
{
    print_params(line, generic);
    line.opening(b"(");
    print_groups(line, &found.ins);
    line.closing(b")");
    print_returned(line, &found.outs);
}

/// A parameter of a function.
fn print_argument(line: &mut Line, found: &Argument)
    ensures { Adds line.old (argument found.now) line.new }
{
    match &found.name {
        Some(name) => {
            line.word(name.text.as_bytes());
            line.closing(b":");
            print_type(line, &found.of);
        }
        None => print_type(line, &found.of),
    }
}

/// The parameters of a function, with commas between them.
fn print_arguments(line: &mut Line, list: &[Argument])
    ensures { Adds line.old (arguments list.now) line.new }
{
    if let Some((first, others)) = list.split_first() {
        print_argument(line, first);
        print_more_arguments(line, others);
    }
}

/// The parameters behind the first, each behind a comma.
fn print_more_arguments(line: &mut Line, list: &[Argument])
    ensures { Adds line.old (more_arguments list.now) line.new }
{
    let mut rest = list;
    while let Some((argument, tail)) = rest.split_first() {
        line.closing(b",");
        print_argument(line, argument);
        rest = tail;
    }
}

/// The body of a function in its braces, or a semicolon.
fn print_value(line: &mut Line, found: &Option<Expr>)
    ensures { Adds line.old (value found.now) line.new }
{
    match found {
        Some(x) => {
            line.word(b"{");
            print_expr(line, x);
            line.word(b"}");
        }
        None => line.closing(b";"),
    }
}

/// The word `unique`, or nothing.
fn print_unique(line: &mut Line, found: &Option<Place>)
    ensures { Adds line.old (unique_word found.now) line.new }
{
    if let Some(_) = found {
        line.word(b"unique");
    }
}

/// What a synonym stands for, or nothing.
fn print_synonym(line: &mut Line, found: &Option<Type>)
    ensures { Adds line.old (synonym_of found.now) line.new }
{
    if let Some(of) = found {
        line.word(b"=");
        print_type(line, of);
    }
}

/// The semicolon of a procedure without a body.
pub fn print_ended(line: &mut Line, found: &Option<Body>)
    ensures { Adds line.old (ended found.now) line.new }
{
    if let None = found {
        line.closing(b";");
    }
}

/// Constants.
pub fn print_const(line: &mut Line, unique: &Option<Place>, list: &[Name], of: &Type)
    ensures { Adds line.old (word "const" ∷ (unique_word unique.now ++ (names list.now ++ closing ":" ∷ (type of.now ++ semicolon)))) line.new }
{
    line.word(b"const");
    print_unique(line, unique);
    print_names(line, list);
    line.closing(b":");
    print_type(line, of);
    line.closing(b";");
}

/// The type of a function's values, and its body.
fn print_result(line: &mut Line, of: &Type, found: &Option<Expr>)
    ensures { Adds line.old (closing ")" ∷ closing ":" ∷ (type of.now ++ value found.now)) line.new }
{
    line.closing(b")");
    line.closing(b":");
    print_type(line, of);
    print_value(line, found);
}

/// A function.
pub fn print_function(
    line: &mut Line,
    name: &Name,
    generic: &Option<TypeParams>,
    list: &[Argument],
    of: &Type,
    found: &Option<Expr>,
)
    ensures { Adds line.old (word "function" ∷ prefix name.now.text ∷ (params generic.now ++ opening "(" ∷ (arguments list.now ++ closing ")" ∷ closing ":" ∷ (type of.now ++ value found.now)))) line.new }
{
    line.word(b"function");
    line.opening(name.text.as_bytes());
    print_params(line, generic);
    line.opening(b"(");
    print_arguments(line, list);
    print_result(line, of, found);
}

/// Variables.
pub fn print_variables(line: &mut Line, list: &[Group])
    ensures { Adds line.old (word "var" ∷ (groups (groups_of list.now) ++ semicolon)) line.new }
{
    line.word(b"var");
    print_groups(line, list);
    line.closing(b";");
}

/// A user type, or a synonym.
pub fn print_type_name(line: &mut Line, name: &Name, of: &Option<Type>)
    ensures { Adds line.old (word "type" ∷ plain name.now.text ∷ (synonym_of of.now ++ semicolon)) line.new }
{
    line.word(b"type");
    line.word(name.text.as_bytes());
    print_synonym(line, of);
    line.closing(b";");
}

/// A word, a procedure's name and its parameters and results.
pub fn print_declared(
    line: &mut Line,
    token: &[u8],
    name: &Name,
    generic: &Option<TypeParams>,
    found: &Signature,
)
    ensures { Adds line.old (plain token.now ∷ plain name.now.text ∷ signature generic.now found.now) line.new }
{
    line.word(token);
    line.word(name.text.as_bytes());
    print_signature(line, generic, found);
}
