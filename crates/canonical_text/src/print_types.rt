// The tokens of names and types.
#![tactic(auto, using(crate::proofs::WrittenLines::writes))]

ghost use Rattle.bpl_ast.specs.TypeView.{tys_of};
ghost use Rattle.canonical_text.specs.Expression.{names, more_names, params, type, types, more_types};
ghost use Rattle.canonical_text.specs.Written.{Adds};

use crate::line::Line;
use bpl_ast::name::{Name, TypeParams};
use bpl_ast::types::{Type, TypeForm};

/// Names with commas between them.
pub fn print_names(line: &mut Line, list: &[Name])
    ensures { Adds line.old (names list.now) line.new }
{
    if let Some((first, others)) = list.split_first() {
        line.word(first.text.as_bytes());
        print_more_names(line, others);
    }
}

/// The names behind the first, each behind a comma.
fn print_more_names(line: &mut Line, others: &[Name])
    ensures { Adds line.old (more_names others.now) line.new }
{
    for name in others {
        line.closing(b",");
        line.word(name.text.as_bytes());
    }
}

/// Type parameters in their brackets, or nothing.
pub fn print_params(line: &mut Line, list: &Option<TypeParams>)
    ensures { Adds line.old (params list.now) line.new }
{
    if let Some(found) = list {
        line.word(b"<");
        print_names(line, &found.names);
        line.word(b">");
    }
}

/// A type.
#[cycle(print_type)]
pub fn print_type(line: &mut Line, of: &Type)
    ensures { Adds line.old (type of.now) line.new }
{
    match &of.form {
        TypeForm::Int => line.word(b"int"),
        TypeForm::Bool => line.word(b"bool"),
        TypeForm::Named(name) => line.word(name.text.as_bytes()),
        TypeForm::Map(list, domain, range) => {
            print_params(line, list);
            line.opening(b"[");
            print_types(line, domain);
            line.closing(b"]");
            print_type(line, range);
        }
    }
}

/// Types with commas between them.
#[cycle(print_type)]
fn print_types(line: &mut Line, list: &[Type])
    ensures { Adds line.old (types (tys_of list.now)) line.new }
{
    if let Some((first, others)) = list.split_first() {
        print_type(line, first);
        print_more_types(line, others);
    }
}

/// The types behind the first, each behind a comma.
#[cycle(print_type)]
fn print_more_types(line: &mut Line, others: &[Type])
    ensures { Adds line.old (more_types (tys_of others.now)) line.new }
{
    let mut rest = others;
    while let Some((of, tail)) = rest.split_first() {
        line.closing(b",");
        print_type(line, of);
        rest = tail;
    }
}
