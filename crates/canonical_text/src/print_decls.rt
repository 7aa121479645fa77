// The lines of declarations, and the text of programs and of expressions.
#![tactic(auto, using(crate::proofs::PageLines::lines))]

ghost use Rattle.std.specs.Prelude.{◌≡◌, [], ◌∷◌, ◌++◌, map, OnOk, IfOk};
ghost use Rattle.bpl_ast.specs.ExprView.{each_groups_of, groups_of};
ghost use Rattle.bpl_ast.specs.DeclView.{body_of};
ghost use Rattle.canonical_text.specs.Expression.{expression};
ghost use Rattle.canonical_text.specs.Glyph.{word, plain, line};
ghost use Rattle.canonical_text.specs.Lines.{spec_line, signature, ended, local_line, body_lines, optional_body, head_lines, last_lines, lines, text, contract, program_text};

use crate::line::Line;
use crate::page::Page;
use crate::print_actions::{print_claim, print_free, print_named};
use crate::print_exprs::print_expr;
use crate::print_heads::{
    print_const, print_declared, print_ended, print_function, print_type_name, print_variables,
};
use crate::print_stmts::print_stmts;
use bpl_ast::decl::{Body, Decl, DeclBody, Program, Signature, Spec, SpecForm};
use bpl_ast::expr::{Expr, Group};
use bpl_ast::name::{Name, TypeParams};
use bv_base::append_lines;
use std::alloc::{AllocError, Global};

/// The line of a clause of a contract.
fn print_spec(page: &mut Page, spec: &Spec) -> Result<(), AllocError>
    ensures { OnOk result (page.new ≡ page.old ++ spec_line spec.now ∷ []) }
{
    match &spec.form {
        SpecForm::Requires { free, formula: x } => {
            let mut line = page.begin(2);
            print_free(&mut line, *free);
            print_claim(&mut line, b"requires", x);
            page.end(line)
        }
        SpecForm::Ensures { free, formula: x } => {
            let mut line = page.begin(2);
            print_free(&mut line, *free);
            print_claim(&mut line, b"ensures", x);
            page.end(line)
        }
        SpecForm::Modifies(names) => {
            let mut line = page.begin(2);
            print_named(&mut line, b"modifies", names);
            page.end(line)
        }
    }
}

/// The lines of a contract.
fn print_specs(page: &mut Page, list: &[Spec]) -> Result<(), AllocError>
    ensures { OnOk result (page.new ≡ page.old ++ map spec_line list.now) }
{
    let mut rest = list;
    while let Some((spec, tail)) = rest.split_first() {
        print_spec(page, spec)?;
        rest = tail;
    }
    Ok(())
}

/// The line of a `var` of a body.
fn print_local(page: &mut Page, list: &[Group]) -> Result<(), AllocError>
    ensures { OnOk result (page.new ≡ page.old ++ local_line (groups_of list.now) ∷ []) }
{
    let mut line = page.begin(2);
    print_variables(&mut line, list);
    page.end(line)
}

/// The lines of a body's locals.
fn print_locals(page: &mut Page, list: &[Vec<Group>]) -> Result<(), AllocError>
    ensures { OnOk result (page.new ≡ page.old ++ map local_line (each_groups_of list.now)) }
{
    let mut rest = list;
    while let Some((groups, tail)) = rest.split_first() {
        print_local(page, groups)?;
        rest = tail;
    }
    Ok(())
}

/// The lines of a body.
fn print_body(page: &mut Page, body: &Body) -> Result<(), AllocError>
    ensures { OnOk result (page.new ≡ page.old ++ body_lines body.now) }
{
    page.bare(0, b"{")?;
    print_locals(page, &body.locals)?;
    print_stmts(page, 2, &body.stmts)?;
    page.bare(0, b"}")
}

/// The line of a procedure.
fn print_procedure(
    page: &mut Page,
    name: &Name,
    generic: &Option<TypeParams>,
    found: &Signature,
    body: &Option<Body>,
) -> Result<(), AllocError>
    ensures { OnOk result (page.new ≡ page.old ++ line 0 (word "procedure" ∷ plain name.now.text ∷ (signature generic.now found.now ++ ended body.now)) ∷ []) }
{
    let mut line = page.begin(0);
    print_declared(&mut line, b"procedure", name, generic, found);
    print_ended(&mut line, body);
    page.end(line)
}

/// The line of an implementation.
fn print_implementation(
    page: &mut Page,
    name: &Name,
    generic: &Option<TypeParams>,
    found: &Signature,
) -> Result<(), AllocError>
    ensures { OnOk result (page.new ≡ page.old ++ line 0 (word "implementation" ∷ plain name.now.text ∷ signature generic.now found.now) ∷ []) }
{
    let mut line = page.begin(0);
    print_declared(&mut line, b"implementation", name, generic, found);
    page.end(line)
}

/// The lines of a declaration but those of its body.
fn print_head(page: &mut Page, body: &DeclBody) -> Result<(), AllocError>
    ensures { OnOk result (page.new ≡ page.old ++ head_lines (body_of body.now)) }
{
    match body {
        DeclBody::Const { unique, names, of } => {
            let mut line = page.begin(0);
            print_const(&mut line, unique, names, of);
            page.end(line)
        }
        DeclBody::Function {
            name,
            params,
            arguments,
            of,
            value,
        } => {
            let mut line = page.begin(0);
            print_function(&mut line, name, params, arguments, of, value);
            page.end(line)
        }
        DeclBody::Axiom(x) => {
            let mut line = page.begin(0);
            print_claim(&mut line, b"axiom", x);
            page.end(line)
        }
        DeclBody::Var(groups) => {
            let mut line = page.begin(0);
            print_variables(&mut line, groups);
            page.end(line)
        }
        DeclBody::TypeName { name, synonym: of } => {
            let mut line = page.begin(0);
            print_type_name(&mut line, name, of);
            page.end(line)
        }
        DeclBody::Procedure {
            name,
            params,
            signature,
            specs,
            body,
        } => {
            print_procedure(page, name, params, signature, body)?;
            print_specs(page, specs)
        }
        DeclBody::Implementation {
            name,
            params,
            signature,
            ..
        } => { print_implementation(page, name, params, signature) }
    }
}

/// The lines of a procedure's body, if it has one.
fn print_optional_body(page: &mut Page, found: &Option<Body>) -> Result<(), AllocError>
    ensures { OnOk result (page.new ≡ page.old ++ optional_body found.now) }
{
    match found {
        Some(body) => print_body(page, body),
        None => Ok(()),
    }
}

/// The lines of a declaration's body.
fn print_tail(page: &mut Page, body: &DeclBody) -> Result<(), AllocError>
    ensures { OnOk result (page.new ≡ page.old ++ last_lines (body_of body.now)) }
{
    match body {
        DeclBody::Procedure { body, .. } => print_optional_body(page, body),
        DeclBody::Implementation { body, .. } => print_body(page, body),
        DeclBody::Const { .. }
        | DeclBody::Function { .. }
        | DeclBody::Axiom(_)
        | DeclBody::Var(_)
        | DeclBody::TypeName { .. } => Ok(()),
    }
}

/// The lines of a declaration's canonical text, without their line feeds.
pub fn print_lines(alloc: Global, decl: &Decl) -> Result<Vec<Vec<u8>>, AllocError>
    ensures { IfOk result (λ v. map (λ l. l.items) v.items ≡ lines decl.now.body) }
{
    let mut page = Page::new(alloc);
    print_head(&mut page, decl.body())?;
    print_tail(&mut page, decl.body())?;
    Ok(page.into_lines())
}

/// The canonical text of a declaration, with its body.
pub fn print_text(alloc: Global, decl: &Decl) -> Result<Vec<u8>, AllocError>
    ensures { IfOk result (λ v. v.items ≡ text decl.now.body) }
{
    let mut out = Vec::new(alloc);
    append_lines(&mut out, &print_lines(alloc, decl)?)?;
    Ok(out)
}

/// The canonical text of a declaration without a body: of a procedure its lines but those of the
/// body. A function keeps its body.
pub fn print_contract(alloc: Global, decl: &Decl) -> Result<Vec<u8>, AllocError>
    ensures { IfOk result (λ v. v.items ≡ contract decl.now.body) }
{
    let mut page = Page::new(alloc);
    print_head(&mut page, decl.body())?;
    let mut out = Vec::new(alloc);
    append_lines(&mut out, &page.into_lines())?;
    Ok(out)
}

/// The canonical text of a program: the lines of its declarations in order, each ended by a line
/// feed.
pub fn print(alloc: Global, program: &Program) -> Result<Vec<u8>, AllocError>
    ensures { IfOk result (λ v. v.items ≡ program_text program.now) }
{
    let mut out = Vec::new(alloc);
    let mut rest = program.decls.as_slice();
    while let Some((decl, tail)) = rest.split_first() {
        append_lines(&mut out, &print_lines(alloc, decl)?)?;
        rest = tail;
    }
    Ok(out)
}

/// The canonical text of an expression that stands alone.
pub fn print_expression(alloc: Global, found: &Expr) -> Result<Vec<u8>, AllocError>
    ensures { IfOk result (λ v. v.items ≡ line 0 (expression found.now)) }
{
    let mut line = Line::begin(alloc, 0);
    print_expr(&mut line, found);
    line.into_text()
}
