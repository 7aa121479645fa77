// Whether two functions differ in values that apply the same functions alone.
ghost use Rattle.std.specs.Prelude.{◌≡◌, IfOk, IfSome, IsTrue, is_some};
ghost use Rattle.bpl_ast.specs.DeclView.{body_of};
ghost use Rattle.body_revision.specs.Procedures.{declares_function};
ghost use Rattle.body_revision.specs.Revised.{HasValue, ApplyTheSame, IsOtherFunction};

use crate::arguments::same_arguments;
use crate::names::{same_name, same_optional_params};
use crate::types::same_type;
use crate::values::apply_the_same;
use bpl_ast::{Argument, DeclBody, Expr, Name, Type, TypeParams};
use std::alloc::{AllocError, Global};

// A function: what stands before its value, and its value, if it has one.
#[derive(Clone, Copy)]
struct Valued<'a> {
    name: &'a Name,
    params: &'a Option<TypeParams>,
    ins: &'a [Argument],
    of: &'a Type,
    value: &'a Option<Expr>,
}

fn function_parts(decl: &DeclBody) -> Option<Valued<'_>>
    ensures value { IfSome result (λ v. HasValue (body_of decl.now) v.name.now v.params.now v.ins.now v.of.now v.value.now) }
    ensures told { is_some result ≡ declares_function (body_of decl.now) }
{
    match decl {
        DeclBody::Function {
            name,
            params,
            arguments,
            of,
            value,
        } => Some(Valued {
            name,
            params,
            ins: arguments,
            of,
            value,
        }),
        _ => None,
    }
}

pub(crate) fn declares_function(body: &DeclBody) -> bool
    ensures { result ≡ declares_function (body_of body.now) }
{
    match body {
        DeclBody::Function { .. } => true,
        DeclBody::Const { .. } => false,
        DeclBody::Axiom(_) => false,
        DeclBody::Var(_) => false,
        DeclBody::TypeName { .. } => false,
        DeclBody::Procedure { .. } => false,
        DeclBody::Implementation { .. } => false,
    }
}

// Whether two functions have one head.
fn same_head(mine: &Valued<'_>, theirs: &Valued<'_>) -> bool
    ensures equal { IsTrue result → (mine.now.name.now ≡ theirs.now.name.now) × ((mine.now.params.now ≡ theirs.now.params.now) × ((mine.now.ins.now ≡ theirs.now.ins.now) × (mine.now.of.now ≡ theirs.now.of.now))) }
    ensures told { (mine.now.name.now ≡ theirs.now.name.now) × ((mine.now.params.now ≡ theirs.now.params.now) × ((mine.now.ins.now ≡ theirs.now.ins.now) × (mine.now.of.now ≡ theirs.now.of.now))) → IsTrue result }
{
    same_name(mine.name, theirs.name)
        && same_optional_params(mine.params, theirs.params)
        && same_arguments(mine.ins, theirs.ins)
        && same_type(mine.of, theirs.of)
}

// Whether two functions have one head, and values that apply the same.
fn is_other_value(alloc: Global, mine: &Valued<'_>, theirs: &Valued<'_>) -> Result<bool, AllocError>
    ensures equal { IfOk result (λ b. IsTrue b → ((mine.now.name.now ≡ theirs.now.name.now) × ((mine.now.params.now ≡ theirs.now.params.now) × ((mine.now.ins.now ≡ theirs.now.ins.now) × (mine.now.of.now ≡ theirs.now.of.now)))) × ApplyTheSame mine.now.ins.now mine.now.value.now theirs.now.value.now) }
    ensures told { IfOk result (λ b. ((mine.now.name.now ≡ theirs.now.name.now) × ((mine.now.params.now ≡ theirs.now.params.now) × ((mine.now.ins.now ≡ theirs.now.ins.now) × (mine.now.of.now ≡ theirs.now.of.now)))) × ApplyTheSame mine.now.ins.now mine.now.value.now theirs.now.value.now → IsTrue b) }
{
    if same_head(mine, theirs) {
        apply_the_same(alloc, mine.ins, mine.value, theirs.value)
    } else {
        Ok(false)
    }
}

/// Whether they are functions of one head that differ in values that apply the same alone.
pub(crate) fn is_other_function(
    alloc: Global,
    old: &DeclBody,
    new: &DeclBody,
) -> Result<bool, AllocError>
    ensures equal { IfOk result (λ b. IsTrue b → IsOtherFunction (body_of old.now) (body_of new.now)) }
    ensures told { IfOk result (λ b. IsOtherFunction (body_of old.now) (body_of new.now) → IsTrue b) }
{
    match function_parts(old) {
        Some(mine) => match function_parts(new) {
            Some(theirs) => is_other_value(alloc, &mine, &theirs),
            None => Ok(false),
        },
        None => Ok(false),
    }
}
