// The parts of a declaration's lines.
ghost use Rattle.std.specs.Prelude.{◌≡◌, [], ◌∷◌, ◌++◌, map, OnOk};
ghost use Rattle.bpl_ast.specs.DeclView.{body_of};
ghost use Rattle.bpl_ast.specs.ExprView.{each_groups_of, groups_of};
ghost use Rattle.bpl_scopes.specs.Scopes.{texts_of, signature_names};
ghost use Rattle.bpl_dependencies.specs.AppliedView.{variables_seen};
ghost use Rattle.bpl_texts.specs.Uses.{signature_uses, contract_uses};
ghost use Rattle.stmt_checksum.specs.Parts.{naming, bare, spec_part, local_part, statements_parts, body_parts, optional_body_parts, head_parts, last_parts, parts as decl_parts};

use crate::parts::Parts;
use crate::stmts::push_stmts;
use bpl_ast::{Body, DeclBody, Group, Signature, Spec};
use bpl_dependencies::Variables;
use bpl_scopes::Positions;
use bpl_texts::contract_uses;
use bpl_texts::line_uses::{groups_uses, signature_uses, spec_uses};
use bpl_texts::uses::{body_names, push_signature, variables_of};
use std::alloc::AllocError;

// The part of a clause of a contract.
fn push_spec<'a>(
    parts: &mut Parts<'a>,
    variables: &Variables<'_, 'a>,
    spec: &'a Spec,
) -> Result<(), AllocError>
    ensures { OnOk result (parts.new ≡ parts.old ++ spec_part (variables_seen variables.now) spec.now ∷ []) }
{
    let uses = spec_uses(parts.alloc(), variables, spec)?;
    parts.push(uses, None)
}

// The parts of a contract's clauses.
fn push_specs<'a>(
    parts: &mut Parts<'a>,
    variables: &Variables<'_, 'a>,
    list: &'a [Spec],
) -> Result<(), AllocError>
    ensures { OnOk result (parts.new ≡ parts.old ++ map (spec_part (variables_seen variables.now)) list.now) }
{
    let mut rest = list;
    while let Some((spec, tail)) = rest.split_first() {
        push_spec(parts, variables, spec)?;
        rest = tail;
    }
    Ok(())
}

// The part of a `var` of a body.
fn push_local<'a>(
    parts: &mut Parts<'a>,
    variables: &Variables<'_, 'a>,
    groups: &'a [Group],
) -> Result<(), AllocError>
    ensures { OnOk result (parts.new ≡ parts.old ++ local_part (variables_seen variables.now) (groups_of groups.now) ∷ []) }
{
    let uses = groups_uses(parts.alloc(), variables, groups)?;
    parts.push(uses, None)
}

// The parts of a body's locals.
fn push_locals<'a>(
    parts: &mut Parts<'a>,
    variables: &Variables<'_, 'a>,
    list: &'a [Vec<Group>],
) -> Result<(), AllocError>
    ensures { OnOk result (parts.new ≡ parts.old ++ map (local_part (variables_seen variables.now)) (each_groups_of list.now)) }
{
    let mut rest = list;
    while let Some((groups, tail)) = rest.split_first() {
        push_local(parts, variables, groups)?;
        rest = tail;
    }
    Ok(())
}

// The parts of a body in which these variables hide names.
fn push_body_with<'a>(
    parts: &mut Parts<'a>,
    variables: &Variables<'_, 'a>,
    body: &'a Body,
) -> Result<(), AllocError>
    ensures { OnOk result (parts.new ≡ parts.old ++ bare ∷ (map (local_part (variables_seen variables.now)) body.now.locals ++ (statements_parts (variables_seen variables.now) body.now.stmts ++ bare ∷ []))) }
{
    parts.bare()?;
    push_locals(parts, variables, &body.locals)?;
    push_stmts(parts, variables, &body.stmts)?;
    parts.bare()
}

// The parts of a body.
fn push_body<'a>(
    parts: &mut Parts<'a>,
    signature: &'a Signature,
    body: &'a Body,
) -> Result<(), AllocError>
    ensures { OnOk result (parts.new ≡ parts.old ++ body_parts signature.now body.now) }
{
    let names = body_names(parts.alloc(), signature, body)?;
    let variables = variables_of(parts.alloc(), &names);
    push_body_with(parts, &variables, body)
}

// The parts of a procedure's body, if it has one.
fn push_optional_body<'a>(
    parts: &mut Parts<'a>,
    signature: &'a Signature,
    body: &'a Option<Body>,
) -> Result<(), AllocError>
    ensures { OnOk result (parts.new ≡ parts.old ++ optional_body_parts signature.now body.now) }
{
    match body {
        Some(body) => push_body(parts, signature, body),
        None => Ok(()),
    }
}

// The parts of a procedure's contract.
fn push_contract<'a>(
    parts: &mut Parts<'a>,
    signature: &'a Signature,
    specs: &'a [Spec],
) -> Result<(), AllocError>
    ensures { OnOk result (parts.new ≡ parts.old ++ naming (signature_uses signature.now) ∷ map (spec_part (texts_of (signature_names signature.now))) specs.now) }
{
    let uses = signature_uses(parts.alloc(), signature)?;
    parts.push(uses, None)?;
    let mut params = Positions::new(parts.alloc());
    push_signature(&mut params, signature)?;
    let variables = variables_of(parts.alloc(), &params);
    push_specs(parts, &variables, specs)
}

// The part of the one line of a head.
fn push_line<'a>(parts: &mut Parts<'a>, body: &'a DeclBody) -> Result<(), AllocError>
    ensures { OnOk result (parts.new ≡ parts.old ++ naming (contract_uses (body_of body.now)) ∷ []) }
{
    let uses = contract_uses(parts.alloc(), body)?;
    parts.push(uses, None)
}

// The parts of all but a body.
fn push_head<'a>(parts: &mut Parts<'a>, body: &'a DeclBody) -> Result<(), AllocError>
    ensures { OnOk result (parts.new ≡ parts.old ++ head_parts (body_of body.now)) }
{
    match body {
        DeclBody::Procedure {
            signature,
            specs,
            ..
        } => push_contract(parts, signature, specs),
        DeclBody::Const { .. } => push_line(parts, body),
        DeclBody::Function { .. } => push_line(parts, body),
        DeclBody::Axiom(_) => push_line(parts, body),
        DeclBody::Var(_) => push_line(parts, body),
        DeclBody::TypeName { .. } => push_line(parts, body),
        DeclBody::Implementation { .. } => push_line(parts, body),
    }
}

// The parts of the body.
fn push_tail<'a>(parts: &mut Parts<'a>, body: &'a DeclBody) -> Result<(), AllocError>
    ensures { OnOk result (parts.new ≡ parts.old ++ last_parts (body_of body.now)) }
{
    match body {
        DeclBody::Procedure {
            signature,
            body,
            ..
        } => push_optional_body(parts, signature, body),
        DeclBody::Implementation {
            signature,
            body,
            ..
        } => push_body(parts, signature, body),
        DeclBody::Const { .. } => Ok(()),
        DeclBody::Function { .. } => Ok(()),
        DeclBody::Axiom(_) => Ok(()),
        DeclBody::Var(_) => Ok(()),
        DeclBody::TypeName { .. } => Ok(()),
    }
}

/// The parts of a declaration's lines.
pub fn push_parts<'a>(parts: &mut Parts<'a>, body: &'a DeclBody) -> Result<(), AllocError>
    ensures { OnOk result (parts.new ≡ parts.old ++ decl_parts (body_of body.now)) }
{
    push_head(parts, body)?;
    push_tail(parts, body)
}
