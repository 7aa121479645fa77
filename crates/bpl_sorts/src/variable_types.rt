// The types of constants and of variables.
ghost use Rattle.std.specs.Prelude.{◌≡◌, ◌++◌, map, flat_map, IfOk, OnOk};
ghost use Rattle.bpl_ast.specs.DeclView.{body_of};
ghost use Rattle.bpl_ast.specs.ExprView.{groups_of, each_groups_of};
ghost use Rattle.bpl_scopes.specs.Scopes.{names_of};
ghost use Rattle.bpl_declaration_faults.specs.Variables.{locals_of};
ghost use Rattle.bpl_sorts.specs.TypeNames.{type_over};
ghost use Rattle.bpl_sorts.specs.TypeShapes.{shape_type};
ghost use Rattle.bpl_sorts.specs.TypesView.{tys_seen};
ghost use Rattle.bpl_sorts.specs.DeclaredTypes.{types_named, const_types_in, global_types_in};

use crate::type_names::{Shape, TypeNames};
use crate::value_types::Ty;
use bpl_ast::{Decl, DeclBody, Group, Name, Type};
use std::alloc::{AllocError, Global};

// Puts the type behind others, once for each name.
fn push_each(
    alloc: Global,
    shape: Shape,
    names: &[Name],
    types: &mut Vec<Ty>,
) -> Result<(), AllocError>
    ensures { OnOk result (tys_seen types.new.items ≡ tys_seen types.old.items ++ map (λ n. shape_type shape) names.now) }
{
    for _name in names {
        types.push(shape.ty(alloc)?)?;
    }
    Ok(())
}

fn push_named(
    alloc: Global,
    known: &TypeNames,
    names: &[Name],
    of: &Type,
    types: &mut Vec<Ty>,
) -> Result<(), AllocError>
    ensures { OnOk result (tys_seen types.new.items ≡ tys_seen types.old.items ++ map (λ n. type_over known.now of.now) names.now) }
{
    let shape = known.shape_of(of)?;
    push_each(alloc, shape, names, types)
}

/// Puts the types of the variables of groups behind others.
pub(crate) fn push_group_types(
    alloc: Global,
    known: &TypeNames,
    groups: &[Group],
    types: &mut Vec<Ty>,
) -> Result<(), AllocError>
    ensures { OnOk result (tys_seen types.new.items ≡ tys_seen types.old.items ++ types_named known.now (names_of (groups_of groups.now))) }
{
    for group in groups {
        push_named(alloc, known, &group.names, &group.of, types)?;
    }
    Ok(())
}

/// Puts the types of the variables of each `var` behind others.
pub(crate) fn push_each_groups(
    alloc: Global,
    known: &TypeNames,
    groups: &[Vec<Group>],
    types: &mut Vec<Ty>,
) -> Result<(), AllocError>
    ensures { OnOk result (tys_seen types.new.items ≡ tys_seen types.old.items ++ types_named known.now (locals_of (each_groups_of groups.now))) }
{
    for declared in groups {
        push_group_types(alloc, known, declared, types)?;
    }
    Ok(())
}

fn push_consts(
    alloc: Global,
    known: &TypeNames,
    body: &DeclBody,
    types: &mut Vec<Ty>,
) -> Result<(), AllocError>
    ensures { OnOk result (tys_seen types.new.items ≡ tys_seen types.old.items ++ const_types_in known.now (body_of body.now)) }
{
    match body {
        DeclBody::Const { names, of, .. } => push_named(alloc, known, names, of, types),
        DeclBody::Function { .. } => Ok(()),
        DeclBody::Axiom(_) => Ok(()),
        DeclBody::Var(_) => Ok(()),
        DeclBody::TypeName { .. } => Ok(()),
        DeclBody::Procedure { .. } => Ok(()),
        DeclBody::Implementation { .. } => Ok(()),
    }
}

/// The types of the constants that declarations declare.
pub(crate) fn const_types(
    alloc: Global,
    known: &TypeNames,
    decls: &[Decl],
) -> Result<Vec<Ty>, AllocError>
    ensures { IfOk result (λ v. tys_seen v.items ≡ flat_map (λ d. const_types_in known.now d.body) decls.now) }
{
    let mut types = Vec::new(alloc);
    for decl in decls {
        push_consts(alloc, known, decl.body(), &mut types)?;
    }
    Ok(types)
}

fn push_globals(
    alloc: Global,
    known: &TypeNames,
    body: &DeclBody,
    types: &mut Vec<Ty>,
) -> Result<(), AllocError>
    ensures { OnOk result (tys_seen types.new.items ≡ tys_seen types.old.items ++ global_types_in known.now (body_of body.now)) }
{
    match body {
        DeclBody::Var(groups) => push_group_types(alloc, known, groups, types),
        DeclBody::Const { .. } => Ok(()),
        DeclBody::Function { .. } => Ok(()),
        DeclBody::Axiom(_) => Ok(()),
        DeclBody::TypeName { .. } => Ok(()),
        DeclBody::Procedure { .. } => Ok(()),
        DeclBody::Implementation { .. } => Ok(()),
    }
}

/// The types of the global variables that declarations declare.
pub(crate) fn global_types(
    alloc: Global,
    known: &TypeNames,
    decls: &[Decl],
) -> Result<Vec<Ty>, AllocError>
    ensures { IfOk result (λ v. tys_seen v.items ≡ flat_map (λ d. global_types_in known.now d.body) decls.now) }
{
    let mut types = Vec::new(alloc);
    for decl in decls {
        push_globals(alloc, known, decl.body(), &mut types)?;
    }
    Ok(types)
}
