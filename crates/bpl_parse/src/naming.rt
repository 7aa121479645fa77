// The names of declarations.
ghost use Rattle.std.specs.Prelude.{◌≡◌, ◌<◌, ◌-◌, ◌^◌, string_bytes, IfOk};
ghost use Rattle.bpl_ast.specs.Statement.{first_name, first_of_groups, name_of, axioms_with};
ghost use Rattle.bpl_ast.specs.ExprView.{groups_of};
ghost use Rattle.bpl_ast.specs.DeclView.{body_of};

use bpl_ast::{Decl, DeclBody, Group, Name};
use std::alloc::{AllocError, Global};

/// The first of the names.
fn first_name(alloc: Global, names: &[Name]) -> Result<String, AllocError>
    ensures { IfOk result (λ name. string_bytes name ≡ first_name names.now) }
{
    match names.first() {
        Some(name) => String::from_str(alloc, name.text.as_str()),
        None => Ok(String::new(alloc)),
    }
}

/// The first name in the groups.
fn first_of_groups(alloc: Global, groups: &[Group]) -> Result<String, AllocError>
    ensures { IfOk result (λ name. string_bytes name ≡ first_of_groups (groups_of groups.now)) }
{
    match groups.first() {
        Some(group) => first_name(alloc, &group.names),
        None => Ok(String::new(alloc)),
    }
}

/// A declaration's name, where so many axioms stand before it.
pub(crate) fn name_of(alloc: Global, axioms: usize, body: &DeclBody) -> Result<String, AllocError>
    requires { axioms < 2 ^ 64 - 1 }
    ensures { IfOk result (λ name. string_bytes name ≡ name_of axioms (body_of body.now)) }
{
    match body {
        DeclBody::Const { names, .. } => first_name(alloc, names),
        DeclBody::Axiom(_) => {
            let number = (axioms + 1).to_string(alloc)?;
            let mut name = String::from_str(alloc, "@")?;
            name.push_str(number.as_str())?;
            Ok(name)
        }
        DeclBody::Var(groups) => first_of_groups(alloc, groups),
        DeclBody::Function { name, .. } => String::from_str(alloc, name.text.as_str()),
        DeclBody::TypeName { name, .. } => String::from_str(alloc, name.text.as_str()),
        DeclBody::Procedure { name, .. } => String::from_str(alloc, name.text.as_str()),
        DeclBody::Implementation {
            name: procedure,
            ..
        } => {
            let mut name = String::from_str(alloc, "implementation ")?;
            name.push_str(procedure.text.as_str())?;
            Ok(name)
        }
    }
}

/// How many axioms there are with this declaration, where there were so many before it.
pub(crate) fn axioms_with(axioms: usize, decl: &Decl) -> usize
    requires { axioms < 2 ^ 64 - 1 }
    ensures { result ≡ axioms_with axioms decl.now.body }
{
    match decl.body() {
        DeclBody::Axiom(_) => axioms + 1,
        DeclBody::Const { .. } => axioms,
        DeclBody::Var(_) => axioms,
        DeclBody::Function { .. } => axioms,
        DeclBody::TypeName { .. } => axioms,
        DeclBody::Procedure { .. } => axioms,
        DeclBody::Implementation { .. } => axioms,
    }
}
