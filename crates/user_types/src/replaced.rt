// The program's own declarations without user types.
ghost use Rattle.std.specs.Prelude.{◌≡◌, unwrap_or, option_map, IfOk};
ghost use Rattle.bpl_ast.specs.Statement.{constant};
ghost use Rattle.bpl_ast.specs.DeclView.{body_of};
ghost use Rattle.user_types.specs.UserTypes.{user_of};
ghost use Rattle.user_types.specs.Erased.{kept_unique, replaced_body, replaced_from};
ghost use Rattle.user_types.specs.Views.{stands_by};

use crate::readings::{Reading, stands_by, users_with};
use crate::users::user_of;
use bpl_ast::copy_names::copy_names;
use bpl_ast::{Decl, DeclBody, Name, Place, Type};
use bpl_scopes::Table;
use std::alloc::{AllocError, Global};

fn replaced_constants(
    alloc: Global,
    table: &Table,
    unique: Option<Place>,
    names: &[Name],
    of: &Type,
) -> Result<DeclBody, AllocError>
    ensures { IfOk result (λ b. body_of b ≡ constant (kept_unique (user_of table.now of.now) unique) names.now of.now) }
{
    let unique = match user_of(table, of) {
        Some(_) => None,
        None => unique,
    };
    Ok(DeclBody::Const {
        unique,
        names: copy_names(alloc, names)?,
        of: of.copy(alloc)?,
    })
}

// What a declaration becomes, up to and with which there are so many user types, or `None` where it stays
// as it is.
fn replaced_body(
    alloc: Global,
    table: &Table,
    reading: Reading,
    users: u64,
    body: &DeclBody,
) -> Result<Option<DeclBody>, AllocError>
    ensures { IfOk result (λ b. unwrap_or (option_map body_of b) (body_of body.now) ≡ replaced_body (stands_by reading) table.now users (body_of body.now)) }
{
    match body {
        DeclBody::Const { unique, names, of } => {
            let constants = replaced_constants(alloc, table, *unique, names, of)?;
            Ok(Some(constants))
        }
        DeclBody::TypeName {
            name,
            synonym: None,
        } => Ok(Some(DeclBody::TypeName {
            name: name.copy(alloc)?,
            synonym: Some(stands_by(alloc, reading, users, name.at)?),
        })),
        DeclBody::TypeName {
            name: _,
            synonym: Some(_),
        } => Ok(None),
        DeclBody::Function { .. } => Ok(None),
        DeclBody::Axiom(_) => Ok(None),
        DeclBody::Var(_) => Ok(None),
        DeclBody::Procedure { .. } => Ok(None),
        DeclBody::Implementation { .. } => Ok(None),
    }
}

fn replaced_decl(
    alloc: Global,
    table: &Table,
    reading: Reading,
    users: u64,
    decl: &Decl,
) -> Result<Decl, AllocError>
    ensures { IfOk result (λ d. d ≡ record decl.now { body = replaced_body (stands_by reading) table.now users decl.now.body }) }
{
    let name = String::from_str(alloc, decl.name.as_str())?;
    let source = decl.source.clone()?;
    let body = replaced_body(alloc, table, reading, users, decl.body())?;
    let made = decl.changed(alloc, name, source, body)?;
    Ok(made)
}

/// The declarations without user types, for which something else stands, and without `unique` on
/// their constants. Those that stay as they are have their bodies in common with these.
pub(crate) fn replaced(
    alloc: Global,
    table: &Table,
    reading: Reading,
    decls: &[Decl],
) -> Result<Vec<Decl>, AllocError>
    ensures { IfOk result (λ v. v.items ≡ replaced_from (stands_by reading) table.now 0 decls.now) }
{
    let mut made = Vec::new(alloc);
    let mut users = 0;
    for decl in decls {
        users = users_with(users, decl.body())?;
        made.push(replaced_decl(alloc, table, reading, users, decl)?)?;
    }
    Ok(made)
}
