// What is declared in a reading of user types: the heads of declarations, where another type stands for
// each user type.
ghost use Rattle.std.specs.Prelude.{◌≡◌, [], unwrap_or, option_map, IfOk};
ghost use Rattle.bpl_ast.specs.DeclView.{body_of};
ghost use Rattle.user_types.specs.Views.{stands_by};
ghost use Rattle.body_revision.specs.ReadHeads.{head_in, heads_from};

use bpl_ast::copy_names::copy_type_params;
use bpl_ast::{Decl, DeclBody};
use std::alloc::{AllocError, Global};
use std::sync::Arc;
use user_types::Reading;
use user_types::readings::{stands_by, users_with};

// The head of a declaration, up to and with which there are so many user types, or `None` where it is the
// whole declaration.
fn head_in(
    alloc: Global,
    reading: Reading,
    users: u64,
    body: &DeclBody,
) -> Result<Option<DeclBody>, AllocError>
    ensures { IfOk result (λ b. unwrap_or (option_map body_of b) (body_of body.now) ≡ head_in (stands_by reading) users (body_of body.now)) }
{
    match body {
        DeclBody::TypeName {
            name,
            synonym: None,
        } => Ok(Some(DeclBody::TypeName {
            name: name.copy(alloc)?,
            synonym: Some(stands_by(alloc, reading, users, name.at)?),
        })),
        DeclBody::TypeName {
            name: _,
            synonym: Some(_),
        } => Ok(None),
        DeclBody::Const { .. } => Ok(None),
        DeclBody::Function { .. } => Ok(None),
        DeclBody::Var(_) => Ok(None),
        DeclBody::Axiom(_) => Ok(Some(DeclBody::Var(Vec::new(alloc)))),
        DeclBody::Implementation { .. } => Ok(Some(DeclBody::Var(Vec::new(alloc)))),
        DeclBody::Procedure {
            name,
            params,
            signature,
            specs,
            body: _,
        } => Ok(Some(DeclBody::Procedure {
            name: name.copy(alloc)?,
            params: copy_type_params(alloc, params)?,
            signature: Arc::try_clone(signature)?,
            specs: Arc::try_clone(specs)?,
            body: None,
        })),
    }
}

fn head_decl(alloc: Global, reading: Reading, users: u64, decl: &Decl) -> Result<Decl, AllocError>
    ensures { IfOk result (λ d. d ≡ record { name = []; start = decl.now.start; finish = decl.now.finish; source = []; body = head_in (stands_by reading) users decl.now.body }) }
{
    let body = head_in(alloc, reading, users, decl.body())?;
    let head = decl.changed(alloc, String::new(alloc), Vec::new(alloc), body)?;
    Ok(head)
}

/// The heads of declarations, in order: names and types of what is declared, functions with their
/// values, and contracts, where what stands for a user type in the reading is its synonym. They have their
/// parts in common with the declarations. The only error is want of memory.
pub fn read_heads(alloc: Global, reading: Reading, decls: &[Decl]) -> Result<Vec<Decl>, AllocError>
    ensures { IfOk result (λ v. v.items ≡ heads_from (stands_by reading) 0 decls.now) }
{
    let mut made = Vec::new(alloc);
    let mut users = 0;
    for decl in decls {
        users = users_with(users, decl.body())?;
        made.push(head_decl(alloc, reading, users, decl)?)?;
    }
    Ok(made)
}
