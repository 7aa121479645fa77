// The two readings of user types, and what stands for one of them in each.
ghost use Rattle.std.specs.Prelude.{◌≡◌, None, IfOk};
ghost use Rattle.bpl_ast.specs.Place.{integer, map_type, no_tys, ty};
ghost use Rattle.bpl_ast.specs.DeclView.{body_of};
ghost use Rattle.user_types.specs.Erased.{users_with, maps_over};
ghost use Rattle.user_types.specs.Views.{stands_by};

use bpl_ast::{DeclBody, Place, Type, TypeForm};
use std::alloc::{AllocError, Global};

/// What stands for user types: the integers for all of them, or another type for each.
#[derive(Clone, Copy)]
pub enum Reading {
    Integers,
    Apart,
}

/// How many user types there are with this declaration. No memory holds as many as a count of 64
/// bits doesn't hold.
pub fn users_with(users: u64, body: &DeclBody) -> Result<u64, AllocError>
    ensures { IfOk result (λ n. n ≡ users_with users (body_of body.now)) }
{
    match body {
        DeclBody::TypeName {
            name: _,
            synonym: None,
        } => match users.checked_add(1) {
            Some(sum) => Ok(sum),
            None => Err(AllocError),
        },
        DeclBody::TypeName {
            name: _,
            synonym: Some(_),
        } => Ok(users),
        DeclBody::Const { .. } => Ok(users),
        DeclBody::Function { .. } => Ok(users),
        DeclBody::Axiom(_) => Ok(users),
        DeclBody::Var(_) => Ok(users),
        DeclBody::Procedure { .. } => Ok(users),
        DeclBody::Implementation { .. } => Ok(users),
    }
}

// The maps from integers to values of a type.
fn map_to(alloc: Global, at: Place, range: Type) -> Result<Type, AllocError>
    ensures { IfOk result (λ t. t ≡ map_type at None (ty (integer at) no_tys) range) }
{
    let mut domain = Vec::new(alloc);
    domain.push(Type::new(at, TypeForm::Int))?;
    let range = Box::new(alloc, range)?;
    Ok(Type::new(at, TypeForm::Map(None, domain, range)))
}

// So many maps over the truth values.
fn maps_over(alloc: Global, count: u64, at: Place) -> Result<Type, AllocError>
    ensures { IfOk result (λ t. t ≡ maps_over count at) }
{
    let mut made = Type::new(at, TypeForm::Bool);
    for depth in 0..count {
        made = map_to(alloc, at, made)?;
    }
    Ok(made)
}

/// What stands for the user type of this number. The only error is want of memory.
pub fn stands_by(
    alloc: Global,
    reading: Reading,
    number: u64,
    at: Place,
) -> Result<Type, AllocError>
    ensures { IfOk result (λ t. t ≡ stands_by reading number at) }
{
    match reading {
        Reading::Integers => Ok(Type::new(at, TypeForm::Int)),
        Reading::Apart => maps_over(alloc, number, at),
    }
}
