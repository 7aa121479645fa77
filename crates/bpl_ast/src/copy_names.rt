// Copies of names, type parameters and types. Each is equal to what it copies.
ghost use Rattle.std.specs.Prelude.{◌≡◌, IfOk};

use crate::name::{Name, TypeParams};
use crate::types::{Type, TypeForm};
use std::alloc::{AllocError, Global};

impl Name {
    /// An equal name.
    pub fn copy(&self, alloc: Global) -> Result<Name, AllocError>
        ensures { IfOk result (λ n. n ≡ self.now) }
    {
        Ok(Name {
            text: String::from_str(alloc, self.text.as_str())?,
            at: self.at,
        })
    }
}

/// Equal names.
pub fn copy_names(alloc: Global, names: &[Name]) -> Result<Vec<Name>, AllocError>
    ensures { IfOk result (λ v. v.items ≡ names.now) }
{
    let mut copies = Vec::new(alloc);
    for name in names {
        copies.push(name.copy(alloc)?)?;
    }
    Ok(copies)
}

/// An equal name, or none.
pub fn copy_optional_name(alloc: Global, name: &Option<Name>) -> Result<Option<Name>, AllocError>
    ensures { IfOk result (λ n. n ≡ name.now) }
{
    match name {
        Some(name) => Ok(Some(name.copy(alloc)?)),
        None => Ok(None),
    }
}

impl TypeParams {
    /// Equal type parameters.
    pub fn copy(&self, alloc: Global) -> Result<TypeParams, AllocError>
        ensures { IfOk result (λ p. p ≡ self.now) }
    {
        Ok(TypeParams {
            at: self.at,
            names: copy_names(alloc, &self.names)?,
        })
    }
}

/// Equal type parameters, or none.
pub fn copy_type_params(
    alloc: Global,
    params: &Option<TypeParams>,
) -> Result<Option<TypeParams>, AllocError>
    ensures { IfOk result (λ p. p ≡ params.now) }
{
    match params {
        Some(params) => Ok(Some(params.copy(alloc)?)),
        None => Ok(None),
    }
}

impl Type {
    /// An equal type.
    #[cycle(copy_type)]
    pub fn copy(&self, alloc: Global) -> Result<Type, AllocError>
        ensures { IfOk result (λ t. t ≡ self.now) }
    {
        match &self.form {
            TypeForm::Int => Ok(Type::new(self.at, TypeForm::Int)),
            TypeForm::Bool => Ok(Type::new(self.at, TypeForm::Bool)),
            TypeForm::Named(name) => Ok(Type::new(self.at, TypeForm::Named(name.copy(alloc)?))),
            TypeForm::Map(params, domain, range) => Ok(Type::new(
                self.at,
                TypeForm::Map(
                    copy_type_params(alloc, params)?,
                    copy_types(alloc, domain)?,
                    copy_boxed_type(alloc, range)?,
                ),
            )),
        }
    }
}

#[cycle(copy_type)]
fn copy_boxed_type(alloc: Global, of: &Type) -> Result<Box<Type>, AllocError>
    ensures { IfOk result (λ b. b.value ≡ of.now) }
{
    Ok(Box::new(alloc, of.copy(alloc)?)?)
}

/// Equal types.
#[cycle(copy_type)]
pub fn copy_types(alloc: Global, types: &[Type]) -> Result<Vec<Type>, AllocError>
    ensures { IfOk result (λ v. v.items ≡ types.now) }
{
    let mut copies = Vec::new(alloc);
    for of in types {
        copies.push(of.copy(alloc)?)?;
    }
    Ok(copies)
}
