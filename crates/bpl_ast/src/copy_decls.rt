// Copies of declarations and of what stands in them. Each is equal to what it copies.
ghost use Rattle.std.specs.Prelude.{◌≡◌, IfOk};
ghost use Rattle.bpl_ast.specs.DeclView.{body_of};

use crate::copy_exprs::{copy_each_groups, copy_groups, copy_optional_expr};
use crate::copy_names::{copy_names, copy_optional_name, copy_type_params};
use crate::copy_stmts::copy_stmts;
use crate::decl::{Argument, Body, Decl, DeclBody, Program, Signature, Spec, SpecForm};
use crate::types::Type;
use std::alloc::{AllocError, Global};
use std::sync::Arc;

impl Spec {
    /// An equal clause.
    pub fn copy(&self, alloc: Global) -> Result<Spec, AllocError>
        ensures { IfOk result (λ s. s ≡ self.now) }
    {
        let at = self.at;
        match &self.form {
            SpecForm::Requires { free, formula } => Ok(Spec {
                at,
                form: SpecForm::Requires {
                    free: *free,
                    formula: formula.copy(alloc)?,
                },
            }),
            SpecForm::Ensures { free, formula } => Ok(Spec {
                at,
                form: SpecForm::Ensures {
                    free: *free,
                    formula: formula.copy(alloc)?,
                },
            }),
            SpecForm::Modifies(names) => Ok(Spec {
                at,
                form: SpecForm::Modifies(copy_names(alloc, names)?),
            }),
        }
    }
}

impl Body {
    /// An equal body.
    pub fn copy(&self, alloc: Global) -> Result<Body, AllocError>
        ensures { IfOk result (λ b. b ≡ self.now) }
    {
        Ok(Body {
            locals: copy_each_groups(alloc, &self.locals)?,
            stmts: copy_stmts(alloc, &self.stmts)?,
        })
    }
}

fn copy_optional_body(alloc: Global, body: &Option<Body>) -> Result<Option<Body>, AllocError>
    ensures { IfOk result (λ b. b ≡ body.now) }
{
    match body {
        Some(body) => Ok(Some(body.copy(alloc)?)),
        None => Ok(None),
    }
}

impl Signature {
    /// An equal signature.
    pub fn copy(&self, alloc: Global) -> Result<Signature, AllocError>
        ensures { IfOk result (λ s. s ≡ self.now) }
    {
        Ok(Signature {
            ins: copy_groups(alloc, &self.ins)?,
            outs: copy_groups(alloc, &self.outs)?,
        })
    }
}

impl Argument {
    /// An equal parameter.
    pub fn copy(&self, alloc: Global) -> Result<Argument, AllocError>
        ensures { IfOk result (λ a. a ≡ self.now) }
    {
        Ok(Argument {
            name: copy_optional_name(alloc, &self.name)?,
            of: self.of.copy(alloc)?,
        })
    }
}

/// Equal parameters.
pub fn copy_arguments(alloc: Global, arguments: &[Argument]) -> Result<Vec<Argument>, AllocError>
    ensures { IfOk result (λ v. v.items ≡ arguments.now) }
{
    let mut copies = Vec::new(alloc);
    for argument in arguments {
        copies.push(argument.copy(alloc)?)?;
    }
    Ok(copies)
}

fn copy_optional_type(alloc: Global, of: &Option<Type>) -> Result<Option<Type>, AllocError>
    ensures { IfOk result (λ t. t ≡ of.now) }
{
    match of {
        Some(of) => Ok(Some(of.copy(alloc)?)),
        None => Ok(None),
    }
}

impl DeclBody {
    /// An equal declaration. A procedure has its signature and its clauses in memory once, with its copies.
    pub fn copy(&self, alloc: Global) -> Result<DeclBody, AllocError>
        ensures { IfOk result (λ b. body_of b ≡ body_of self.now) }
    {
        match self {
            DeclBody::Const { unique, names, of } => Ok(DeclBody::Const {
                unique: *unique,
                names: copy_names(alloc, names)?,
                of: of.copy(alloc)?,
            }),
            DeclBody::Function {
                name,
                params,
                arguments,
                of,
                value,
            } => Ok(DeclBody::Function {
                name: name.copy(alloc)?,
                params: copy_type_params(alloc, params)?,
                arguments: copy_arguments(alloc, arguments)?,
                of: of.copy(alloc)?,
                value: copy_optional_expr(alloc, value)?,
            }),
            DeclBody::Axiom(x) => Ok(DeclBody::Axiom(x.copy(alloc)?)),
            DeclBody::Var(groups) => Ok(DeclBody::Var(copy_groups(alloc, groups)?)),
            DeclBody::TypeName { name, synonym } => Ok(DeclBody::TypeName {
                name: name.copy(alloc)?,
                synonym: copy_optional_type(alloc, synonym)?,
            }),
            DeclBody::Procedure {
                name,
                params,
                signature,
                specs,
                body,
            } => Ok(DeclBody::Procedure {
                name: name.copy(alloc)?,
                params: copy_type_params(alloc, params)?,
                signature: Arc::try_clone(signature)?,
                specs: Arc::try_clone(specs)?,
                body: copy_optional_body(alloc, body)?,
            }),
            DeclBody::Implementation {
                name,
                params,
                signature,
                body,
            } => Ok(DeclBody::Implementation {
                name: name.copy(alloc)?,
                params: copy_type_params(alloc, params)?,
                signature: signature.copy(alloc)?,
                body: body.copy(alloc)?,
            }),
        }
    }
}

/// Equal declarations.
pub fn copy_decls(alloc: Global, decls: &[Decl]) -> Result<Vec<Decl>, AllocError>
    ensures { IfOk result (λ v. v.items ≡ decls.now) }
{
    let mut copies = Vec::new(alloc);
    for decl in decls {
        copies.push(decl.copy(alloc)?)?;
    }
    Ok(copies)
}

impl Program {
    /// An equal program.
    pub fn copy(&self, alloc: Global) -> Result<Program, AllocError>
        ensures { IfOk result (λ p. p ≡ self.now) }
    {
        Ok(Program {
            decls: copy_decls(alloc, &self.decls)?,
        })
    }
}
