// The bodies of implementations, found by hash under the names of their procedures.
ghost use Rattle.std.specs.Prelude.{◌≡◌, ◌++◌, option_map, slice_get, IfOk, OnOk};
ghost use Rattle.bpl_resolve.specs.Implemented.{implemented_seen, bodies_seen, name_of_body, body_given, names_of_bodies, bodies_given, body_at, body_for};

use bpl_ast::{Body, Decl, DeclBody, Signature};
use bpl_scopes::Positions;
use std::alloc::{AllocError, Global};

/// A body, with the parameters of the declaration in which it stands.
#[derive(Clone, Copy)]
pub struct Implemented<'a> {
    pub signature: &'a Signature,
    pub body: &'a Body,
}

/// The bodies of implementations, each beside the name of its procedure. Of several with one name
/// the first counts.
#[derive(Drop)]
pub(crate) struct Implementations<'a> {
    pub names: Positions<'a>,
    pub bodies: Vec<Implemented<'a>>,
}

// Puts the name of a procedure behind others, where the declaration implements one.
fn push_name<'a>(names: &mut Positions<'a>, decl: &'a Decl) -> Result<(), AllocError>
    ensures { OnOk result (names.new ≡ names.old ++ name_of_body decl.now.body) }
{
    match decl.body() {
        DeclBody::Implementation { name, .. } => {
            names.push(name.text.as_bytes())?;
            Ok(())
        }
        DeclBody::Const { .. } => Ok(()),
        DeclBody::Function { .. } => Ok(()),
        DeclBody::Axiom(_) => Ok(()),
        DeclBody::Var(_) => Ok(()),
        DeclBody::TypeName { .. } => Ok(()),
        DeclBody::Procedure { .. } => Ok(()),
    }
}

// Puts the body behind others, where the declaration implements a procedure.
fn push_body<'a>(bodies: &mut Vec<Implemented<'a>>, decl: &'a Decl) -> Result<(), AllocError>
    ensures { OnOk result (bodies_seen bodies.new.items ≡ bodies_seen bodies.old.items ++ body_given decl.now.body) }
{
    match decl.body() {
        DeclBody::Implementation {
            signature,
            body,
            ..
        } => {
            bodies.push(Implemented { signature, body })?;
            Ok(())
        }
        DeclBody::Const { .. } => Ok(()),
        DeclBody::Function { .. } => Ok(()),
        DeclBody::Axiom(_) => Ok(()),
        DeclBody::Var(_) => Ok(()),
        DeclBody::TypeName { .. } => Ok(()),
        DeclBody::Procedure { .. } => Ok(()),
    }
}

fn body_at<'a>(bodies: &[Implemented<'a>], at: Option<usize>) -> Option<Implemented<'a>>
    ensures { option_map implemented_seen result ≡ body_at (bodies_seen bodies.now) at }
{
    match at {
        Some(at) => match bodies.get(at) {
            Some(body) => Some(*body),
            None => None,
        },
        None => None,
    }
}

fn names_of_bodies<'a>(alloc: Global, decls: &'a [Decl]) -> Result<Positions<'a>, AllocError>
    ensures { IfOk result (λ p. p ≡ names_of_bodies decls.now) }
{
    let mut names = Positions::new(alloc);
    for decl in decls {
        push_name(&mut names, decl)?;
    }
    Ok(names)
}

fn bodies_given<'a>(alloc: Global, decls: &'a [Decl]) -> Result<Vec<Implemented<'a>>, AllocError>
    ensures { IfOk result (λ v. bodies_seen v.items ≡ bodies_given decls.now) }
{
    let mut bodies = Vec::new(alloc);
    for decl in decls {
        push_body(&mut bodies, decl)?;
    }
    Ok(bodies)
}

impl<'a> Implementations<'a> {
    /// The implementations among these declarations.
    pub fn of(alloc: Global, decls: &'a [Decl]) -> Result<Implementations<'a>, AllocError>
        ensures names { IfOk result (λ r. r.names ≡ names_of_bodies decls.now) }
        ensures bodies { IfOk result (λ r. bodies_seen r.bodies.items ≡ bodies_given decls.now) }
    {
        let names = names_of_bodies(alloc, decls)?;
        let bodies = bodies_given(alloc, decls)?;
        Ok(Implementations { names, bodies })
    }

    /// The first body for a procedure.
    pub fn find(&self, name: &[u8]) -> Option<Implemented<'a>>
        ensures { option_map implemented_seen result ≡ body_for self.now.names (bodies_seen self.now.bodies.items) name.now }
    {
        body_at(&self.bodies, self.names.find(name))
    }
}
