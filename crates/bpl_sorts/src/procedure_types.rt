// The types of the parameters and locals of procedures.
ghost use Rattle.std.specs.Prelude.{◌≡◌, ◌++◌, map, flat_map, option_map, IfOk, OnOk};
ghost use Rattle.bpl_ast.specs.DeclView.{body_of};
ghost use Rattle.bpl_resolve.specs.Elaborate.{or_else, own_body, implementation_of};
ghost use Rattle.bpl_resolve.specs.Implemented.{name_of_body, body_given, names_of_bodies, bodies_given, body_at};
ghost use Rattle.bpl_sorts.specs.BodiesFound.{implemented_seen, bodies_seen, found_under};
ghost use Rattle.bpl_sorts.specs.TypesView.{tys_seen, lists_seen, in_one_list};
ghost use Rattle.bpl_sorts.specs.DeclaredTypes.{local_types, proc_types, proc_types_in};

use crate::type_names::TypeNames;
use crate::value_types::Ty;
use crate::variable_types::{push_each_groups, push_group_types};
use bpl_ast::{Body, Decl, DeclBody, Name, Signature};
use bpl_scopes::Positions;
use std::alloc::{AllocError, Global};

/// A body, with the parameters of the declaration in which it stands.
pub(crate) type Implemented<'a> = (&'a Signature, &'a Body);

/// The bodies of implementations, each beside the name of its procedure. Of several with one name
/// the first counts.
#[derive(Drop)]
pub(crate) struct Implementations<'a> {
    pub names: Positions<'a>,
    pub bodies: Vec<Implemented<'a>>,
}

fn body_at<'a>(bodies: &[Implemented<'a>], at: Option<usize>) -> Option<Implemented<'a>>
    ensures { option_map implemented_seen result ≡ body_at (bodies_seen bodies.now) at }
{
    match at {
        Some(at) => match bodies.get(at) {
            Some(body) => Some(*body),
            None => None,
        },
        None => None,
    }
}

impl<'a> Implementations<'a> {
    // Puts what a declaration implements behind the others.
    fn push(&mut self, body: &'a DeclBody) -> Result<(), AllocError>
        ensures names { OnOk result (self.new.names ≡ self.old.names ++ name_of_body (body_of body.now)) }
        ensures bodies { OnOk result (bodies_seen self.new.bodies.items ≡ bodies_seen self.old.bodies.items ++ body_given (body_of body.now)) }
    {
        match body {
            DeclBody::Implementation {
                name,
                signature,
                body,
                ..
            } => {
                self.names.push(name.text.as_bytes())?;
                self.bodies.push((signature, body))?;
                Ok(())
            }
            DeclBody::Const { .. } => Ok(()),
            DeclBody::Function { .. } => Ok(()),
            DeclBody::Axiom(_) => Ok(()),
            DeclBody::Var(_) => Ok(()),
            DeclBody::TypeName { .. } => Ok(()),
            DeclBody::Procedure { .. } => Ok(()),
        }
    }

    // The implementations among these declarations.
    fn of(alloc: Global, decls: &'a [Decl]) -> Result<Implementations<'a>, AllocError>
        ensures names { IfOk result (λ r. r.names ≡ names_of_bodies decls.now) }
        ensures bodies { IfOk result (λ r. bodies_seen r.bodies.items ≡ bodies_given decls.now) }
    {
        let mut found = Implementations {
            names: Positions::new(alloc),
            bodies: Vec::new(alloc),
        };
        for decl in decls {
            found.push(decl.body())?;
        }
        Ok(found)
    }

    // The first body for a procedure.
    fn find(&self, name: &[u8]) -> Option<Implemented<'a>>
        ensures { option_map implemented_seen result ≡ found_under self.now name.now }
    {
        body_at(&self.bodies, self.names.find(name))
    }
}

// A procedure's own body, or that of its implementation.
fn implemented_by<'a>(
    implementations: &Implementations<'a>,
    name: &Name,
    signature: &'a Signature,
    body: &'a Option<Body>,
) -> Option<Implemented<'a>>
    ensures { option_map implemented_seen result ≡ or_else (own_body signature.now body.now) (found_under implementations.now name.now.text) }
{
    match body {
        Some(body) => Some((signature, body)),
        None => implementations.find(name.text.as_bytes()),
    }
}

fn push_locals(
    alloc: Global,
    known: &TypeNames,
    implemented: Option<Implemented>,
    types: &mut Vec<Ty>,
) -> Result<(), AllocError>
    ensures { OnOk result (tys_seen types.new.items ≡ tys_seen types.old.items ++ local_types known.now (option_map implemented_seen implemented.entry)) }
{
    match implemented {
        Some(found) => {
            let body = found.1;
            push_each_groups(alloc, known, &body.locals, types)
        }
        None => Ok(()),
    }
}

// The types of the variables of a procedure, where this is its body.
fn types_of(
    alloc: Global,
    known: &TypeNames,
    signature: &Signature,
    implemented: Option<Implemented>,
) -> Result<Vec<Ty>, AllocError>
    ensures { IfOk result (λ v. tys_seen v.items ≡ in_one_list (proc_types known.now signature.now (option_map implemented_seen implemented.entry))) }
{
    let mut types = Vec::new(alloc);
    push_group_types(alloc, known, &signature.ins, &mut types)?;
    push_group_types(alloc, known, &signature.outs, &mut types)?;
    push_locals(alloc, known, implemented, &mut types)?;
    Ok(types)
}

fn push_procedure(
    alloc: Global,
    known: &TypeNames,
    implementations: &Implementations,
    body: &DeclBody,
    procs: &mut Vec<Vec<Ty>>,
) -> Result<(), AllocError>
    ensures { OnOk result (lists_seen procs.new.items ≡ lists_seen procs.old.items ++ map in_one_list (proc_types_in known.now (found_under implementations.now) (body_of body.now))) }
{
    match body {
        DeclBody::Procedure {
            name,
            signature,
            body,
            ..
        } => {
            let implemented = implemented_by(implementations, name, signature, body);
            procs.push(types_of(alloc, known, signature, implemented)?)?;
            Ok(())
        }
        DeclBody::Const { .. } => Ok(()),
        DeclBody::Function { .. } => Ok(()),
        DeclBody::Axiom(_) => Ok(()),
        DeclBody::Var(_) => Ok(()),
        DeclBody::TypeName { .. } => Ok(()),
        DeclBody::Implementation { .. } => Ok(()),
    }
}

fn types_with(
    alloc: Global,
    known: &TypeNames,
    implementations: &Implementations,
    decls: &[Decl],
) -> Result<Vec<Vec<Ty>>, AllocError>
    ensures { IfOk result (λ v. lists_seen v.items ≡ flat_map (λ d. map in_one_list (proc_types_in known.now (found_under implementations.now) d.body)) decls.now) }
{
    let mut procs = Vec::new(alloc);
    for decl in decls {
        push_procedure(alloc, known, implementations, decl.body(), &mut procs)?;
    }
    Ok(procs)
}

/// The types of the procedures that declarations declare, those of each procedure in one list.
pub(crate) fn procedure_types(
    alloc: Global,
    known: &TypeNames,
    decls: &[Decl],
) -> Result<Vec<Vec<Ty>>, AllocError>
    ensures { IfOk result (λ v. lists_seen v.items ≡ map in_one_list (flat_map (λ d. proc_types_in known.now (implementation_of decls.now) d.body) decls.now)) }
{
    let implementations = Implementations::of(alloc, decls)?;
    types_with(alloc, known, &implementations, decls)
}
