// One procedure, and how many procedures stand before it.
ghost use Rattle.std.specs.Prelude.{◌≡◌, [], ◌∷◌, count_by, option_map, IfOk, IsTrue};
ghost use Rattle.bpl_scopes.specs.CountsView.{counts_seen};
ghost use Rattle.bpl_scopes.specs.Functions.{in_number_order};
ghost use Rattle.bpl_resolve.specs.Elaborate.{or_else, own_body, implements, procs_in};
ghost use Rattle.bpl_resolve.specs.Implemented.{implemented_seen};
ghost use Rattle.body_revision.specs.Procedures.{is_procedure};

use crate::places::is_procedure;
use bpl_ast::{Body, Decl, DeclBody, Name, Signature};
use bpl_declaration_faults::Declared;
use bpl_model::Proc;
use bpl_resolve::implementations::Implemented;
use bpl_resolve::procedures::procedure;
use bpl_scopes::Positions;
use std::alloc::{AllocError, Global};

/// How many of the declarations declare procedures.
pub(crate) fn count_procedures(decls: &[Decl]) -> usize
    ensures { result ≡ count_by (λ d. is_procedure d.body) decls.now }
{
    let mut count = 0;
    for decl in decls {
        if is_procedure(decl.body()) {
            count += 1;
        }
    }
    count
}

// The body that an implementation gives the procedure of this name.
fn given_by<'a>(decl: &'a Decl, name: &Name) -> Option<Implemented<'a>>
    ensures { option_map implemented_seen result ≡ implements name.now.text decl.now.body }
{
    match decl.body() {
        DeclBody::Implementation {
            name: implemented,
            signature,
            body,
            ..
        } => {
            if implemented.text.as_bytes() == name.text.as_bytes() {
                Some(Implemented { signature, body })
            } else {
                None
            }
        }
        DeclBody::Const { .. } => None,
        DeclBody::Function { .. } => None,
        DeclBody::Axiom(_) => None,
        DeclBody::Var(_) => None,
        DeclBody::TypeName { .. } => None,
        DeclBody::Procedure { .. } => None,
    }
}

// A procedure's own body, or the one that the declaration gives it.
#[tactic(auto, using(crate::proofs::KeptBodies::given_alone))]
fn own_or_given<'a>(
    name: &Name,
    signature: &'a Signature,
    body: &'a Option<Body>,
    by: &'a Decl,
) -> Option<Implemented<'a>>
    ensures { option_map implemented_seen result ≡ or_else (own_body signature.now body.now) (or_else (implements name.now.text by.now.body) None) }
{
    match body {
        Some(body) => Some(Implemented { signature, body }),
        None => given_by(by, name),
    }
}

/// The procedure that a declaration declares, where this declaration alone implements any.
pub(crate) fn procedure_of<'d, 'a>(
    alloc: Global,
    declared: &Declared<'d, 'a>,
    order: &Positions,
    of: &'a Decl,
    by: &'a Decl,
) -> Result<Proc, AllocError>
    requires order { order.now ≡ in_number_order declared.now.environment.now }
    requires body { IsTrue (is_procedure of.now.body) }
    ensures { IfOk result (λ p. procs_in (by.now ∷ []) declared.now.environment.now (counts_seen declared.now.counts) of.now.body ≡ p ∷ []) }
{
    match of.body() {
        DeclBody::Procedure {
            name,
            signature,
            specs,
            body,
            ..
        } => {
            let given = own_or_given(name, signature, body, by);
            let proc = procedure(alloc, declared, order, name, signature, specs, given)?;
            Ok(proc)
        }
        _ => unreachable!(),
    }
}
