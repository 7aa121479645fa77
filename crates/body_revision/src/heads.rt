// Whether one declaration is a revision of another.
ghost use Rattle.std.specs.Prelude.{◌≡◌, ◌⊎◌, IsTrue, IfOk, IfSome, is_some};
ghost use Rattle.bpl_ast.specs.DeclView.{body_of};
ghost use Rattle.body_revision.specs.Procedures.{is_procedure, is_implementation};
ghost use Rattle.body_revision.specs.Revised.{names_modified, HasParts, IsImplementation, IsOtherImplementation, IsOtherAxiom, IsOtherFunction, IsRevised};

use crate::axioms::is_other_axiom;
use crate::functions::is_other_function;
use crate::names::{same_name, same_optional_params};
use crate::specs::{same_modified, same_signature};
use bpl_ast::{DeclBody, Name, Signature, Spec, TypeParams};
use std::alloc::{AllocError, Global};

// What stands before the clauses of a procedure, or before an implementation's body.
#[derive(Clone, Copy)]
struct Head<'a> {
    name: &'a Name,
    params: &'a Option<TypeParams>,
    signature: &'a Signature,
}

// A procedure: its head, its clauses, and whether it has a body.
#[derive(Clone, Copy)]
struct Parts<'a> {
    head: Head<'a>,
    specs: &'a [Spec],
    has_body: bool,
}

fn parts_of(decl: &DeclBody) -> Option<Parts<'_>>
    ensures parts { IfSome result (λ p. HasParts (body_of decl.now) p.head.name.now p.head.params.now p.head.signature.now p.specs.now p.has_body) }
    ensures told { is_some result ≡ is_procedure (body_of decl.now) }
{
    match decl {
        DeclBody::Procedure {
            name,
            params,
            signature,
            specs,
            body,
        } => Some(Parts {
            head: Head {
                name,
                params,
                signature,
            },
            specs,
            has_body: body.is_some(),
        }),
        _ => None,
    }
}

fn head_of(decl: &DeclBody) -> Option<Head<'_>>
    ensures head { IfSome result (λ h. IsImplementation (body_of decl.now) h.name.now h.params.now h.signature.now) }
    ensures told { is_some result ≡ is_implementation (body_of decl.now) }
{
    match decl {
        DeclBody::Implementation {
            name,
            params,
            signature,
            body: _,
        } => Some(Head {
            name,
            params,
            signature,
        }),
        _ => None,
    }
}

fn same_head(mine: &Head<'_>, theirs: &Head<'_>) -> bool
    ensures equal { IsTrue result → (mine.now.name.now ≡ theirs.now.name.now) × ((mine.now.params.now ≡ theirs.now.params.now) × (mine.now.signature.now ≡ theirs.now.signature.now)) }
    ensures told { (mine.now.name.now ≡ theirs.now.name.now) × ((mine.now.params.now ≡ theirs.now.params.now) × (mine.now.signature.now ≡ theirs.now.signature.now)) → IsTrue result }
{
    same_name(mine.name, theirs.name)
        && same_optional_params(mine.params, theirs.params)
        && same_signature(mine.signature, theirs.signature)
}

// Whether two procedures have one head, and both have a body, or none has.
fn same_parts(mine: &Parts<'_>, theirs: &Parts<'_>) -> bool
    ensures equal { IsTrue result → (mine.now.head.name.now ≡ theirs.now.head.name.now) × ((mine.now.head.params.now ≡ theirs.now.head.params.now) × ((mine.now.head.signature.now ≡ theirs.now.head.signature.now) × (mine.now.has_body ≡ theirs.now.has_body))) }
    ensures told { (mine.now.head.name.now ≡ theirs.now.head.name.now) × ((mine.now.head.params.now ≡ theirs.now.head.params.now) × ((mine.now.head.signature.now ≡ theirs.now.head.signature.now) × (mine.now.has_body ≡ theirs.now.has_body))) → IsTrue result }
{
    same_head(&mine.head, &theirs.head) && mine.has_body == theirs.has_body
}

// Whether two procedures have one head, name the same in `modifies`, and both have a body, or none has.
fn is_other_procedure(
    alloc: Global,
    mine: &Parts<'_>,
    theirs: &Parts<'_>,
) -> Result<bool, AllocError>
    ensures equal { IfOk result (λ b. IsTrue b → (names_modified theirs.now.specs.now ≡ names_modified mine.now.specs.now) × ((mine.now.head.name.now ≡ theirs.now.head.name.now) × ((mine.now.head.params.now ≡ theirs.now.head.params.now) × ((mine.now.head.signature.now ≡ theirs.now.head.signature.now) × (mine.now.has_body ≡ theirs.now.has_body))))) }
    ensures told { IfOk result (λ b. (names_modified theirs.now.specs.now ≡ names_modified mine.now.specs.now) × ((mine.now.head.name.now ≡ theirs.now.head.name.now) × ((mine.now.head.params.now ≡ theirs.now.head.params.now) × ((mine.now.head.signature.now ≡ theirs.now.head.signature.now) × (mine.now.has_body ≡ theirs.now.has_body)))) → IsTrue b) }
{
    if same_parts(mine, theirs) {
        same_modified(alloc, theirs.specs, mine.specs)
    } else {
        Ok(false)
    }
}

// Whether they are implementations that differ in their bodies alone.
fn is_other_implementation(old: &DeclBody, new: &DeclBody) -> bool
    ensures equal { IsTrue result → IsOtherImplementation (body_of old.now) (body_of new.now) }
    ensures told { IsOtherImplementation (body_of old.now) (body_of new.now) → IsTrue result }
{
    match head_of(old) {
        Some(mine) => match head_of(new) {
            Some(theirs) => same_head(&mine, &theirs),
            None => false,
        },
        None => false,
    }
}

// Whether they are axioms, or functions that differ in values that apply the same alone.
fn is_other_fact(alloc: Global, old: &DeclBody, new: &DeclBody) -> Result<bool, AllocError>
    ensures equal { IfOk result (λ b. IsTrue b → IsOtherAxiom (body_of old.now) (body_of new.now) ⊎ IsOtherFunction (body_of old.now) (body_of new.now)) }
    ensures told { IfOk result (λ b. IsOtherAxiom (body_of old.now) (body_of new.now) ⊎ IsOtherFunction (body_of old.now) (body_of new.now) → IsTrue b) }
{
    if is_other_axiom(old, new) {
        Ok(true)
    } else {
        is_other_function(alloc, old, new)
    }
}

// Whether they are implementations that differ in their bodies alone, axioms, or such functions.
fn is_other_plain(alloc: Global, old: &DeclBody, new: &DeclBody) -> Result<bool, AllocError>
    ensures equal { IfOk result (λ b. IsTrue b → IsOtherImplementation (body_of old.now) (body_of new.now) ⊎ (IsOtherAxiom (body_of old.now) (body_of new.now) ⊎ IsOtherFunction (body_of old.now) (body_of new.now))) }
    ensures told { IfOk result (λ b. IsOtherImplementation (body_of old.now) (body_of new.now) ⊎ (IsOtherAxiom (body_of old.now) (body_of new.now) ⊎ IsOtherFunction (body_of old.now) (body_of new.now)) → IsTrue b) }
{
    if is_other_implementation(old, new) {
        Ok(true)
    } else {
        is_other_fact(alloc, old, new)
    }
}

/// Whether one declaration is a revision of the other: a procedure with other clauses or another body,
/// an implementation with another body, an axiom with another expression, or a function with another
/// value. Names, type parameters, parameters and results are equal, and stand at the same places; two
/// procedures name the same in `modifies`, and both have a body, or none has; the values of two functions
/// apply the same functions in the same order, and both have a quantifier, or none has. The only error is
/// want of memory.
pub fn is_revised(alloc: Global, old: &DeclBody, new: &DeclBody) -> Result<bool, AllocError>
    ensures equal { IfOk result (λ b. IsTrue b → IsRevised (body_of old.now) (body_of new.now)) }
    ensures told { IfOk result (λ b. IsRevised (body_of old.now) (body_of new.now) → IsTrue b) }
{
    match parts_of(old) {
        Some(mine) => match parts_of(new) {
            Some(theirs) => is_other_procedure(alloc, &mine, &theirs),
            None => Ok(false),
        },
        None => is_other_plain(alloc, old, new),
    }
}
