// Where the procedure stands that a declaration declares or implements.
ghost use Rattle.std.specs.Prelude.{◌≡◌, ◌<◌, cond, length, Some, None};
ghost use Rattle.bpl_ast.specs.DeclView.{body_of};
ghost use Rattle.body_revision.specs.Procedures.{is_procedure, is_sought, lacks_body, gives_body, any_decl, only_place, if_at, procedure_place, procedure_by};

use bpl_ast::{Decl, DeclBody};

// What is looked for under a procedure's name: a declaration of it without a body, or an implementation.
#[derive(Clone, Copy)]
pub(crate) enum Sought {
    WithoutBody,
    Implementation,
}

pub(crate) fn is_procedure(body: &DeclBody) -> bool
    ensures { result ≡ is_procedure (body_of body.now) }
{
    match body {
        DeclBody::Procedure { .. } => true,
        DeclBody::Const { .. } => false,
        DeclBody::Function { .. } => false,
        DeclBody::Axiom(_) => false,
        DeclBody::Var(_) => false,
        DeclBody::TypeName { .. } => false,
        DeclBody::Implementation { .. } => false,
    }
}

fn lacks_body(name: &[u8], body: &DeclBody) -> bool
    ensures { result ≡ lacks_body name.now (body_of body.now) }
{
    match body {
        DeclBody::Procedure {
            name: declared,
            body: None,
            ..
        } => declared.text.as_bytes() == name,
        DeclBody::Procedure { body: Some(_), .. } => false,
        DeclBody::Const { .. } => false,
        DeclBody::Function { .. } => false,
        DeclBody::Axiom(_) => false,
        DeclBody::Var(_) => false,
        DeclBody::TypeName { .. } => false,
        DeclBody::Implementation { .. } => false,
    }
}

fn gives_body(name: &[u8], body: &DeclBody) -> bool
    ensures { result ≡ gives_body name.now (body_of body.now) }
{
    match body {
        DeclBody::Implementation {
            name: implemented,
            ..
        } => implemented.text.as_bytes() == name,
        DeclBody::Procedure { .. } => false,
        DeclBody::Const { .. } => false,
        DeclBody::Function { .. } => false,
        DeclBody::Axiom(_) => false,
        DeclBody::Var(_) => false,
        DeclBody::TypeName { .. } => false,
    }
}

fn is_sought(sought: Sought, name: &[u8], decl: &Decl) -> bool
    ensures { result ≡ is_sought sought name.now decl.now.body }
{
    match sought {
        Sought::WithoutBody => lacks_body(name, decl.body()),
        Sought::Implementation => gives_body(name, decl.body()),
    }
}

// Whether one of them is.
fn any_sought(sought: Sought, name: &[u8], decls: &[Decl]) -> bool
    ensures { result ≡ any_decl (is_sought sought name.now) decls.now }
{
    for decl in decls {
        if is_sought(sought, name, decl) {
            return true;
        }
    }
    false
}

// The place of one, unless a later one is another.
fn unless_later(sought: Sought, name: &[u8], at: usize, later: &[Decl]) -> Option<usize>
    ensures { result ≡ cond (any_decl (is_sought sought name.now) later.now) None (Some at) }
{
    if any_sought(sought, name, later) {
        return None;
    }
    Some(at)
}

// The place of the only one.
#[tactic(auto, using(crate::proofs::FoundPlaces::place_begins, crate::proofs::FoundPlaces::place_found, crate::proofs::FoundPlaces::place_behind))]
fn only_place(sought: Sought, name: &[u8], decls: &[Decl]) -> Option<usize>
    ensures { result ≡ only_place (is_sought sought name.now) decls.now }
{
    for (at, decl) in decls.iter().enumerate() {
        if is_sought(sought, name, decl) {
            return unless_later(sought, name, at, &decls[at + 1..]);
        }
    }
    None
}

// The place of the only procedure of this name without a body, where the declaration at a place alone
// implements it.
fn implemented_place(decls: &[Decl], at: usize, name: &[u8]) -> Option<usize>
    ensures { result ≡ if_at at (only_place (gives_body name.now) decls.now) (only_place (lacks_body name.now) decls.now) }
{
    match only_place(Sought::Implementation, name, decls) {
        Some(place) => {
            if place == at {
                only_place(Sought::WithoutBody, name, decls)
            } else {
                None
            }
        }
        None => None,
    }
}

// The place of a procedure without a body, where nothing implements it.
fn unless_implemented(decls: &[Decl], at: usize, name: &[u8]) -> Option<usize>
    ensures { result ≡ cond (any_decl (gives_body name.now) decls.now) None (Some at) }
{
    unless_later(Sought::Implementation, name, at, decls)
}

/// The place of the procedure that the declaration at a place declares or implements: of one without a
/// body where nothing implements it, and of the only one that an implementation alone gives its body.
pub(crate) fn procedure_place(decls: &[Decl], at: usize, decl: &Decl) -> Option<usize>
    ensures { result ≡ procedure_place decls.now at decl.now.body }
{
    match decl.body() {
        DeclBody::Procedure { name, body, .. } => match body {
            Some(_) => Some(at),
            None => unless_implemented(decls, at, name.text.as_bytes()),
        },
        DeclBody::Implementation { name, .. } => {
            implemented_place(decls, at, name.text.as_bytes())
        }
        DeclBody::Const { .. } => None,
        DeclBody::Function { .. } => None,
        DeclBody::Axiom(_) => None,
        DeclBody::Var(_) => None,
        DeclBody::TypeName { .. } => None,
    }
}

/// That procedure: the declaration itself, or the one at the place.
pub(crate) fn procedure_by<'a>(decls: &'a [Decl], place: usize, decl: &'a Decl) -> &'a Decl
    requires there { place < length decls.now }
    ensures { result.now.body ≡ procedure_by decls.now place decl.now }
{
    if is_procedure(decl.body()) {
        decl
    } else {
        &decls[place]
    }
}
