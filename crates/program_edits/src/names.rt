// The names of declarations, and of axioms.
ghost use Rattle.std.specs.Prelude.{◌≡◌, ◌<◌, ◌-◌, ◌^◌, ◌&&◌, suc, nat_eq, nat_le, map, ◌++◌, codes, decimal, bytes_eq, string_bytes, IfOk};
ghost use Rattle.std.specs.List.{list_all};
ghost use Rattle.program_edits.specs.Edited.{is_axiom, is_digit, is_count, is_axiom_name, declares, names, renamed};

use bpl_ast::{Decl, DeclBody};
use bpl_scopes::Positions;
use std::alloc::{AllocError, Global};

/// The names of the declarations.
pub(crate) fn names_of<'a>(alloc: Global, decls: &'a [Decl]) -> Result<Positions<'a>, AllocError>
    ensures { IfOk result (λ p. p ≡ names decls.now) }
{
    let mut found = Positions::new(alloc);
    for decl in decls {
        found.push(decl.name.as_bytes())?;
    }
    Ok(found)
}

/// The names, as bytes.
pub(crate) fn names_in<'a>(alloc: Global, texts: &'a [String]) -> Result<Positions<'a>, AllocError>
    ensures { IfOk result (λ p. p ≡ map string_bytes texts.now) }
{
    let mut found = Positions::new(alloc);
    for text in texts {
        found.push(text.as_bytes())?;
    }
    Ok(found)
}

/// Whether it is an axiom.
pub(crate) fn is_axiom(decl: &Decl) -> bool
    ensures { result ≡ is_axiom decl.now.body }
{
    match decl.body() {
        DeclBody::Axiom(_) => true,
        DeclBody::Const { .. } => false,
        DeclBody::Var(_) => false,
        DeclBody::Function { .. } => false,
        DeclBody::TypeName { .. } => false,
        DeclBody::Procedure { .. } => false,
        DeclBody::Implementation { .. } => false,
    }
}

fn is_digit(byte: u8) -> bool
    ensures { result ≡ is_digit byte }
{
    b'0' <= byte && byte <= b'9'
}

fn are_digits(bytes: &[u8]) -> bool
    ensures { result ≡ list_all is_digit bytes.now }
{
    for byte in bytes {
        if !is_digit(*byte) {
            return false;
        }
    }
    true
}

// A decimal number from 1, without leading zeros.
fn is_count(bytes: &[u8]) -> bool
    ensures { result ≡ is_count bytes.now }
{
    match bytes {
        [] => false,
        [first, ..] => b'1' <= *first && are_digits(bytes),
    }
}

/// Whether some axiom has the name: `@k`.
pub(crate) fn is_axiom_name(name: &[u8]) -> bool
    ensures { result ≡ is_axiom_name name.now }
{
    match name {
        [] => false,
        [first, number @ ..] => *first == b'@' && is_count(number),
    }
}

/// Whether it is a declaration of this name; an axiom is one of every axiom's name.
pub(crate) fn declares(name: &[u8], decl: &Decl) -> bool
    ensures { result ≡ declares name.now decl.now }
{
    if is_axiom(decl) {
        return is_axiom_name(name);
    }
    name == decl.name.as_bytes()
}

// The name of the axiom before which so many stand.
fn axiom_name(alloc: Global, axioms: usize) -> Result<String, AllocError>
    requires { axioms < 2 ^ 64 - 1 }
    ensures { IfOk result (λ name. string_bytes name ≡ codes "@" ++ decimal (suc axioms)) }
{
    let number = (axioms + 1).to_string(alloc)?;
    let mut name = String::from_str(alloc, "@")?;
    name.push_str(number.as_str())?;
    Ok(name)
}

/// A copy, an axiom under its name where so many stand before it. Both have one body in memory.
pub(crate) fn renamed(alloc: Global, axioms: usize, decl: &Decl) -> Result<Decl, AllocError>
    requires { axioms < 2 ^ 64 - 1 }
    ensures { IfOk result (λ d. d ≡ renamed axioms decl.now) }
{
    if !is_axiom(decl) {
        return decl.copy(alloc);
    }
    let name = axiom_name(alloc, axioms)?;
    let source = Vec::from_slice(alloc, &decl.source)?;
    let numbered = decl.changed(alloc, name, source, None)?;
    Ok(numbered)
}
