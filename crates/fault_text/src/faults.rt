// Faults as they are written.
ghost use Rattle.std.specs.Prelude.{◌≡◌, ◌≤◌, ◌<◌, ◌-◌, ◌^◌, length, IfOk};
ghost use Rattle.fault_text.specs.Faults.{word_of_kind, fault_in_text, fault_in_decl, fault_of_size};

use crate::kinds::{construct_name, kind_name};
use crate::words::{word_at_byte, word_at_place};
use crate::written::Written;
use bpl_ast::Decl;
use bpl_scopes::TypeKind;
use bv_base::place::{Place, place_at};
use itoa::Buffer;
use std::alloc::{AllocError, Global};

/// A text's fault of this kind at this byte.
pub fn fault_in_text(alloc: Global, text: &[u8], kind: &str, at: u32) -> Result<Written, AllocError>
    requires short { length text.now < 2 ^ 32 - 1 }
    requires inside { at ≤ length text.now }
    ensures { IfOk result (λ written. written ≡ fault_in_text text.now kind.now at) }
{
    Ok(Written {
        kind: Vec::from_slice(alloc, kind.as_bytes())?,
        decl: Vec::from_slice(alloc, b"-")?,
        place: place_at(text, 0, at),
        word: word_at_byte(alloc, text, at)?,
    })
}

// What is said of a declaration's fault: the token at its place, or the name of what isn't built.
fn word_of_kind(
    alloc: Global,
    source: &[u8],
    kind: TypeKind,
    place: Place,
) -> Result<Vec<u8>, AllocError>
    requires { length source.now < 2 ^ 32 - 1 }
    ensures { IfOk result (λ word. word.items ≡ word_of_kind source.now kind place) }
{
    match kind {
        TypeKind::Unbuilt(construct) => Vec::from_slice(alloc, construct_name(construct)),
        _ => word_at_place(alloc, source, place),
    }
}

/// A declaration's fault of this kind at this place.
pub fn fault_in_decl(
    alloc: Global,
    decl: &Decl,
    kind: TypeKind,
    place: Place,
) -> Result<Written, AllocError>
    requires { length decl.now.source < 2 ^ 32 - 1 }
    ensures { IfOk result (λ written. written ≡ fault_in_decl decl.now kind place) }
{
    Ok(Written {
        kind: Vec::from_slice(alloc, kind_name(kind))?,
        decl: Vec::from_slice(alloc, decl.name.as_bytes())?,
        place,
        word: word_of_kind(alloc, &decl.source, kind, place)?,
    })
}

/// The fault of a program that is too large: what there is too much of, and the number.
pub fn fault_of_size(alloc: Global, what: &str, number: u64) -> Result<Written, AllocError>
    ensures { IfOk result (λ written. written ≡ fault_of_size what.now number) }
{
    let mut buffer = Buffer::new();
    let mut word = Vec::from_slice(alloc, what.as_bytes())?;
    word.extend_from_slice(b" ")?;
    word.extend_from_slice(buffer.format(number).as_bytes())?;
    Ok(Written {
        kind: Vec::from_slice(alloc, b"Large")?,
        decl: Vec::from_slice(alloc, b"-")?,
        place: Place { line: 0, col: 0 },
        word,
    })
}
