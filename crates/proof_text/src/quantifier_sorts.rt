// The sorts of a quantifier.
ghost use Rattle.std.specs.Prelude.{◌≡◌, Some, [], ◌∷◌, ◌++◌, IfOk};
ghost use Rattle.proof_text.specs.TermStates.{at, at_byte, nested, sorts_end, term_step};
ghost use Rattle.proof_text.specs.declared.term_state.TermCursor.TheVariants.{Sorts};

use crate::hole::{Binder, Hole};
use crate::parts::{Patterns, joined};
use crate::stack::Stack;
use crate::term_heads::spaced;
use crate::term_state::{TermCursor, TermState, at, into};
use logic_core::sequence::Sequence;
use logic_core::sort::{Sort, SortKind};
use std::alloc::{AllocError, Global};

// The sort of maps, so many times, to this sort.
#[tactic(auto, using(crate::proofs::Nested::nested_less, crate::proofs::Nested::nested_none))]
fn nested(alloc: Global, depth: u64, range: Sort) -> Result<Sort, AllocError>
    ensures { IfOk result (λ s. s ≡ nested depth range) }
{
    let mut sort = range;
    let mut left = depth;
    while left > 0 {
        sort = Sort {
            kind: SortKind::Map(Box::new(alloc, sort)?),
        };
        left -= 1;
    }
    Ok(sort)
}

// The sorts and one more.
fn one_sort(
    alloc: Global,
    holes: Stack<Hole>,
    binder: Binder,
    sorts: Sequence<Sort>,
    depth: u64,
    range: Sort,
) -> Result<Option<TermState>, AllocError>
    ensures { IfOk result (λ o. o ≡ Some (at holes (Sorts binder (sorts ++ nested depth range ∷ []) 0))) }
{
    let sort = nested(alloc, depth, range)?;
    let sorts = joined(sorts, sort)?;
    Ok(Some(at(holes, TermCursor::Sorts(binder, sorts, 0))))
}

// No sorts at all, or the end of some.
fn sorts_end(
    alloc: Global,
    holes: Stack<Hole>,
    binder: Binder,
    sorts: Sequence<Sort>,
    depth: u64,
    byte: u8,
) -> Result<Option<TermState>, AllocError>
    ensures { IfOk result (λ o. o ≡ at_byte byte (sorts_end holes binder sorts depth)) }
{
    if depth > 0 {
        return Ok(None);
    }
    if sorts.len() == 0 {
        if byte == b'-' {
            return Ok(spaced(holes, Hole::Body(binder, sorts, Patterns::new(alloc))));
        }
        return Ok(None);
    }
    if byte == b' ' {
        return into(holes, Hole::Body(binder, sorts, Patterns::new(alloc)));
    }
    Ok(None)
}

/// Among the sorts of a quantifier.
pub fn in_sorts(
    alloc: Global,
    holes: Stack<Hole>,
    binder: Binder,
    sorts: Sequence<Sort>,
    depth: u64,
    byte: u8,
) -> Result<Option<TermState>, AllocError>
    ensures { IfOk result (λ o. o ≡ term_step holes (Sorts binder sorts depth) byte) }
{
    match byte {
        b'i' => one_sort(
            alloc,
            holes,
            binder,
            sorts,
            depth,
            Sort {
                kind: SortKind::Int,
            },
        ),
        b'b' => one_sort(
            alloc,
            holes,
            binder,
            sorts,
            depth,
            Sort {
                kind: SortKind::Bool,
            },
        ),
        b'm' => match depth.checked_add(1) {
            Some(deeper) => Ok(Some(at(holes, TermCursor::Sorts(binder, sorts, deeper)))),
            None => Err(AllocError),
        },
        _ => sorts_end(alloc, holes, binder, sorts, depth, byte),
    }
}
