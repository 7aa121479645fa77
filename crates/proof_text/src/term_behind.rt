// Where a part of a term ends.
ghost use Rattle.std.specs.Prelude.{◌≡◌, IfOk};
ghost use Rattle.proof_text.specs.TermStates.{by_stop, behind_space, behind_close, lettered, counted, term_step};
ghost use Rattle.proof_text.specs.declared.term_state.TermCursor.TheVariants.{Lettered, Digits};

use crate::digit::{more_integer, more_number};
use crate::hole::{Behind, Hole, Many, sum_of};
use crate::stack::Stack;
use crate::term_heads::spaced;
use crate::term_state::{Letter, Signed, TermCursor, TermState, at, closed, completed, into};
use logic_core::sequence::Sequence;
use logic_core::term::{Node, Term};
use std::alloc::{AllocError, Global};

// The state where a number with a letter ends.
fn lettered(
    alloc: Global,
    holes: Stack<Hole>,
    letter: Letter,
    number: u64,
) -> Result<TermState, AllocError>
    ensures { IfOk result (λ s. s ≡ lettered letter number holes) }
{
    match letter {
        Letter::Free => completed(holes, Term::new(Node::Free(number))),
        Letter::Bound => completed(holes, Term::new(Node::Bound(number))),
        Letter::Call => Ok(at(
            holes,
            TermCursor::After(Behind::Many(Many::Call(number), Sequence::new(alloc))),
        )),
    }
}

// The state where a number that may have a sign ends.
fn counted(holes: Stack<Hole>, signed: Signed, number: i128) -> Result<TermState, AllocError>
    ensures { IfOk result (λ s. s ≡ counted signed number holes) }
{
    match signed {
        Signed::Number => completed(holes, Term::new(Node::Num(number))),
        Signed::Coefficient(parts) => {
            Ok(at(holes, TermCursor::After(Behind::Sum(parts, number))))
        }
    }
}

/// Behind a part.
pub fn behind(
    alloc: Global,
    holes: Stack<Hole>,
    behind: Behind,
    byte: u8,
) -> Result<Option<TermState>, AllocError>
    ensures { IfOk result (λ o. o ≡ by_stop byte (behind_space holes behind) (behind_close holes behind)) }
{
    match byte {
        b' ' => behind_space(alloc, holes, behind),
        b')' => behind_close(alloc, holes, behind),
        _ => {
            drop(behind);
            Ok(None)
        }
    }
}

// A space behind a part.
fn behind_space(
    alloc: Global,
    holes: Stack<Hole>,
    behind: Behind,
) -> Result<Option<TermState>, AllocError>
    ensures { IfOk result (λ o. o ≡ behind_space holes behind) }
{
    match behind {
        Behind::Space(hole) => into(holes, hole),
        Behind::Close(full) => {
            drop(full);
            Ok(None)
        }
        Behind::Many(many, terms) => into(holes, Hole::Member(many, terms)),
        Behind::Parts(parts) => Ok(Some(at(
            holes,
            TermCursor::SignedDue(Signed::Coefficient(parts)),
        ))),
        Behind::Sum(parts, k) => into(holes, Hole::Scaled(parts, k)),
        Behind::Sorts(binder) => Ok(Some(at(
            holes,
            TermCursor::Sorts(binder, Sequence::new(alloc), 0),
        ))),
        Behind::Pattern(binder, sorts, patterns, terms) => {
            into(holes, Hole::Pattern(binder, sorts, patterns, terms))
        }
    }
}

// The parenthesis that closes a form, behind a part.
fn behind_close(
    alloc: Global,
    holes: Stack<Hole>,
    behind: Behind,
) -> Result<Option<TermState>, AllocError>
    ensures { IfOk result (λ o. o ≡ behind_close holes behind) }
{
    match behind {
        Behind::Space(hole) => {
            drop(hole);
            Ok(None)
        }
        Behind::Parts(parts) => {
            drop(parts);
            Ok(None)
        }
        Behind::Sorts(_) => Ok(None),
        Behind::Close(full) => closed(holes, full.term(alloc)?),
        Behind::Many(many, terms) => closed(holes, many.of(terms)),
        Behind::Sum(parts, k) => closed(holes, sum_of(parts, k)),
        Behind::Pattern(binder, sorts, patterns, terms) => {
            let patterns = patterns.with(terms)?;
            Ok(spaced(holes, Hole::Body(binder, sorts, patterns)))
        }
    }
}

/// In the digits behind a letter.
pub fn in_number(
    alloc: Global,
    holes: Stack<Hole>,
    letter: Letter,
    number: u64,
    byte: u8,
) -> Result<Option<TermState>, AllocError>
    ensures { IfOk result (λ o. o ≡ term_step holes (Lettered letter number) byte) }
{
    match more_number(number, byte) {
        Some(more) => Ok(Some(at(holes, TermCursor::Lettered(letter, more)))),
        None => {
            let state = lettered(alloc, holes, letter, number)?;
            state.next_behind(alloc, byte)
        }
    }
}

/// In the digits of a number that may have a sign.
pub fn in_integer(
    alloc: Global,
    holes: Stack<Hole>,
    signed: Signed,
    number: i128,
    byte: u8,
) -> Result<Option<TermState>, AllocError>
    ensures { IfOk result (λ o. o ≡ term_step holes (Digits signed number) byte) }
{
    match more_integer(number, byte) {
        Some(more) => Ok(Some(at(holes, TermCursor::Digits(signed, more)))),
        None => {
            let state = counted(holes, signed, number)?;
            state.next_behind(alloc, byte)
        }
    }
}
