// Where a term or a number in it begins.
ghost use Rattle.std.specs.Prelude.{◌≡◌, pos, Some, option_map, IfOk};
ghost use Rattle.proof_text.specs.Digit.{digit};
ghost use Rattle.proof_text.specs.TermStates.{at, at_byte, trigger_moves, term_step};
ghost use Rattle.proof_text.specs.declared.hole.Behind.TheVariants.{Space};
ghost use Rattle.proof_text.specs.declared.term_state.TermCursor.TheVariants.{Item, Opened, Less, Due, SignedDue, Minus, Digits, After};

use crate::digit::{digit, first_negative};
use crate::hole::{Behind, Binder, Hole, Many, Pair, Triple};
use crate::stack::Stack;
use crate::term_state::{Letter, Signed, TermCursor, TermState, at, closed};
use logic_core::sequence::Sequence;
use logic_core::term::{Node, Term};
use std::alloc::{AllocError, Global};

/// Where a term begins.
pub fn item(holes: Stack<Hole>, byte: u8) -> Result<Option<TermState>, AllocError>
    ensures { IfOk result (λ o. o ≡ term_step holes Item byte) }
{
    match byte {
        b'(' => Ok(Some(at(holes, TermCursor::Opened))),
        b'T' => closed(holes, Term::new(Node::Truth(true))),
        b'F' => closed(holes, Term::new(Node::Truth(false))),
        b'v' => Ok(Some(at(holes, TermCursor::Due(Letter::Free)))),
        b'k' => Ok(Some(at(holes, TermCursor::Due(Letter::Bound)))),
        b'-' => Ok(Some(at(holes, TermCursor::Minus(Signed::Number)))),
        _ => Ok(first_digit(holes, Signed::Number, byte)),
    }
}

// Where a digit may begin a number.
fn first_digit(holes: Stack<Hole>, signed: Signed, byte: u8) -> Option<TermState>
    ensures { result ≡ option_map (λ d. at holes (Digits signed (pos d))) (digit byte) }
{
    match digit(byte) {
        Some(d) => Some(at(holes, TermCursor::Digits(signed, i128::from(d)))),
        None => None,
    }
}

/// The state behind a head that a space follows.
pub fn spaced(holes: Stack<Hole>, hole: Hole) -> Option<TermState>
    ensures { result ≡ Some (at holes (After (Space hole))) }
{
    Some(at(holes, TermCursor::After(Behind::Space(hole))))
}

/// Behind a parenthesis, where a term's head stands.
pub fn opened(alloc: Global, holes: Stack<Hole>, byte: u8) -> Option<TermState>
    ensures { result ≡ term_step holes Opened byte }
{
    match byte {
        b'+' => Some(at(
            holes,
            TermCursor::After(Behind::Parts(Sequence::new(alloc))),
        )),
        b'*' => spaced(holes, Hole::Left(Pair::Mul)),
        b'r' => spaced(holes, Hole::Left(Pair::Read)),
        b'=' => spaced(holes, Hole::Left(Pair::Eq)),
        b'w' => spaced(holes, Hole::First(Triple::Write)),
        b'?' => spaced(holes, Hole::First(Triple::If)),
        b'f' => Some(at(holes, TermCursor::Due(Letter::Call))),
        b'!' => spaced(holes, Hole::Not),
        b'&' => Some(at(
            holes,
            TermCursor::After(Behind::Many(Many::And, Sequence::new(alloc))),
        )),
        b'|' => Some(at(
            holes,
            TermCursor::After(Behind::Many(Many::Or, Sequence::new(alloc))),
        )),
        b'<' => Some(at(holes, TermCursor::Less)),
        b'A' => Some(at(holes, TermCursor::After(Behind::Sorts(Binder::ForAll)))),
        b'E' => Some(at(holes, TermCursor::After(Behind::Sorts(Binder::Exists)))),
        b't' => trigger(alloc, holes),
        _ => None,
    }
}

// Where a trigger begins, if the innermost hole is a quantifier's.
fn trigger(alloc: Global, holes: Stack<Hole>) -> Option<TermState>
    ensures { result ≡ at_byte 116 (trigger_moves holes) }
{
    let (last, holes) = holes.split();
    match last {
        Some(hole) => match hole.into_body() {
            Some((binder, sorts, patterns)) => Some(at(
                holes,
                TermCursor::After(Behind::Pattern(binder, sorts, patterns, Sequence::new(alloc))),
            )),
            None => None,
        },
        None => None,
    }
}

/// Behind the first byte of `<=`.
pub fn less(holes: Stack<Hole>, byte: u8) -> Option<TermState>
    ensures { result ≡ term_step holes Less byte }
{
    match byte {
        b'=' => spaced(holes, Hole::Left(Pair::Le)),
        _ => None,
    }
}

/// Behind a letter.
pub fn due(holes: Stack<Hole>, letter: Letter, byte: u8) -> Option<TermState>
    ensures { result ≡ term_step holes (Due letter) byte }
{
    match digit(byte) {
        Some(d) => Some(at(holes, TermCursor::Lettered(letter, u64::from(d)))),
        None => None,
    }
}

/// Where a coefficient or a constant begins.
pub fn signed_due(holes: Stack<Hole>, signed: Signed, byte: u8) -> Option<TermState>
    ensures { result ≡ term_step holes (SignedDue signed) byte }
{
    match byte {
        b'-' => Some(at(holes, TermCursor::Minus(signed))),
        _ => first_digit(holes, signed, byte),
    }
}

/// Behind a minus.
pub fn minus(holes: Stack<Hole>, signed: Signed, byte: u8) -> Option<TermState>
    ensures { result ≡ term_step holes (Minus signed) byte }
{
    match first_negative(byte) {
        Some(number) => Some(at(holes, TermCursor::Digits(signed, number))),
        None => None,
    }
}
