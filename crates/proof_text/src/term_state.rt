// Reading a term byte by byte.
ghost use Rattle.std.specs.Prelude.{◌≡◌, [], Some, IfOk};
ghost use Rattle.proof_text.specs.TermStates.{at, into, completed, term_step, next_behind, named, plain, alone, finished, present};
ghost use Rattle.proof_text.specs.declared.term_state.TermCursor.TheVariants.{Item};

use crate::hole::{Behind, Binder, Hole};
use crate::quantifier_sorts::in_sorts;
use crate::stack::Stack;
use crate::term_behind::{behind, in_integer, in_number};
use crate::term_heads::{due, item, less, minus, opened, signed_due};
use logic_core::sequence::Sequence;
use logic_core::sort::Sort;
use logic_core::term::{Node, Term};
use std::alloc::{AllocError, Global};

/// What a letter before a number says of it.
#[derive(Clone, Copy)]
pub enum Letter {
    Free,
    Bound,
    Call,
}

/// What a number that may have a sign is: a term, or a coefficient or the constant behind these parts.
#[derive(Drop)]
pub enum Signed {
    Number,
    Coefficient(Sequence<(i128, Term)>),
}

/// Where the place is in the innermost part.
#[derive(Drop)]
pub enum TermCursor {
    Item,
    Opened,
    Less,
    Due(Letter),
    Lettered(Letter, u64),
    SignedDue(Signed),
    Minus(Signed),
    Digits(Signed, i128),
    Sorts(Binder, Sequence<Sort>, u64),
    After(Behind),
    Whole(Term),
}

/// A term that has been read in part.
pub struct TermState {
    pub holes: Stack<Hole>,
    pub cursor: TermCursor,
}

// Written out: a derived drop is proved again wherever a value is dropped.
impl Drop for TermState {
    fn drop(self) {
        let TermState { holes, cursor } = self;
        drop(holes);
        drop(cursor);
    }
}

/// The state at this place.
pub fn at(holes: Stack<Hole>, cursor: TermCursor) -> TermState
    ensures { result ≡ at holes cursor }
{
    TermState { holes, cursor }
}

/// The state where a term begins in the hole.
pub fn into(holes: Stack<Hole>, hole: Hole) -> Result<Option<TermState>, AllocError>
    ensures { IfOk result (λ o. o ≡ Some (into holes hole)) }
{
    let holes = holes.over(hole)?;
    Ok(Some(TermState {
        holes,
        cursor: TermCursor::Item,
    }))
}

/// The state behind a complete term.
pub fn completed(holes: Stack<Hole>, term: Term) -> Result<TermState, AllocError>
    ensures { IfOk result (λ s. s ≡ completed holes term) }
{
    let (last, holes) = holes.split();
    match last {
        Some(hole) => {
            let behind = hole.filled(term)?;
            Ok(TermState {
                holes,
                cursor: TermCursor::After(behind),
            })
        }
        None => Ok(TermState {
            holes,
            cursor: TermCursor::Whole(term),
        }),
    }
}

/// The state behind a complete term, as one that a text may come to.
pub fn closed(holes: Stack<Hole>, term: Term) -> Result<Option<TermState>, AllocError>
    ensures { IfOk result (λ o. o ≡ Some (completed holes term)) }
{
    Ok(Some(completed(holes, term)?))
}

// The term that a letter and a number are.
fn named(letter: Letter, number: u64) -> Option<Term>
    ensures { result ≡ named letter number }
{
    match letter {
        Letter::Free => Some(Term::new(Node::Free(number))),
        Letter::Bound => Some(Term::new(Node::Bound(number))),
        Letter::Call => None,
    }
}

// The term that a number is, where it is no coefficient.
fn plain(signed: Signed, number: i128) -> Option<Term>
    ensures { result ≡ plain signed number }
{
    match signed {
        Signed::Number => Some(Term::new(Node::Num(number))),
        Signed::Coefficient(parts) => {
            drop(parts);
            None
        }
    }
}

// The term, if no hole is open around it.
fn alone(holes: Stack<Hole>, term: Option<Term>) -> Option<Term>
    ensures { result ≡ alone holes term }
{
    match term {
        Some(term) => if holes.is_empty() { Some(term) } else { None },
        None => None,
    }
}

impl TermState {
    /// The place where a term begins.
    pub fn start(alloc: Global) -> TermState
        ensures { result ≡ at [] Item }
    {
        TermState {
            holes: Stack::new(alloc),
            cursor: TermCursor::Item,
        }
    }

    /// The state behind one more byte, where a term's text may go on with it.
    pub fn next(self, alloc: Global, byte: u8) -> Result<Option<TermState>, AllocError>
        ensures { IfOk result (λ o. o ≡ term_step self.holes self.cursor byte) }
    {
        let TermState { holes, cursor } = self;
        match cursor {
            TermCursor::Item => item(holes, byte),
            TermCursor::Opened => Ok(opened(alloc, holes, byte)),
            TermCursor::Less => Ok(less(holes, byte)),
            TermCursor::Due(letter) => Ok(due(holes, letter, byte)),
            TermCursor::Lettered(letter, number) => in_number(alloc, holes, letter, number, byte),
            TermCursor::SignedDue(signed) => Ok(signed_due(holes, signed, byte)),
            TermCursor::Minus(signed) => Ok(minus(holes, signed, byte)),
            TermCursor::Digits(signed, number) => in_integer(alloc, holes, signed, number, byte),
            TermCursor::Sorts(binder, sorts, depth) => {
                in_sorts(alloc, holes, binder, sorts, depth, byte)
            }
            TermCursor::After(part) => behind(alloc, holes, part, byte),
            TermCursor::Whole(term) => {
                let state = completed(holes, term)?;
                state.next_behind(alloc, byte)
            }
        }
    }

    /// Behind a term or a number that ends here.
    pub fn next_behind(self, alloc: Global, byte: u8) -> Result<Option<TermState>, AllocError>
        ensures { IfOk result (λ o. o ≡ next_behind self byte) }
    {
        let TermState { holes, cursor } = self;
        match cursor {
            TermCursor::After(part) => behind(alloc, holes, part, byte),
            other => {
                drop(other);
                Ok(None)
            }
        }
    }

    /// Whether the term may end here.
    pub fn is_finished(&self) -> bool
        ensures { result ≡ present (finished self.now.holes self.now.cursor) }
    {
        match &self.cursor {
            TermCursor::Lettered(Letter::Free, _)
            | TermCursor::Lettered(Letter::Bound, _)
            | TermCursor::Digits(Signed::Number, _)
            | TermCursor::Whole(_) => self.holes.is_empty(),
            _ => false,
        }
    }

    /// The term that has been read, where it may end here.
    pub fn into_term(self) -> Option<Term>
        ensures { result ≡ finished self.holes self.cursor }
    {
        let TermState { holes, cursor } = self;
        match cursor {
            TermCursor::Lettered(letter, number) => alone(holes, named(letter, number)),
            TermCursor::Digits(signed, number) => alone(holes, plain(signed, number)),
            TermCursor::Whole(term) => alone(holes, Some(term)),
            TermCursor::Item | TermCursor::Opened | TermCursor::Less | TermCursor::Due(_) => None,
            TermCursor::SignedDue(signed) | TermCursor::Minus(signed) => {
                drop(signed);
                None
            }
            TermCursor::Sorts(_, sorts, _) => {
                drop(sorts);
                None
            }
            TermCursor::After(behind) => {
                drop(behind);
                None
            }
        }
    }
}
