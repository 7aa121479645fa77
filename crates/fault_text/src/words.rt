// The token that begins at a byte of a text, or at a place of a declaration's bytes.
ghost use Rattle.std.specs.Prelude.{◌≡◌, ◌≤◌, ◌<◌, ◌-◌, ◌^◌, length, IfOk};
ghost use Rattle.bpl_lex.specs.Spelled.{AreInOrder};
ghost use Rattle.fault_text.specs.Words.{begins_at, stands_at, word_where, word_at_byte, word_at_place};

use bpl_lex::{LexFault, Token, tokens};
use bv_base::place::{Place, place_onward};
use std::alloc::{AllocError, Global};

// The text of the token that begins at the byte, `-` where none does.
fn word_beginning(
    alloc: Global,
    text: &[u8],
    tokens: &[Token],
    at: u32,
) -> Result<Vec<u8>, AllocError>
    requires { AreInOrder 0 (length text.now) tokens.now }
    ensures { IfOk result (λ word. word.items ≡ word_where (begins_at at) text.now tokens.now) }
{
    for token in tokens {
        if token.span.start == at {
            return Vec::from_slice(alloc, token.text_in(text));
        }
    }
    Vec::from_slice(alloc, b"-")
}

/// The text of the token that begins at this byte; `-` where none does, and where not all of the
/// text is tokens.
pub fn word_at_byte(alloc: Global, text: &[u8], at: u32) -> Result<Vec<u8>, AllocError>
    requires { length text.now < 2 ^ 32 - 1 }
    ensures { IfOk result (λ word. word.items ≡ word_at_byte text.now at) }
{
    match tokens(alloc, text) {
        Ok(found) => word_beginning(alloc, text, &found, at),
        Err(LexFault::Lex { .. }) => Vec::from_slice(alloc, b"-"),
        Err(LexFault::Memory) => Err(AllocError),
    }
}

// The text of the token that stands at the place, `-` where none does.
fn word_standing(
    alloc: Global,
    text: &[u8],
    tokens: &[Token],
    place: Place,
) -> Result<Vec<u8>, AllocError>
    requires short { length text.now < 2 ^ 32 - 1 }
    requires in_order { AreInOrder 0 (length text.now) tokens.now }
    ensures { IfOk result (λ word. word.items ≡ word_where (stands_at text.now place) text.now tokens.now) }
{
    let mut here = Place { line: 1, col: 1 };
    let mut at = 0;
    for token in tokens {
        here = place_onward(text, 0, at, here, token.span.start);
        at = token.span.start;
        if here == place {
            return Vec::from_slice(alloc, token.text_in(text));
        }
    }
    Vec::from_slice(alloc, b"-")
}

/// The text of the token that stands at this place of the text; `-` where none does, and where not
/// all of the text is tokens.
pub fn word_at_place(alloc: Global, text: &[u8], place: Place) -> Result<Vec<u8>, AllocError>
    requires { length text.now < 2 ^ 32 - 1 }
    ensures { IfOk result (λ word. word.items ≡ word_at_place text.now place) }
{
    match tokens(alloc, text) {
        Ok(found) => word_standing(alloc, text, &found, place),
        Err(LexFault::Lex { .. }) => Vec::from_slice(alloc, b"-"),
        Err(LexFault::Memory) => Err(AllocError),
    }
}
