// Reading the tokens of a text.
ghost use Rattle.std.specs.Prelude.{◌≡◌, ◌-◌, ◌^◌, ◌<◌, length, IfOk, IfErr};
ghost use Rattle.bpl_lex.specs.Lexing.{tokens as tokens_of};
ghost use Rattle.bpl_lex.specs.Spelled.{AreInOrder, Spells};
ghost use Rattle.bpl_lex.specs.Fault.{IsFaultOf, IsInside};

use crate::faults::LexFault;
use crate::kinds::Token;
use crate::pieces::{Piece, front};
use bv_base::place::Span;
use std::alloc::Global;

/// The tokens of the text, in order. At each place the longest blank, comment or token that begins
/// there is taken. `Lex` comes exactly where nothing begins at some place, with the first such
/// place, and `Memory` only for want of memory.
pub fn tokens(alloc: Global, text: &[u8]) -> Result<Vec<Token>, LexFault>
    requires { length text.now < 2 ^ 32 - 1 }
    ensures ok { IfOk result (λ found. tokens_of text.now ≡ Ok found.items) }
    ensures in_order { IfOk result (λ found. AreInOrder 0 (length text.now) found.items) }
    ensures spelled { IfOk result (λ found. Spells text.now 0 found.items) }
    ensures err { IfErr result (λ fault. IsFaultOf text.now fault) }
    ensures inside { IfErr result (λ fault. IsInside text.now fault) }
{
    let mut found = Vec::new(alloc);
    let mut at = 0;
    while at < text.len() {
        let start = at as u32;
        let Some(front) = front(&text[at..]) else {
            return Err(LexFault::Lex { at: start });
        };
        at += front.length;
        if let Piece::Token(kind) = front.piece {
            let end = at as u32;
            found.push(Token {
                kind,
                span: Span { start, end },
            })?;
        }
    }
    Ok(found)
}
