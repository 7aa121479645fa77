// Tokens: a kind, and where in the text they stand.
ghost use Rattle.std.specs.Prelude.{◌≡◌, ◌≤◌, length};

use bv_base::place::Span;
use std::marker::Model;

/// What a token is.
#[derive(Clone, Copy, PartialEq, Eq, Debug)]
pub enum TokenKind {
    /// An identifier.
    Id,
    /// One or more decimal digits.
    Number,
    /// A string, with its quotes.
    Text,
    /// A bracket, an operator or a punctuation mark.
    Sign,
    /// A word of the language.
    Word,
}

/// A token of a text. Its own text is the slice of its span.
#[derive(Clone, Copy, PartialEq, Eq, Debug)]
pub struct Token {
    pub kind: TokenKind,
    pub span: Span,
}

impl Model for Token {
    ghost use Rattle.bpl_lex.specs.Token.{Token as Piece};

    ghost Value = { Piece };

    ghost use Rattle.bpl_lex.specs.TokenView.{view_of, fields_of, fields_of_view};

    ghost view = { view_of };

    ghost inverse = { fields_of };

    ghost inverse_ok = { λ a h. fields_of_view a };
}

impl Token {
    ghost use Rattle.bpl_lex.specs.Token.{text_of};

    /// The token's own text, in the text that it is a token of.
    pub fn text_in<'a>(&self, text: &'a [u8]) -> &'a [u8]
        requires ordered { self.now.start ≤ self.now.finish }
        requires inside { self.now.finish ≤ length text.now }
        ensures { result.now ≡ text_of text.now self.now }
    {
        let span = self.span;
        &text[span.start as usize..span.end as usize]
    }
}
