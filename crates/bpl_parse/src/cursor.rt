// The tokens of a text that are left to be read, taken from the front.
ghost use Rattle.std.specs.Prelude.{◌≡◌, ◌<◌, ◌-◌, ◌^◌, length, drop, true, false, MatchOption, IsErrOf};
ghost use Rattle.bpl_lex.specs.Token.{id, number, text};
ghost use Rattle.bpl_grammar.specs.Lexeme.{lexemes};
ghost use Rattle.bpl_grammar.specs.Terminal.{kind, fixed, sees};
ghost use Rattle.bpl_grammar.specs.Reading.{place_of, text_at, read_fixed, read_name};
ghost use Rattle.bpl_parse.specs.Answer.{Gives};
ghost use Rattle.bpl_parse.specs.InText.{AreRising, LieIn};

use crate::stop::Stop;
use bpl_ast::Name;
use bpl_lex::{Token, TokenKind};
use bv_base::place::{Place, place_onward};
use std::alloc::Global;
use std::marker::Model;
use std::str::from_utf8;

/// The tokens that are left, and the place of the last one that was passed over, from which the next
/// one's is counted on. Contracts see the tokens with their texts, and with their places from a byte
/// on.
#[derive(Drop)]
pub(crate) struct Cursor<'a> {
    text: &'a [u8],
    from: u32,
    known: Place,
    known_at: u32,
    tokens: &'a [Token],
}

impl<'a> Model for Cursor<'a> {
    ghost use Rattle.std.specs.Prelude.{◌≡◌, List, length, ◌<◌, ◌≤◌, ◌-◌, ◌^◌};
    ghost use Rattle.bv_base.specs.Place.{place_at as place_in};
    ghost use Rattle.bpl_grammar.specs.Lexeme.{Lexeme, lexemes};
    ghost use Rattle.bpl_parse.specs.InText.{AreRising, LieIn};

    ghost Value = { List Lexeme };

    ghost view = { λ c. lexemes c.text.now c.from c.tokens.now };

    ghost invariant = { λ c. (length c.text.now < 2 ^ 32 - 1) × (c.from ≤ c.known_at) × (c.known ≡ place_in c.text.now c.from c.known_at) × AreRising c.known_at c.tokens.now × LieIn c.text.now c.from c.tokens.now };
}

impl<'a> Cursor<'a> {
    /// Tokens of a text, where places count from this byte.
    pub(crate) fn new(text: &'a [u8], from: u32, tokens: &'a [Token]) -> Cursor<'a>
        requires short { length text.now < 2 ^ 32 - 1 }
        requires inside { LieIn text.now from tokens.now }
        requires rising { AreRising from tokens.now }
        ensures { result ≡ lexemes text.now from tokens.now }
    {
        Cursor {
            text,
            from,
            known: Place { line: 1, col: 1 },
            known_at: from,
            tokens,
        }
    }

    /// How many tokens are left.
    pub(crate) fn left(&self) -> usize
        ensures { result ≡ length self.now }
    {
        self.tokens.len()
    }

    /// Passes over the next token.
    pub(crate) fn skip(&mut self)
        ensures { self.new ≡ drop 1 self.old }
    {
        let place = self.place();
        if let Some((token, rest)) = self.tokens.split_first() {
            self.known = place;
            self.known_at = token.span.start;
            self.tokens = rest;
        }
    }

    /// The place of the next token.
    #[tactic(auto, using(crate::proofs::Rising::first_rises))]
    pub(crate) fn place(&self) -> Place
        ensures { result ≡ place_of self.now }
    {
        match self.tokens.first() {
            Some(token) => {
                place_onward(
                    self.text,
                    self.from,
                    self.known_at,
                    self.known,
                    token.span.start,
                )
            }
            None => Place { line: 1, col: 1 },
        }
    }

    /// The text of the next token.
    pub(crate) fn text(&self) -> &'a [u8]
        ensures { result.now ≡ text_at self.now }
    {
        match self.tokens.first() {
            Some(token) => token.text_in(self.text),
            None => &self.text[..0],
        }
    }

    /// Whether the next token is this word or sign.
    pub(crate) fn sees(&self, wanted: &[u8]) -> bool
        ensures { result ≡ sees (fixed wanted.now) self.now }
    {
        match self.tokens.first() {
            Some(token) => match token.kind {
                TokenKind::Sign | TokenKind::Word => wanted == token.text_in(self.text),
                TokenKind::Id | TokenKind::Number | TokenKind::Text => false,
            },
            None => false,
        }
    }

    /// Whether the next token is an identifier.
    pub(crate) fn sees_id(&self) -> bool
        ensures { result ≡ sees (kind id) self.now }
    {
        match self.tokens.first() {
            Some(token) => match token.kind {
                TokenKind::Id => true,
                TokenKind::Number | TokenKind::Text | TokenKind::Sign | TokenKind::Word => false,
            },
            None => false,
        }
    }

    /// Whether the next token is a number.
    pub(crate) fn sees_number(&self) -> bool
        ensures { result ≡ sees (kind number) self.now }
    {
        match self.tokens.first() {
            Some(token) => match token.kind {
                TokenKind::Number => true,
                TokenKind::Id | TokenKind::Text | TokenKind::Sign | TokenKind::Word => false,
            },
            None => false,
        }
    }

    /// Whether the next token is a string.
    pub(crate) fn sees_text(&self) -> bool
        ensures { result ≡ sees (kind text) self.now }
    {
        match self.tokens.first() {
            Some(token) => match token.kind {
                TokenKind::Text => true,
                TokenKind::Id | TokenKind::Number | TokenKind::Sign | TokenKind::Word => false,
            },
            None => false,
        }
    }

    /// Whether the token after the next is this word or sign.
    pub(crate) fn sees_second(&self, wanted: &[u8]) -> bool
        ensures { result ≡ sees (fixed wanted.now) (drop 1 self.now) }
    {
        let place = self.place();
        let Some((token, rest)) = self.tokens.split_first() else {
            return false;
        };
        let ahead = Cursor {
            text: self.text,
            from: self.from,
            known: place,
            known_at: token.span.start,
            tokens: rest,
        };
        ahead.sees(wanted)
    }

    /// The next token's text, where it is an identifier.
    pub(crate) fn identifier(&self) -> Option<&'a str>
        ensures { MatchOption result (sees (kind id) self.now ≡ false) (λ s. (sees (kind id) self.now ≡ true) × (s.now ≡ text_at self.now)) }
    {
        match self.tokens.first() {
            Some(token) => match token.kind {
                TokenKind::Id => match from_utf8(token.text_in(self.text)) {
                    Ok(text) => Some(text),
                    Err(_) => unreachable!(),
                },
                TokenKind::Number | TokenKind::Text | TokenKind::Sign | TokenKind::Word => None,
            },
            None => None,
        }
    }

    /// Passes over the next token, which has to be this word or sign.
    pub(crate) fn expect(&mut self, wanted: &[u8]) -> Result<(), Stop>
        ensures gives { Gives (read_fixed wanted.now self.old) result self.new }
        ensures memory { ¬ IsErrOf result Stop.Memory }
    {
        if self.sees(wanted) {
            self.skip();
            return Ok(());
        }
        Err(Stop::Syntax)
    }
}
