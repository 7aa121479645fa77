// A line of the canonical text as it is written: tokens, and the spaces between them.
ghost use Rattle.std.specs.Prelude.{◌≡◌, ◌||◌, [], ◌∷◌, ◌++◌, Some, true, false, codes, cond, decimal, IfOk, OnOk, option_map};
ghost use Rattle.canonical_text.specs.Glyph.{plain, index};
ghost use Rattle.canonical_text.specs.Written.{Adds, begun};

use bpl_ast::numeral::Numeral;
use std::alloc::{AllocError, Global};
use std::marker::Model;

/// The space between two tokens, if one stands there.
fn gap(glued: bool, tight: bool) -> &'static [u8]
    ensures { result.now ≡ cond (glued || tight) [] (codes " ") }
{
    if glued || tight { b"" } else { b" " }
}

/// A text behind a text.
fn append(text: &mut Vec<u8>, space: &[u8], token: &[u8]) -> Result<(), AllocError>
    ensures { OnOk result (text.new.items ≡ text.old.items ++ (space.now ++ token.now)) }
{
    text.extend_from_slice(space)?;
    text.extend_from_slice(token)
}

/// A line so far. Where there is no memory for a token the line is given up, and stays so whatever
/// is written: its text, taken at the end, tells.
#[derive(Drop)]
pub struct Line {
    alloc: Global,
    text: Vec<u8>,
    glued: bool,
    is_given_up: bool,
}

impl Model for Line {
    ghost use Rattle.std.specs.Prelude.{Option, None, Some, cond};
    ghost use Rattle.canonical_text.specs.Written.{Written};

    ghost Value = { Option Written };

    ghost view = { λ a. cond a.is_given_up None (Some (record { text = a.text.items; glued = a.glued })) };
}

impl Line {
    /// The line that begins with so many spaces.
    pub fn begin(alloc: Global, indent: usize) -> Line
        ensures { Adds (Some (begun indent)) [] result }
    {
        let mut text = Vec::new(alloc);
        let is_given_up = text.resize(indent, b' ').is_err();
        Line {
            alloc,
            text,
            glued: true,
            is_given_up,
        }
    }

    /// Its text.
    pub fn into_text(self) -> Result<Vec<u8>, AllocError>
        ensures { IfOk result (λ v. option_map (λ w. w.text) self ≡ Some v.items) }
    {
        if self.is_given_up {
            return Err(AllocError);
        }
        Ok(self.text)
    }

    /// One more token. No space stands before it if it is tight, and none after it if it is glued.
    #[tactic(auto, unfolding(crate::specs::Written::add))]
    fn put(&mut self, token: &[u8], tight: bool, glued: bool)
        ensures { Adds self.old (record { text = token.now; tight = tight; glued = glued } ∷ []) self.new }
    {
        if append(&mut self.text, gap(self.glued, tight), token).is_err() {
            self.is_given_up = true;
        }
        self.glued = glued;
    }

    /// A name, a word or a sign, with a space on either side.
    pub fn word(&mut self, token: &[u8])
        ensures { Adds self.old (plain token.now ∷ []) self.new }
    {
        self.put(token, false, false);
    }

    /// A token with no space after it: `(`, `[`, a prefix sign, the name of a function or of what
    /// is called.
    pub fn opening(&mut self, token: &[u8])
        ensures { Adds self.old (record { text = token.now; tight = false; glued = true } ∷ []) self.new }
    {
        self.put(token, false, true);
    }

    /// A token with no space before it: `)`, `]`, `,`, `;` or `:`.
    pub fn closing(&mut self, token: &[u8])
        ensures { Adds self.old (record { text = token.now; tight = true; glued = false } ∷ []) self.new }
    {
        self.put(token, true, false);
    }

    /// The `[` of an index, with no space on either side.
    pub fn index(&mut self)
        ensures { Adds self.old (index ∷ []) self.new }
    {
        self.put(b"[", true, true);
    }

    /// A number in decimal.
    pub fn number(&mut self, n: &Numeral)
        ensures { Adds self.old (plain (decimal n.now) ∷ []) self.new }
    {
        match n.value().to_string(self.alloc) {
            Ok(digits) => self.put(digits.as_bytes(), false, false),
            Err(_) => self.is_given_up = true,
        }
    }
}
