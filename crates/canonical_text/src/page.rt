// The lines of the canonical text as they are written.
#![tactic(auto, using(crate::proofs::PageLines::lines))]

ghost use Rattle.std.specs.Prelude.{◌≡◌, ◌+◌, [], ◌∷◌, ◌++◌, map, Some, OnOk, IfOk, option_map};
ghost use Rattle.canonical_text.specs.Glyph.{plain, line};
ghost use Rattle.canonical_text.specs.Written.{Adds, begun};

use crate::line::Line;
use std::alloc::{AllocError, Global};
use std::marker::Model;

/// The lines so far.
#[derive(Drop)]
pub struct Page {
    alloc: Global,
    lines: Vec<Vec<u8>>,
}

impl Model for Page {
    ghost use Rattle.std.specs.Prelude.{ℕ, List, map};

    ghost Value = { List (List ℕ) };

    ghost view = { λ a. map (λ l. l.items) a.lines.items };
}

impl Page {
    /// No lines yet.
    pub fn new(alloc: Global) -> Page
        ensures { result ≡ [] }
    {
        Page {
            alloc,
            lines: Vec::new(alloc),
        }
    }

    /// The lines.
    pub fn into_lines(self) -> Vec<Vec<u8>>
        ensures { map (λ l. l.items) result.items ≡ self }
    {
        self.lines
    }

    /// A line that begins with so many spaces.
    pub fn begin(&self, indent: usize) -> Line
        ensures { Adds (Some (begun indent)) [] result }
    {
        Line::begin(self.alloc, indent)
    }

    /// One more line, if it is not given up.
    pub fn end(&mut self, line: Line) -> Result<(), AllocError>
        ensures { OnOk result (option_map (λ w. self.old ++ w.text ∷ []) line ≡ Some self.new) }
    {
        self.lines.push(line.into_text()?)?;
        Ok(())
    }

    /// One more line, which has this one token.
    pub fn bare(&mut self, indent: usize, token: &[u8]) -> Result<(), AllocError>
        ensures { OnOk result (self.new ≡ self.old ++ line indent (plain token.now ∷ []) ∷ []) }
    {
        let mut line = self.begin(indent);
        line.word(token);
        self.end(line)
    }
}

/// Two spaces more. There is no memory for lines so deep that they can't be counted.
pub fn deeper(indent: usize) -> Result<usize, AllocError>
    ensures { IfOk result (λ n. n ≡ indent + 2) }
{
    match indent.checked_add(2) {
        Some(inner) => Ok(inner),
        None => Err(AllocError),
    }
}
