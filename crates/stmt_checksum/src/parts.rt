// The parts of lines, one behind another.
ghost use Rattle.std.specs.Prelude.{◌≡◌, [], ◌∷◌, ◌++◌, None, OnOk};
ghost use Rattle.bpl_dependencies.specs.AppliedView.{texts_seen};
ghost use Rattle.stmt_checksum.specs.Parts.{bare};
ghost use Rattle.stmt_checksum.specs.PartsView.{parts_seen};

use bpl_ast::Place;
use std::alloc::{AllocError, Global};
use std::marker::Model;

/// The names in a line that no variable hides, and the place of what may be asserted there.
#[derive(Drop)]
pub struct Part<'a> {
    pub uses: Vec<&'a [u8]>,
    pub place: Option<Place>,
}

/// The parts so far.
#[derive(Drop)]
pub struct Parts<'a> {
    alloc: Global,
    list: Vec<Part<'a>>,
}

impl<'a> Model for Parts<'a> {
    ghost use Rattle.std.specs.Prelude.{List};
    ghost use Rattle.stmt_checksum.specs.Parts.{Part as part};

    ghost Value = { List part };

    ghost use Rattle.stmt_checksum.specs.PartsView.{parts_seen};

    ghost view = { λ a. parts_seen a.list.items };
}

impl<'a> Parts<'a> {
    /// No parts yet.
    pub fn new(alloc: Global) -> Parts<'a>
        ensures { result ≡ [] }
    {
        Parts {
            alloc,
            list: Vec::new(alloc),
        }
    }

    /// The parts.
    pub fn into_list(self) -> Vec<Part<'a>>
        ensures { parts_seen result.items ≡ self.entry }
    {
        self.list
    }

    /// Where memory is taken.
    pub fn alloc(&self) -> Global {
        self.alloc
    }

    /// One more part.
    pub fn push(&mut self, uses: Vec<&'a [u8]>, place: Option<Place>) -> Result<(), AllocError>
        ensures { OnOk result (self.new ≡ self.old ++ record { uses = texts_seen uses.entry.items; place = place } ∷ []) }
    {
        self.list.push(Part { uses, place })?;
        Ok(())
    }

    /// One more part, of a brace or `else`.
    pub fn bare(&mut self) -> Result<(), AllocError>
        ensures { OnOk result (self.new ≡ self.old ++ bare ∷ []) }
    {
        self.push(Vec::new(self.alloc), None)
    }
}
