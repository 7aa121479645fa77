// Names as bytes, in an order, and where each stands first.
ghost use Rattle.std.specs.Prelude.{◌≡◌, ◌<◌, ℕ, List, [], ◌∷◌, ◌++◌, bytes_eq, OnOk, OnErr, None, Some, length};
ghost use Rattle.indexmap.specs.IndexMap.{spare, get_by};
ghost use Rattle.bv_base.specs.Text.{is_among};
ghost use Rattle.bpl_scopes.specs.Positions.{first_at};

use indexmap::IndexMap;
use std::alloc::{AllocError, Global};
use std::marker::Model;

/// Names in the order in which they were put in, a name perhaps several times.
pub struct Positions<'a> {
    names: Vec<&'a [u8]>,
    first: IndexMap<&'a [u8], usize>,
}

// Written out: a derived drop is proved again wherever a value is dropped.
impl<'a> Drop for Positions<'a> {
    fn drop(self) {
        let Positions {
            names: _names,
            first: _first,
        } = self;
    }
}

impl<'a> Model for Positions<'a> {
    ghost use Rattle.std.specs.Prelude.{ℕ, List};

    ghost Value = { List (List ℕ) };

    ghost use Rattle.bpl_scopes.specs.Positions.{names_seen, HasFirst};

    ghost view = { λ a. names_seen a.names.items };

    ghost invariant = { λ a. HasFirst a.first.entries (names_seen a.names.items) };
}

// Puts in the position of a new name, for which there is room.
fn put_first<'a>(first: &mut IndexMap<&'a [u8], usize>, name: &'a [u8], at: usize)
    requires room { 0 < spare first.old }
    requires new { get_by (λ k. bytes_eq name.now k.now) first.old ≡ None }
    ensures { first.new.entries ≡ first.old.entries ++ (name.entry, at) ∷ [] }
{
    first.insert(name, at).unwrap();
}

impl<'a> Positions<'a> {
    /// No names.
    pub fn new(alloc: Global) -> Positions<'a>
        ensures { result ≡ [] }
    {
        Positions {
            names: Vec::new(alloc),
            first: IndexMap::new(alloc),
        }
    }

    /// How many names there are.
    pub fn len(&self) -> usize
        ensures { result ≡ length self.now }
    {
        self.names.len()
    }

    /// Where the name stands first.
    pub fn find(&self, name: &[u8]) -> Option<usize>
        ensures { result ≡ first_at name.now self.now }
    {
        self.first.get(name).copied()
    }

    /// Whether the name is there.
    #[tactic(auto, using(crate::proofs::FirstAt::found_among))]
    pub fn contains(&self, name: &[u8]) -> bool
        ensures { result ≡ is_among self.now name.now }
    {
        self.find(name).is_some()
    }

    /// Puts a name behind the others.
    pub fn push(&mut self, name: &'a [u8]) -> Result<(), AllocError>
        ensures pushed { OnOk result (self.new ≡ self.old ++ name.now ∷ []) }
        ensures memory { OnErr result (self.new ≡ self.old) }
    {
        self.first.reserve(1)?;
        let at = self.names.len();
        let is_new = !self.first.contains_key(name);
        self.names.push(name)?;
        if is_new {
            put_first(&mut self.first, name, at);
        }
        Ok(())
    }
}
