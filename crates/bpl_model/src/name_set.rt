// Sets of names.
ghost use Rattle.std.specs.Prelude.{◌≡◌, [], OnOk, bytes_eq, length};
ghost use Rattle.std.specs.List.{list_any};
ghost use Rattle.bpl_model.specs.Names.{place, with_name};

use indexmap::IndexSet;
use std::alloc::{AllocError, Global};
use std::marker::Model;

/// Names, each once, in the order in which they were put in first.
pub struct NameSet<'a> {
    keys: IndexSet<&'a [u8]>,
}

// Written out: a derived drop is proved again wherever a value is dropped.
impl<'a> Drop for NameSet<'a> {
    fn drop(self) {
        let NameSet { keys: _keys } = self;
    }
}

impl<'a> Model for NameSet<'a> {
    ghost use Rattle.std.specs.Prelude.{ℕ, List};
    ghost use Rattle.bpl_model.specs.Names.{names_seen};

    ghost Value = { List (List ℕ) };

    ghost view = { λ a. names_seen a.keys.keys };
}

impl<'a> NameSet<'a> {
    /// No names.
    pub fn new(alloc: Global) -> NameSet<'a>
        ensures { result ≡ [] }
    {
        NameSet {
            keys: IndexSet::new(alloc),
        }
    }

    /// Puts in a name, if it is new.
    #[tactic(auto, using(crate::proofs::NamesPut::seen_put))]
    pub fn put(&mut self, name: &'a [u8]) -> Result<(), AllocError>
        ensures { OnOk result (self.new ≡ with_name self.old name.now) }
    {
        self.keys.insert(name)?;
        Ok(())
    }

    /// Whether the name is among them.
    #[tactic(auto, using(crate::proofs::NamesPut::any_seen))]
    pub fn contains(&self, name: &[u8]) -> bool
        ensures { result ≡ list_any (bytes_eq name.now) self.now }
    {
        self.keys.contains(name)
    }

    /// How many names there are.
    #[tactic(auto, using(crate::proofs::NamesPut::seen_length))]
    pub fn len(&self) -> usize
        ensures { result ≡ length self.now }
    {
        self.keys.len()
    }

    /// Where the name stands; where it doesn't, behind all of them.
    #[tactic(auto, using(crate::proofs::NamesPut::place_seen))]
    pub fn place(&self, name: &[u8]) -> usize
        ensures { result ≡ place self.now name.now }
    {
        self.keys.get_index_of(name).unwrap_or(self.keys.len())
    }
}
