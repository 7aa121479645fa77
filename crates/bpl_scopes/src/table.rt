// What is declared under each name: one name space, in the order of the text.
ghost use Rattle.std.specs.Prelude.{◌≡◌, ℕ, List, [], ◌∷◌, ◌++◌, map, OnOk, length, option_map};
ghost use Rattle.bpl_scopes.specs.Scopes.{entity_of};
ghost use Rattle.bpl_scopes.specs.Positions.{first_at};
ghost use Rattle.bpl_scopes.specs.TableView.{entity_seen, entry_seen, entries_seen, looked};

use crate::names::Positions;
use bpl_ast::{Argument, Expr, Signature, Spec, Type};
use std::alloc::{AllocError, Global};
use std::marker::Model;

/// What a name is declared as. Constants, global variables and procedures are numbered each for
/// themselves, in the order of the text.
#[derive(Clone, Copy)]
pub enum Entity<'a> {
    Constant {
        number: u64,
        of: &'a Type,
    },
    Global {
        number: u64,
        of: &'a Type,
    },
    Function {
        ins: &'a [Argument],
        of: &'a Type,
        value: &'a Option<Expr>,
    },
    Synonym {
        of: &'a Option<Type>,
    },
    Procedure {
        number: u64,
        signature: &'a Signature,
        specs: &'a [Spec],
    },
}

/// A declared name, the position of its declaration, and what it is.
#[derive(Clone, Copy)]
pub struct Entry<'a> {
    pub name: &'a [u8],
    pub decl: usize,
    pub entity: Entity<'a>,
}

/// The one name space: the entries in the order of the text. Of several with one name the first
/// counts.
pub struct Table<'a> {
    positions: Positions<'a>,
    entries: Vec<Entry<'a>>,
}

// Written out: a derived drop is proved again wherever a value is dropped.
impl<'a> Drop for Table<'a> {
    fn drop(self) {
        let Table { positions, entries } = self;
        drop(positions);
        drop(entries);
    }
}

impl<'a> Model for Table<'a> {
    ghost use Rattle.std.specs.Prelude.{List};
    ghost use Rattle.bpl_scopes.specs.Scopes.{Entry as entry};
    ghost use Rattle.bpl_scopes.specs.EntryCodes.{coded_table};

    ghost Value = { List entry };

    ghost coded = { coded_table };

    ghost use Rattle.bpl_scopes.specs.TableView.{entries_seen, AreNamed};

    ghost view = { λ a. entries_seen a.entries.items };

    ghost invariant = { λ a. AreNamed a.positions (entries_seen a.entries.items) };
}

// What the entry at a position is.
fn entity_at<'a>(entries: &[Entry<'a>], at: Option<usize>) -> Option<Entity<'a>>
    ensures { option_map entity_seen result ≡ looked entries.now at }
{
    match at {
        Some(at) => match entries.get(at) {
            Some(entry) => Some(entry.entity),
            None => None,
        },
        None => None,
    }
}

impl<'a> Table<'a> {
    /// No names.
    pub fn new(alloc: Global) -> Table<'a>
        ensures { result ≡ [] }
    {
        Table {
            positions: Positions::new(alloc),
            entries: Vec::new(alloc),
        }
    }

    /// How many entries there are.
    pub fn len(&self) -> usize
        ensures { result ≡ length self.now }
    {
        self.entries.len()
    }

    /// The entries.
    pub fn entries(&self) -> &[Entry<'a>]
        ensures { entries_seen result.now ≡ self.now }
    {
        &self.entries
    }

    /// The position of the first entry of that name.
    pub fn find(&self, name: &[u8]) -> Option<usize>
        ensures { result ≡ first_at name.now (map (λ e. e.name) self.now) }
    {
        self.positions.find(name)
    }

    /// What the name is, outside all procedures.
    pub fn entity(&self, name: &[u8]) -> Option<Entity<'a>>
        ensures { option_map entity_seen result ≡ entity_of self.now name.now }
    {
        entity_at(&self.entries, self.positions.find(name))
    }

    /// Puts an entry behind the others.
    pub fn push(&mut self, entry: Entry<'a>) -> Result<(), AllocError>
        ensures { OnOk result (self.new ≡ self.old ++ entry_seen entry.entry ∷ []) }
    {
        self.entries.reserve(1)?;
        self.positions.push(entry.name)?;
        self.entries.push(entry).unwrap();
        Ok(())
    }
}
