// What is declared: the table with the sorts of its types, and which functions are logical.
ghost use Rattle.std.specs.Prelude.{◌≡◌, false};
ghost use Rattle.bpl_scopes.specs.Functions.{is_logical};
ghost use Rattle.bpl_scopes.specs.KnownSorts.{names_in};
ghost use Rattle.bpl_scopes.specs.LogicalView.{logical_at};
ghost use Rattle.bpl_scopes.specs.Positions.{first_at, beside};

use crate::table::Table;
use crate::types::Types;
use std::marker::Model;

/// A table with the sorts of its types, and which of its functions are logical.
pub struct Environment<'a> {
    types: Types<'a>,
    logical: Vec<bool>,
}

// Written out: a derived drop is proved again wherever a value is dropped.
impl<'a> Drop for Environment<'a> {
    fn drop(self) {
        let Environment { types, logical } = self;
        drop(types);
        drop(logical);
    }
}

impl<'a> Model for Environment<'a> {
    ghost use Rattle.std.specs.Prelude.{◌≡◌, List};
    ghost use Rattle.bpl_scopes.specs.Scopes.{Entry as entry};
    ghost use Rattle.bpl_scopes.specs.LogicalView.{logical_at};
    ghost use Rattle.bpl_scopes.specs.EntryCodes.{coded_table};

    ghost Value = { List entry };

    ghost coded = { coded_table };

    ghost view = { λ a. a.types };

    ghost invariant = { λ a. a.logical.items ≡ logical_at a.types };
}

// The flag beside the first entry of that name.
fn flag_at(table: &Table, flags: &[bool], name: &[u8]) -> bool
    ensures { result ≡ beside false flags.now (first_at name.now (names_in table.now)) }
{
    match table.find(name) {
        Some(at) => match flags.get(at) {
            Some(flag) => *flag,
            None => false,
        },
        None => false,
    }
}

impl<'a> Environment<'a> {
    /// A table, and for each of its entries whether its name is a logical function.
    pub fn new(types: Types<'a>, logical: Vec<bool>) -> Environment<'a>
        requires { logical.items ≡ logical_at types }
        ensures { result ≡ types.entry }
    {
        Environment { types, logical }
    }

    /// The table with the sorts of its types.
    pub fn types(&self) -> &Types<'a>
        ensures { result.now ≡ self.now }
    {
        &self.types
    }

    /// Whether the name is a logical function.
    pub fn is_logical(&self, name: &[u8]) -> bool
        ensures { result ≡ is_logical self.now name.now }
    {
        flag_at(self.types.table(), &self.logical, name)
    }
}
