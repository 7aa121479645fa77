// Terms with other numbers for their free variables and for the definitions that they call.
ghost use Rattle.std.specs.Prelude.{◌≡◌, IfOk};
ghost use Rattle.logic_core.specs.Traversed.{as_deep};
ghost use Rattle.logic_core.specs.Renamed.{for_free, both_renamed, new_number};
ghost use Rattle.logic_core.specs.Variables.{renamed};

use crate::sort::Sort;
use crate::term::{Node, Term};
use crate::traverse::{Walk, traverse};
use std::alloc::{AllocError, Global};

// The number that stands in the table at the old number's place; beyond the table the old one.
fn new_number(table: &[u64], number: u64) -> u64
    ensures { result ≡ new_number table.now number }
{
    let place = number as usize;
    if place < table.len() {
        return table[place];
    }
    number
}

// New numbers, each at its old number's place.
#[derive(Drop)]
struct Renaming<'a> {
    definitions: &'a [u64],
    variables: &'a [u64],
}

impl Walk for Renaming<'_> {
    ghost stands = { λ r. for_free (new_number r.variables.now) };

    ghost under = { λ r. as_deep };

    ghost number = { λ r. new_number r.definitions.now };

    fn stands(&self, _alloc: Global, _depth: u64, term: &Term) -> Result<Option<Term>, AllocError> {
        match &term.node {
            Node::Free(v) => Ok(Some(Term::new(Node::Free(new_number(self.variables, *v))))),
            _ => Ok(None),
        }
    }

    fn under(&self, depth: u64, _sorts: &[Sort]) -> Result<u64, AllocError> {
        Ok(depth)
    }

    fn number(&self, definition: u64) -> u64 {
        new_number(self.definitions, definition)
    }
}

/// The term with new numbers for the definitions that it calls and for its free variables, in
/// triggers too. Each new number stands in its table at the old number's place; numbers beyond the
/// table stay.
pub fn rename(
    alloc: Global,
    term: &Term,
    definitions: &[u64],
    variables: &[u64],
) -> Result<Term, AllocError>
    ensures { IfOk result (λ t. t ≡ both_renamed (new_number definitions.now) (new_number variables.now) term.now) }
{
    let walk = Renaming {
        definitions,
        variables,
    };
    traverse(alloc, &walk, 0, term)
}

/// The term with new numbers for its free variables. Each new number stands in the table at the
/// old number's place; numbers beyond the table stay.
pub fn rename_variables(alloc: Global, term: &Term, variables: &[u64]) -> Result<Term, AllocError>
    ensures { IfOk result (λ t. t ≡ renamed (new_number variables.now) term.now) }
{
    rename(alloc, term, &[], variables)
}
