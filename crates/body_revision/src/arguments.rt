// Whether parameters of functions are equal, places included.
ghost use Rattle.std.specs.Prelude.{◌≡◌, IsTrue};

use crate::names::same_name;
use crate::types::same_type;
use bpl_ast::{Argument, Name};

fn same_optional_name(mine: &Option<Name>, theirs: &Option<Name>) -> bool
    ensures equal { IsTrue result → mine.now ≡ theirs.now }
    ensures told { mine.now ≡ theirs.now → IsTrue result }
{
    match mine {
        Some(mine) => match theirs {
            Some(theirs) => same_name(mine, theirs),
            None => false,
        },
        None => theirs.is_none(),
    }
}

fn same_argument(mine: &Argument, theirs: &Argument) -> bool
    ensures equal { IsTrue result → mine.now ≡ theirs.now }
    ensures told { mine.now ≡ theirs.now → IsTrue result }
{
    same_optional_name(&mine.name, &theirs.name) && same_type(&mine.of, &theirs.of)
}

pub(crate) fn same_arguments(mine: &[Argument], theirs: &[Argument]) -> bool
    ensures equal { IsTrue result → mine.now ≡ theirs.now }
    ensures told { mine.now ≡ theirs.now → IsTrue result }
{
    if mine.len() != theirs.len() {
        return false;
    }
    for i in 0..mine.len() {
        if !same_argument(&mine[i], &theirs[i]) {
            return false;
        }
    }
    true
}
