// Whether names and type parameters are equal, places included.
ghost use Rattle.std.specs.Prelude.{◌≡◌, IsTrue};

use bpl_ast::{Name, TypeParams};

pub(crate) fn same_name(mine: &Name, theirs: &Name) -> bool
    ensures equal { IsTrue result → mine.now ≡ theirs.now }
    ensures told { mine.now ≡ theirs.now → IsTrue result }
{
    mine.at == theirs.at && mine.text.as_bytes() == theirs.text.as_bytes()
}

pub(crate) fn same_names(mine: &[Name], theirs: &[Name]) -> bool
    ensures equal { IsTrue result → mine.now ≡ theirs.now }
    ensures told { mine.now ≡ theirs.now → IsTrue result }
{
    if mine.len() != theirs.len() {
        return false;
    }
    for i in 0..mine.len() {
        if !same_name(&mine[i], &theirs[i]) {
            return false;
        }
    }
    true
}

fn same_params(mine: &TypeParams, theirs: &TypeParams) -> bool
    ensures equal { IsTrue result → mine.now ≡ theirs.now }
    ensures told { mine.now ≡ theirs.now → IsTrue result }
{
    mine.at == theirs.at && same_names(&mine.names, &theirs.names)
}

pub(crate) fn same_optional_params(mine: &Option<TypeParams>, theirs: &Option<TypeParams>) -> bool
    ensures equal { IsTrue result → mine.now ≡ theirs.now }
    ensures told { mine.now ≡ theirs.now → IsTrue result }
{
    match mine {
        Some(mine) => match theirs {
            Some(theirs) => same_params(mine, theirs),
            None => false,
        },
        None => theirs.is_none(),
    }
}
