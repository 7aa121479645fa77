// Whether signs and words of expressions are equal.
ghost use Rattle.std.specs.Prelude.{◌≡◌, IsTrue};

use bpl_ast::{Quantifier, Relation};

pub(crate) fn same_quantifier(mine: Quantifier, theirs: Quantifier) -> bool
    ensures equal { IsTrue result → mine ≡ theirs }
    ensures told { mine ≡ theirs → IsTrue result }
{
    match mine {
        Quantifier::ForAll => match theirs {
            Quantifier::ForAll => true,
            Quantifier::Exists => false,
        },
        Quantifier::Exists => match theirs {
            Quantifier::ForAll => false,
            Quantifier::Exists => true,
        },
    }
}

pub(crate) fn same_relation(mine: Relation, theirs: Relation) -> bool
    ensures equal { IsTrue result → mine ≡ theirs }
    ensures told { mine ≡ theirs → IsTrue result }
{
    match mine {
        Relation::Equal => match theirs {
            Relation::Equal => true,
            _ => false,
        },
        Relation::NotEqual => match theirs {
            Relation::NotEqual => true,
            _ => false,
        },
        Relation::Less => match theirs {
            Relation::Less => true,
            _ => false,
        },
        Relation::AtMost => match theirs {
            Relation::AtMost => true,
            _ => false,
        },
        Relation::Greater => match theirs {
            Relation::Greater => true,
            _ => false,
        },
        Relation::AtLeast => match theirs {
            Relation::AtLeast => true,
            _ => false,
        },
    }
}
