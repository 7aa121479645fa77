// Whether types are equal, places included.
ghost use Rattle.std.specs.Prelude.{◌≡◌, IsTrue};

use crate::names::{same_name, same_optional_params};
use bpl_ast::{Type, TypeForm};

#[cycle(same_type)]
#[tactic(auto, using(crate::proofs::Injective::types_same))]
pub(crate) fn same_type(mine: &Type, theirs: &Type) -> bool
    ensures equal { IsTrue result → mine.now ≡ theirs.now }
    ensures told { mine.now ≡ theirs.now → IsTrue result }
{
    if mine.at != theirs.at {
        return false;
    }
    match &mine.form {
        TypeForm::Int => match &theirs.form {
            TypeForm::Int => true,
            _ => false,
        },
        TypeForm::Bool => match &theirs.form {
            TypeForm::Bool => true,
            _ => false,
        },
        TypeForm::Named(name) => match &theirs.form {
            TypeForm::Named(other) => same_name(name, other),
            _ => false,
        },
        TypeForm::Map(params, domain, range) => match &theirs.form {
            TypeForm::Map(other_params, other_domain, other_range) => {
                same_optional_params(params, other_params)
                    && same_types(domain, other_domain)
                    && same_type(range, other_range)
            }
            _ => false,
        },
    }
}

#[cycle(same_type)]
fn same_types(mine: &[Type], theirs: &[Type]) -> bool
    ensures equal { IsTrue result → mine.now ≡ theirs.now }
    ensures told { mine.now ≡ theirs.now → IsTrue result }
{
    if mine.len() != theirs.len() {
        return false;
    }
    for i in 0..mine.len() {
        if !same_type(&mine[i], &theirs[i]) {
            return false;
        }
    }
    true
}
