// The user types for which types stand through synonyms.
ghost use Rattle.std.specs.Prelude.{◌≡◌, ℕ, suc, List, Option, option_map, length};
ghost use Rattle.bpl_scopes.specs.Scopes.{Entry};
ghost use Rattle.user_types.specs.UserTypes.{user_after, user_in, user_of};
ghost use Rattle.user_types.specs.Views.{after_step, named_by};

use bpl_ast::{Type, TypeForm};
use bpl_scopes::{Entity, Table};

// Where a name leads: it is a user type, a synonym of a name, or neither.
#[derive(Clone, Copy)]
pub(crate) enum Step<'a> {
    Here,
    On(&'a [u8]),
    Nowhere,
}

// The name that a type is.
fn name_of<'a>(of: &'a Type) -> Option<&'a [u8]>
    ensures { (f : List ℕ → Option ℕ) → user_in f of.now ≡ named_by f (option_map (λ n. n.now) result) }
{
    match &of.form {
        TypeForm::Named(name) => Some(name.text.as_bytes()),
        TypeForm::Int => None,
        TypeForm::Bool => None,
        TypeForm::Map(_, _, _) => None,
    }
}

fn step_to<'a>(of: &'a Type) -> Step<'a>
    ensures { (t : List Entry) (k : ℕ) (n : List ℕ) → user_in (user_after t k) of.now ≡ after_step t k n result }
{
    match name_of(of) {
        Some(name) => Step::On(name),
        None => Step::Nowhere,
    }
}

fn step_from<'a>(table: &Table<'a>, name: &[u8]) -> Step<'a>
    ensures { (k : ℕ) → user_after table.now (suc k) name.now ≡ after_step table.now k name.now result }
{
    match table.entity(name) {
        Some(Entity::Synonym { of: None }) => Step::Here,
        Some(Entity::Synonym { of: Some(of) }) => step_to(of),
        _ => Step::Nowhere,
    }
}

// The user type for which a name stands.
fn user_named(table: &Table, name: &[u8]) -> Option<usize>
    ensures { result ≡ user_after table.now (length table.now) name.now }
{
    let mut now = name;
    for round in 0..table.len() {
        match step_from(table, now) {
            Step::Here => return table.find(now),
            Step::On(next) => now = next,
            Step::Nowhere => return None,
        }
    }
    None
}

/// The user type for which a type stands through synonyms, by its place in the table.
pub(crate) fn user_of(table: &Table, of: &Type) -> Option<usize>
    ensures { result ≡ user_of table.now of.now }
{
    match &of.form {
        TypeForm::Named(name) => user_named(table, name.text.as_bytes()),
        TypeForm::Int => None,
        TypeForm::Bool => None,
        TypeForm::Map(_, _, _) => None,
    }
}
