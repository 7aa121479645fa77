// Where the declarations of functions stand, in the order of the functions' numbers.
ghost use Rattle.std.specs.Prelude.{◌≡◌, ◌+◌, length, option_map, IfOk};
ghost use Rattle.bpl_resolve.specs.Places.{function_name, put_at, place, places_from, places};

use bpl_ast::{Decl, DeclBody, Name};
use bpl_scopes::Positions;
use std::alloc::{AllocError, Global};

/// The name of the function that a declaration declares.
pub(crate) fn function_name(decl: &Decl) -> Option<&Name>
    ensures { option_map (λ n. n.now.text) result ≡ function_name decl.now.body }
{
    match decl.body() {
        DeclBody::Function { name, .. } => Some(name),
        DeclBody::Const { .. } => None,
        DeclBody::Axiom(_) => None,
        DeclBody::Var(_) => None,
        DeclBody::TypeName { .. } => None,
        DeclBody::Procedure { .. } => None,
        DeclBody::Implementation { .. } => None,
    }
}

// Puts a position at the number of the function of that name.
#[tactic(auto, using(crate::proofs::FirstPlaces::first_within))]
fn place(order: &Positions, at: usize, name: Option<&Name>, places: &mut Vec<usize>)
    requires { length places.old.items ≡ length order.now }
    ensures { places.new.items ≡ place order.now at (option_map (λ n. n.now.text) name.entry) places.old.items }
{
    match name {
        Some(name) => match order.find(name.text.as_bytes()) {
            Some(number) => {
                places[number] = at;
            }
            None => {}
        },
        None => {}
    }
}

/// For each number of a function the position of its declaration, where functions are numbered in
/// this order.
pub(crate) fn places(
    alloc: Global,
    order: &Positions,
    decls: &[Decl],
) -> Result<Vec<usize>, AllocError>
    ensures { IfOk result (λ v. v.items ≡ places order.now decls.now) }
{
    let mut places = vec![in alloc; decls.len(); order.len()]?;
    for i in 0..decls.len() {
        let decl = &decls[i];
        place(order, i, function_name(decl), &mut places);
    }
    Ok(places)
}
