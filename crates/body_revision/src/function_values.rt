// The number of a function, and the term of its value.
ghost use Rattle.std.specs.Prelude.{◌≡◌, List, ℕ, IfOk, IsTrue};
ghost use Rattle.bpl_ast.specs.Statement.{Decl as decl_of};
ghost use Rattle.bpl_scopes.specs.CountsView.{counts_seen};
ghost use Rattle.bpl_scopes.specs.Functions.{in_number_order, function_number};
ghost use Rattle.body_revision.specs.Procedures.{declares_function};
ghost use Rattle.body_revision.specs.Revision.{IsPartOf};

use crate::revised::ModulePart;
use bpl_ast::{Decl, DeclBody, Name};
use bpl_declaration_faults::Declared;
use bpl_resolve::functions::value_term;
use bpl_scopes::Positions;
use bpl_terms::numbers::position_of;
use std::alloc::{AllocError, Global};

// How many functions stand before the one of that name.
#[tactic(auto, unfolding(bpl_scopes::specs::Functions::function_number))]
fn function_number<'d, 'a>(declared: &Declared<'d, 'a>, order: &Positions, name: &Name) -> usize
    requires { order.now ≡ in_number_order declared.now.environment.now }
    ensures { result ≡ function_number declared.now.environment.now name.now.text }
{
    position_of(order, name.text.as_bytes())
}

/// The function that a declaration declares, with its value.
pub(crate) fn function_part<'d, 'a>(
    alloc: Global,
    declared: &Declared<'d, 'a>,
    order: &Positions,
    decl: &'a Decl,
) -> Result<ModulePart, AllocError>
    requires order { order.now ≡ in_number_order declared.now.environment.now }
    requires function { IsTrue (declares_function decl.now.body) }
    ensures { IfOk result (λ p. (ds : List decl_of) (at : ℕ) → IsPartOf declared.now.environment.now (counts_seen declared.now.counts) ds at decl.now p) }
{
    match decl.body() {
        DeclBody::Function {
            name,
            arguments,
            value,
            ..
        } => {
            let body = value_term(alloc, declared, order, arguments, value)?;
            Ok(ModulePart::Function {
                at: function_number(declared, order, name),
                body,
            })
        }
        _ => unreachable!(),
    }
}
