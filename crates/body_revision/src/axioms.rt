// Axioms: one, how many stand before it, and whether two declarations state one each.
ghost use Rattle.std.specs.Prelude.{◌≡◌, ◌&&◌, [], ◌∷◌, count_by, IfOk, IsTrue};
ghost use Rattle.bpl_ast.specs.DeclView.{body_of};
ghost use Rattle.bpl_scopes.specs.CountsView.{counts_seen};
ghost use Rattle.bpl_scopes.specs.Functions.{in_number_order};
ghost use Rattle.bpl_resolve.specs.Elaborate.{axioms_in};
ghost use Rattle.body_revision.specs.Procedures.{is_axiom};
ghost use Rattle.body_revision.specs.Revised.{IsOtherAxiom};

use bpl_ast::{Decl, DeclBody};
use bpl_declaration_faults::Declared;
use bpl_resolve::constants::axiom;
use bpl_scopes::Positions;
use logic_core::Formula;
use std::alloc::{AllocError, Global};

pub(crate) fn is_axiom(body: &DeclBody) -> bool
    ensures { result ≡ is_axiom (body_of body.now) }
{
    match body {
        DeclBody::Axiom(_) => true,
        DeclBody::Const { .. } => false,
        DeclBody::Function { .. } => false,
        DeclBody::Var(_) => false,
        DeclBody::TypeName { .. } => false,
        DeclBody::Procedure { .. } => false,
        DeclBody::Implementation { .. } => false,
    }
}

// Whether both state axioms.
fn are_axioms(old: &DeclBody, new: &DeclBody) -> bool
    ensures { result ≡ (is_axiom (body_of old.now) && is_axiom (body_of new.now)) }
{
    is_axiom(old) && is_axiom(new)
}

/// Whether they are axioms.
pub(crate) fn is_other_axiom(old: &DeclBody, new: &DeclBody) -> bool
    ensures equal { IsTrue result → IsOtherAxiom (body_of old.now) (body_of new.now) }
    ensures told { IsOtherAxiom (body_of old.now) (body_of new.now) → IsTrue result }
{
    are_axioms(old, new)
}

/// How many of the declarations state axioms.
pub(crate) fn count_axioms(decls: &[Decl]) -> usize
    ensures { result ≡ count_by (λ d. is_axiom d.body) decls.now }
{
    let mut count = 0;
    for decl in decls {
        if is_axiom(decl.body()) {
            count += 1;
        }
    }
    count
}

/// The axiom that a declaration states.
pub(crate) fn axiom_in<'d, 'a>(
    alloc: Global,
    declared: &Declared<'d, 'a>,
    order: &Positions,
    decl: &'a Decl,
) -> Result<Formula, AllocError>
    requires order { order.now ≡ in_number_order declared.now.environment.now }
    requires axiom { IsTrue (is_axiom decl.now.body) }
    ensures { IfOk result (λ f. axioms_in declared.now.environment.now (counts_seen declared.now.counts) decl.now.body ≡ f ∷ []) }
{
    match decl.body() {
        DeclBody::Axiom(x) => {
            let formula = axiom(alloc, declared, order, x)?;
            Ok(formula)
        }
        _ => unreachable!(),
    }
}
