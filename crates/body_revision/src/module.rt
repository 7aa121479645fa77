// The module where declarations are revisions of others.
ghost use Rattle.std.specs.Prelude.{◌≡◌, ◌<◌, ◌||◌, Some, None, length, is_none, is_some, IfOk, IfSome, IsTrue};
ghost use Rattle.bpl_scopes.specs.CountsView.{counts_seen};
ghost use Rattle.bpl_scopes.specs.Functions.{in_number_order};
ghost use Rattle.bpl_scopes.specs.Scopes.{table_of, no_counts, counts_after};
ghost use Rattle.body_revision.specs.Names.{own_fault};
ghost use Rattle.body_revision.specs.Procedures.{is_procedure, is_axiom, procedure_place, procedure_by};
ghost use Rattle.body_revision.specs.Revision.{IsPartOf, IsMade, is_nowhere};

use crate::axioms::{axiom_in, count_axioms, is_axiom};
use crate::declared_names::DeclaredNames;
use crate::faultless::own_fault;
use crate::function_values::function_part;
use crate::functions::declares_function;
use crate::places::{procedure_by, procedure_place};
use crate::procedures::{count_procedures, procedure_of};
use crate::revised::{ModulePart, Revision};
use bpl_ast::Decl;
use bpl_declaration_faults::Declared;
use bpl_resolve::texts::decl_text;
use bpl_scopes::Positions;
use std::alloc::{AllocError, Global};

// The procedure of a declaration, which stands there.
fn procedure_part<'d, 'a>(
    alloc: Global,
    declared: &Declared<'d, 'a>,
    order: &Positions,
    decls: &'a [Decl],
    at: usize,
    place: usize,
    decl: &'a Decl,
) -> Result<ModulePart, AllocError>
    requires order { order.now ≡ in_number_order declared.now.environment.now }
    requires found { procedure_place decls.now at decl.now.body ≡ Some place }
    requires there { place < length decls.now }
    requires procedure { IsTrue (is_procedure (procedure_by decls.now place decl.now)) }
    ensures { IfOk result (IsPartOf declared.now.environment.now (counts_seen declared.now.counts) decls.now at decl.now) }
{
    let of = procedure_by(decls, place, decl);
    let proc = procedure_of(alloc, declared, order, of, decl)?;
    Ok(ModulePart::Procedure {
        at: count_procedures(&decls[..place]),
        proc,
    })
}

// The axiom that a declaration states.
fn axiom_part<'d, 'a>(
    alloc: Global,
    declared: &Declared<'d, 'a>,
    order: &Positions,
    decls: &'a [Decl],
    at: usize,
    decl: &'a Decl,
) -> Result<ModulePart, AllocError>
    requires order { order.now ≡ in_number_order declared.now.environment.now }
    requires there { at < length decls.now }
    requires axiom { IsTrue (is_axiom decl.now.body) }
    ensures { IfOk result (IsPartOf declared.now.environment.now (counts_seen declared.now.counts) decls.now at decl.now) }
{
    let formula = axiom_in(alloc, declared, order, decl)?;
    Ok(ModulePart::Axiom {
        at: count_axioms(&decls[..at]),
        formula,
    })
}

// What of the module a declaration makes new in the place of another one.
fn part_of<'d, 'a>(
    alloc: Global,
    declared: &Declared<'d, 'a>,
    order: &Positions,
    decls: &'a [Decl],
    at: usize,
    decl: &'a Decl,
) -> Result<Option<ModulePart>, AllocError>
    requires order { order.now ≡ in_number_order declared.now.environment.now }
    requires there { at < length decls.now }
    ensures part { IfOk result (λ o. IfSome o (IsPartOf declared.now.environment.now (counts_seen declared.now.counts) decls.now at decl.now)) }
    ensures told { IfOk result (λ o. is_none o ≡ is_nowhere decls.now at decl.now.body) }
{
    if is_axiom(decl.body()) {
        let part = axiom_part(alloc, declared, order, decls, at, decl)?;
        return Ok(Some(part));
    }
    if declares_function(decl.body()) {
        let part = function_part(alloc, declared, order, decl)?;
        return Ok(Some(part));
    }
    match procedure_place(decls, at, decl) {
        Some(place) => {
            let part = procedure_part(alloc, declared, order, decls, at, place, decl)?;
            Ok(Some(part))
        }
        None => Ok(None),
    }
}

// What is new, where the declaration has no fault of its own.
fn new_part<'a>(
    alloc: Global,
    names: &DeclaredNames<'a>,
    decls: &'a [Decl],
    at: usize,
    count: usize,
    decl: &'a Decl,
) -> Result<Option<Revision>, AllocError>
    requires order { names.now.order ≡ in_number_order (table_of names.now.declarations) }
    requires faultless { own_fault (table_of names.now.declarations) (counts_after no_counts names.now.declarations) decl.now.body ≡ None }
    requires there { at < length decls.now }
    ensures new { IfOk result (λ o. IfSome o (IsMade names.now decls.now at count decl.now)) }
    ensures told { IfOk result (λ o. is_none o ≡ is_nowhere decls.now at decl.now.body) }
{
    let declared = Declared {
        environment: names.declarations.dependencies().environment(),
        counts: names.declarations.counts(),
    };
    match part_of(alloc, &declared, &names.order, decls, at, decl)? {
        Some(part) => {
            let text = decl_text(alloc, declared.types().table(), count, decl)?;
            Ok(Some(Revision {
                decl_at: at,
                part,
                text,
            }))
        }
        None => Ok(None),
    }
}

/// What is new in the module of a program of so many declarations where this declaration takes the
/// place of one of these of which it is a revision, if it has no fault of its own, and is an axiom or a
/// function, or its procedure is found. The names are those of the program; of procedures' contracts only
/// what they modify counts in them, of functions' values only what they apply, and of axioms nothing: so
/// it is new too where other declarations have given way to revisions. The only error is want of memory.
pub fn revision<'a>(
    alloc: Global,
    names: &DeclaredNames<'a>,
    decls: &'a [Decl],
    at: usize,
    count: usize,
    decl: &'a Decl,
) -> Result<Option<Revision>, AllocError>
    requires order { names.now.order ≡ in_number_order (table_of names.now.declarations) }
    requires there { at < length decls.now }
    ensures new { IfOk result (λ o. IfSome o (IsMade names.now decls.now at count decl.now)) }
    ensures told { IfOk result (λ o. is_none o ≡ (is_some (own_fault (table_of names.now.declarations) (counts_after no_counts names.now.declarations) decl.now.body) || is_nowhere decls.now at decl.now.body)) }
{
    match own_fault(alloc, names, decl)? {
        Some(_) => Ok(None),
        None => {
            let found = new_part(alloc, names, decls, at, count, decl)?;
            Ok(found)
        }
    }
}
