// The faults of a procedure by itself.
ghost use Rattle.std.specs.Prelude.{◌≡◌, IfOk};
ghost use Rattle.bpl_scopes.specs.Scopes.{table_of, no_counts, counts_after};
ghost use Rattle.body_revision.specs.Names.{own_fault};

use crate::declared_names::DeclaredNames;
use bpl_ast::Decl;
use bpl_declaration_faults::Before;
use bpl_resolve::type_fault::fault_of_decl;
use bpl_scopes::{Fault, Positions};
use std::alloc::{AllocError, Global};

/// The first fault of a declaration before which nothing stands.
pub fn own_fault<'a>(
    alloc: Global,
    names: &DeclaredNames<'a>,
    decl: &'a Decl,
) -> Result<Option<Fault>, AllocError>
    ensures { IfOk result (λ f. f ≡ own_fault (table_of names.now.declarations) (counts_after no_counts names.now.declarations) decl.now.body) }
{
    let mut before = Before {
        names: Positions::new(alloc),
        bodies: Positions::new(alloc),
    };
    fault_of_decl(
        alloc,
        names.declarations.dependencies(),
        names.declarations.counts(),
        &mut before,
        decl.body(),
    )
}
