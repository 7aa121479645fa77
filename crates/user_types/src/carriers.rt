// The first place at which carriers are taken for something else.
ghost use Rattle.std.specs.Prelude.{◌≡◌, IfOk};
ghost use Rattle.bpl_scopes.specs.Scopes.{table_of};
ghost use Rattle.user_types.specs.CarrierFaults.{carrier_fault};

use crate::erased::tell_apart;
use bpl_ast::Program;
use bpl_resolve::first_fault;
use bpl_scopes::{Table, declare_all};
use bv_base::place::Place;
use std::alloc::{AllocError, Global};

/// The first place at which a program takes carriers for something else, as `first_carrier_fault` tells
/// it, where this is the table of its names.
pub fn first_carrier_fault_over(
    alloc: Global,
    table: &Table,
    program: &Program,
) -> Result<Option<(usize, Place)>, AllocError>
    requires { table.now ≡ table_of program.now }
    ensures { IfOk result (λ f. f ≡ carrier_fault program.now) }
{
    let apart = tell_apart(alloc, table, program)?;
    match first_fault(alloc, &apart.decls)? {
        Some(fault) => Ok(Some((fault.decl, fault.at))),
        None => Ok(None),
    }
}

/// The first place at which a program takes carriers for something else, by declaration and then place;
/// None exactly where it takes them for carriers of their own user type alone. It tells so where the
/// erased program has no fault, as `check_carriers` does. The only error is want of memory.
pub fn first_carrier_fault(
    alloc: Global,
    program: &Program,
) -> Result<Option<(usize, Place)>, AllocError>
    ensures { IfOk result (λ f. f ≡ carrier_fault program.now) }
{
    let (table, _) = declare_all(alloc, &program.decls)?;
    first_carrier_fault_over(alloc, &table, program)
}
