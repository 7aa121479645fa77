// The types of what a program declares.
ghost use Rattle.std.specs.Prelude.{◌≡◌, None, IfOk};
ghost use Rattle.bpl_declaration_faults.specs.DeclFaults.{fault_of};
ghost use Rattle.user_types.specs.Erased.{erased};
ghost use Rattle.bpl_sorts.specs.DeclaredTypes.{types_over, declared_types};
ghost use Rattle.bpl_sorts.specs.TypesView.{IsListed};

use crate::function_types::function_types;
use crate::procedure_types::procedure_types;
use crate::type_names::TypeNames;
use crate::value_types::Types;
use crate::variable_types::{const_types, global_types};
use bpl_ast::{Decl, Program};
use bpl_scopes::declare_all;
use std::alloc::{AllocError, Global};
use user_types::erase;

// The types of what declarations without fault declare.
fn types_over(alloc: Global, known: &TypeNames, decls: &[Decl]) -> Result<Types, AllocError>
    requires { fault_of decls.now ≡ None }
    ensures { IfOk result (IsListed (types_over known.now decls.now)) }
{
    let consts = const_types(alloc, known, decls)?;
    let globals = global_types(alloc, known, decls)?;
    let funcs = function_types(alloc, known, decls)?;
    let procs = procedure_types(alloc, known, decls)?;
    Ok(Types {
        consts,
        globals,
        funcs,
        procs,
    })
}

fn types_in(alloc: Global, known: &TypeNames, program: &Program) -> Result<Types, AllocError>
    requires { fault_of program.now ≡ None }
    ensures { IfOk result (IsListed (types_over known.now program.now)) }
{
    types_over(alloc, known, &program.decls)
}

/// The types of what a program declares whose erased declarations have no fault.
pub(crate) fn declared_types(alloc: Global, program: &Program) -> Result<Types, AllocError>
    requires { fault_of (erased program.now) ≡ None }
    ensures { IfOk result (IsListed (declared_types program.now)) }
{
    let (table, _) = declare_all(alloc, &program.decls)?;
    let known = TypeNames::of(alloc, table)?;
    let erased = erase(alloc, program)?;
    types_in(alloc, &known, &erased)
}
