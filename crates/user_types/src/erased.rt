// A program without user types.
ghost use Rattle.std.specs.Prelude.{◌≡◌, IfOk};
ghost use Rattle.bpl_scopes.specs.Scopes.{table_of};
ghost use Rattle.user_types.specs.Erased.{erased, told_apart};

use crate::constants::{count_axioms, push_axioms, uniques};
use crate::readings::Reading;
use crate::replaced::replaced;
use bpl_ast::Program;
use bpl_scopes::{Table, declare_all};
use std::alloc::{AllocError, Global};

/// The program without user types, as `erase` gives it, where this is the table of its names.
pub fn erase_over(alloc: Global, table: &Table, program: &Program) -> Result<Program, AllocError>
    requires { table.now ≡ table_of program.now }
    ensures { IfOk result (λ p. p ≡ erased program.now) }
{
    let mut decls = replaced(alloc, table, Reading::Integers, &program.decls)?;
    let constants = uniques(alloc, table, &program.decls)?;
    push_axioms(alloc, &mut decls, count_axioms(&program.decls)?, &constants)?;
    Ok(Program { decls })
}

/// The program without user types: each becomes a synonym of `int`, `unique` goes away on its
/// constants, and for each of these an axiom at the end says which carrier it is: 0, 1, 2 and so on
/// for each user type, in the order of the text. Other declarations stay as they are, and all keep
/// their names, places and sources. The only error is want of memory.
pub fn erase(alloc: Global, program: &Program) -> Result<Program, AllocError>
    ensures { IfOk result (λ p. p ≡ erased program.now) }
{
    let (table, _) = declare_all(alloc, &program.decls)?;
    erase_over(alloc, &table, program)
}

/// The program's declarations, where other maps stand for each user type; this is the table of its
/// names.
pub(crate) fn tell_apart(
    alloc: Global,
    table: &Table,
    program: &Program,
) -> Result<Program, AllocError>
    requires { table.now ≡ table_of program.now }
    ensures { IfOk result (λ p. p ≡ told_apart program.now) }
{
    let decls = replaced(alloc, table, Reading::Apart, &program.decls)?;
    Ok(Program { decls })
}
