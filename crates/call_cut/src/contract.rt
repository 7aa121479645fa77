// What the contract of a procedure says of a call.
ghost use Rattle.std.specs.Prelude.{◌≡◌, ◌++◌, IfOk, OnOk, map};
ghost use Rattle.logic_core.specs.Variables.{renamed};
ghost use Rattle.logic_core.specs.Renamed.{new_number};
ghost use Rattle.bpl_model.specs.Module.{assume};
ghost use Rattle.bpl_model.specs.StmtView.{stmts_of};
ghost use Rattle.bpl_model.specs.Contract.{call_checks, modified, named_in_modifies, postconditions};
ghost use Rattle.bpl_model.specs.Cut.{check};

use bpl_model::number::rising;
use bpl_model::{GoalKind, Mark, Parts, Place, Proc, Spec, SpecForm, Stmt, StmtForm};
use logic_core::rename::rename_variables;
use std::alloc::{AllocError, Global};

/// The globals that the procedure may modify, each once and in order of declaration.
pub fn modified(alloc: Global, parts: &Parts, proc: &Proc) -> Result<Vec<u64>, AllocError>
    ensures { IfOk result (λ v. v.items ≡ modified parts.now proc.now) }
{
    let named = named_in_modifies(alloc, proc.specs.as_slice())?;
    let first = parts.consts.len() as u64;
    rising(alloc, named.as_slice(), first, parts.globals.len() as u64)
}

fn named_in_modifies(alloc: Global, specs: &[Spec]) -> Result<Vec<u64>, AllocError>
    ensures { IfOk result (λ v. v.items ≡ named_in_modifies specs.now) }
{
    let mut named = Vec::new(alloc);
    for spec in specs {
        if let SpecForm::Modifies(globals) = &spec.form {
            named.extend_from_slice(globals.as_slice())?;
        }
    }
    Ok(named)
}

/// What a call at this place asserts: each checked `requires`, over the variables of the table.
pub fn push_checks(
    alloc: Global,
    at: Place,
    specs: &[Spec],
    table: &[u64],
    stmts: &mut Vec<Stmt>,
) -> Result<(), AllocError>
    ensures { OnOk result (stmts.new.items ≡ stmts.old.items ++ map (check (new_number table.now) at) (call_checks at 0 specs.now)) }
{
    let mut k: u64 = 0;
    for spec in specs {
        if let SpecForm::Requires(false, _, formula) = &spec.form {
            k = k.checked_add(1).ok_or(AllocError)?;
            let mark = Mark {
                place: at,
                kind: GoalKind::Requires(k),
            };
            let over = rename_variables(alloc, formula, table)?;
            stmts.push(Stmt::new(StmtForm::Assert(mark, over)))?;
        }
    }
    Ok(())
}

/// What a call at this place assumes: each `ensures`, free or not, over the variables of the table.
pub fn push_postconditions(
    alloc: Global,
    at: Place,
    specs: &[Spec],
    table: &[u64],
    stmts: &mut Vec<Stmt>,
) -> Result<(), AllocError>
    ensures { OnOk result (stmts.new.items ≡ stmts.old.items ++ map (λ E. assume at (renamed (new_number table.now) E)) (postconditions specs.now)) }
{
    for spec in specs {
        if let SpecForm::Ensures(_, _, formula) = &spec.form {
            let over = rename_variables(alloc, formula, table)?;
            stmts.push(Stmt::new(StmtForm::Assume(at, over)))?;
        }
    }
    Ok(())
}
