// The variables that a call owns.
ghost use Rattle.std.specs.Prelude.{◌≡◌, ◌++◌, ◌-◌, IfOk, OnOk, map, option_map, slice_get};
ghost use Rattle.logic_core.specs.Variables.{renamed};
ghost use Rattle.logic_core.specs.Renamed.{new_number};
ghost use Rattle.bpl_model.specs.Numbering.{first_global};
ghost use Rattle.bpl_model.specs.Cut.{owned, owned_global};
ghost use Rattle.call_cut.specs.Own.{result_by};

use bpl_model::decl::Global as GlobalVariable;
use bpl_model::{Local, Name, Parts};
use logic_core::rename::rename_variables;
use logic_core::{Formula, Sort, SortKind};
use std::alloc::{AllocError, Global};

/// One for each argument.
pub fn push_owned(alloc: Global, ins: &[Local], own: &mut Vec<Local>) -> Result<(), AllocError>
    ensures { OnOk result (own.new.items ≡ own.old.items ++ map owned ins.now) }
{
    for local in ins {
        own.push(owned(alloc, local)?)?;
    }
    Ok(())
}

fn owned(alloc: Global, local: &Local) -> Result<Local, AllocError>
    ensures { IfOk result (λ l. l ≡ owned local.now) }
{
    Ok(Local {
        name: local.name.copy(alloc)?,
        sort: local.sort.copy(alloc)?,
        own: true,
        clause: None,
    })
}

/// One for the old value of each modified global.
pub fn push_owned_globals(
    alloc: Global,
    parts: &Parts,
    modified: &[u64],
    own: &mut Vec<Local>,
) -> Result<(), AllocError>
    ensures { OnOk result (own.new.items ≡ own.old.items ++ map (λ g. owned_global (slice_get parts.now.globals (g - first_global parts.now))) modified.now) }
{
    for number in modified {
        own.push(owned_global_of(alloc, parts, *number)?)?;
    }
    Ok(())
}

fn owned_global_of(alloc: Global, parts: &Parts, number: u64) -> Result<Local, AllocError>
    ensures { IfOk result (λ l. l ≡ owned_global (slice_get parts.now.globals (number - first_global parts.now))) }
{
    let place = number.saturating_sub(parts.consts.len() as u64) as usize;
    owned_global(alloc, parts.globals.get(place))
}

fn owned_global(alloc: Global, global: Option<&GlobalVariable>) -> Result<Local, AllocError>
    ensures { IfOk result (λ l. l ≡ owned_global (option_map (λ g. g.now) global.entry)) }
{
    match global {
        None => Ok(Local {
            name: Name {
                text: String::new(alloc),
            },
            sort: Sort {
                kind: SortKind::Int,
            },
            own: true,
            clause: None,
        }),
        Some(global) => Ok(Local {
            name: global.name.copy(alloc)?,
            sort: global.sort.copy(alloc)?,
            own: true,
            clause: None,
        }),
    }
}

/// One for each result, which has the clause of its out over the variables of the table.
pub fn push_results(
    alloc: Global,
    outs: &[Local],
    table: &[u64],
    own: &mut Vec<Local>,
) -> Result<(), AllocError>
    ensures { OnOk result (own.new.items ≡ own.old.items ++ map (result_by (new_number table.now)) outs.now) }
{
    for local in outs {
        own.push(result_of(alloc, local, table)?)?;
    }
    Ok(())
}

fn result_of(alloc: Global, local: &Local, table: &[u64]) -> Result<Local, AllocError>
    ensures { IfOk result (λ l. l ≡ result_by (new_number table.now) local.now) }
{
    Ok(Local {
        name: local.name.copy(alloc)?,
        sort: local.sort.copy(alloc)?,
        own: true,
        clause: renamed_clause(alloc, &local.clause, table)?,
    })
}

fn renamed_clause(
    alloc: Global,
    clause: &Option<Formula>,
    table: &[u64],
) -> Result<Option<Formula>, AllocError>
    ensures { IfOk result (λ c. c ≡ option_map (renamed (new_number table.now)) clause.now) }
{
    match clause {
        None => Ok(None),
        Some(formula) => Ok(Some(rename_variables(alloc, formula, table)?)),
    }
}
