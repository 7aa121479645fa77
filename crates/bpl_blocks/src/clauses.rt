// The clauses of variables, by their numbers.
ghost use Rattle.std.specs.Prelude.{◌≡◌, ◌++◌, IfOk, OnOk, map, None, filter_map, option_to_list, slice_index_or};
ghost use lib.ListN.{replicate};
ghost use Rattle.bpl_model.specs.Clauses.{all_clauses, clauses_of_locals};
ghost use Rattle.bpl_blocks.specs.Blocks.{assume_all};
ghost use Rattle.bpl_blocks.specs.Drawn.{clauses_in};

use crate::entry::push_clause;
use bpl_model::copy_decls::copy_optional_formula;
use bpl_model::decl::Global as GlobalVariable;
use bpl_model::number::rising;
use bpl_model::{Local, Parts, Proc};
use flow_core::Command;
use logic_core::Formula;
use std::alloc::{AllocError, Global};

/// The clause of each variable; constants and entry values have none.
pub fn all_clauses(
    alloc: Global,
    parts: &Parts,
    proc: &Proc,
) -> Result<Vec<Option<Formula>>, AllocError>
    ensures { IfOk result (λ v. v.items ≡ all_clauses parts.now proc.now) }
{
    let mut clauses = Vec::new(alloc);
    push_none(parts.consts.len(), &mut clauses)?;
    push_of_globals(alloc, parts.globals.as_slice(), &mut clauses)?;
    push_none(parts.globals.len(), &mut clauses)?;
    push_of_locals(alloc, proc.ins.as_slice(), &mut clauses)?;
    push_of_locals(alloc, proc.outs.as_slice(), &mut clauses)?;
    push_of_locals(alloc, proc.locals.as_slice(), &mut clauses)?;
    Ok(clauses)
}

// None so many times.
fn push_none(count: usize, clauses: &mut Vec<Option<Formula>>) -> Result<(), AllocError>
    ensures { OnOk result (clauses.new.items ≡ clauses.old.items ++ replicate count None) }
{
    for _i in 0..count {
        clauses.push(None)?;
    }
    Ok(())
}

fn push_of_globals(
    alloc: Global,
    globals: &[GlobalVariable],
    clauses: &mut Vec<Option<Formula>>,
) -> Result<(), AllocError>
    ensures { OnOk result (clauses.new.items ≡ clauses.old.items ++ map (λ g. g.clause) globals.now) }
{
    for global in globals {
        clauses.push(copy_optional_formula(alloc, &global.clause)?)?;
    }
    Ok(())
}

fn push_of_locals(
    alloc: Global,
    locals: &[Local],
    clauses: &mut Vec<Option<Formula>>,
) -> Result<(), AllocError>
    ensures { OnOk result (clauses.new.items ≡ clauses.old.items ++ clauses_of_locals locals.now) }
{
    for local in locals {
        clauses.push(copy_optional_formula(alloc, &local.clause)?)?;
    }
    Ok(())
}

/// After a havoc of these variables: the clause of each that has one is assumed, in the order of
/// their numbers.
pub fn push_assumed(
    alloc: Global,
    clauses: &[Option<Formula>],
    vars: &[u64],
    commands: &mut Vec<Command>,
) -> Result<(), AllocError>
    ensures { OnOk result (commands.new.items ≡ commands.old.items ++ assume_all (clauses_in clauses.now vars.now)) }
{
    let those = rising(alloc, vars, 0, clauses.len() as u64)?;
    push_each(alloc, clauses, those.as_slice(), commands)
}

fn push_each(
    alloc: Global,
    clauses: &[Option<Formula>],
    vars: &[u64],
    commands: &mut Vec<Command>,
) -> Result<(), AllocError>
    ensures { OnOk result (commands.new.items ≡ commands.old.items ++ assume_all (filter_map (λ v. slice_index_or clauses.now v None) vars.now)) }
{
    for var in vars {
        push_clause_at(alloc, clauses, *var, commands)?;
    }
    Ok(())
}

fn push_clause_at(
    alloc: Global,
    clauses: &[Option<Formula>],
    var: u64,
    commands: &mut Vec<Command>,
) -> Result<(), AllocError>
    ensures { OnOk result (commands.new.items ≡ commands.old.items ++ assume_all (option_to_list (slice_index_or clauses.now var None))) }
{
    match clauses.get(var as usize) {
        Some(clause) => push_clause(alloc, clause, commands),
        None => Ok(()),
    }
}
