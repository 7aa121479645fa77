// What is assumed where a body begins, and asserted where it ends.
ghost use Rattle.std.specs.Prelude.{◌≡◌, [], ◌++◌, OnOk, cond, map, not, filter, filter_map, option_to_list};
ghost use Rattle.flow_core.specs.Reader.{command_of};
ghost use Rattle.bpl_model.specs.Clauses.{local_clauses};
ghost use Rattle.bpl_model.specs.Contract.{preconditions, end_checks};
ghost use Rattle.bpl_blocks.specs.Blocks.{assume_all, at_entry};

use crate::reach::push_reached;
use bpl_model::{GoalKind, Links, Local, Mark, Proc, Spec, SpecForm};
use flow_core::Command;
use logic_core::Formula;
use std::alloc::{AllocError, Global};

/// At entry the clauses of the globals that the procedure's names reach, those of its parameters and
/// locals, and each `requires`, free or not, are assumed.
pub fn push_entry(
    alloc: Global,
    links: &Links<'_>,
    proc: &Proc,
    commands: &mut Vec<Command>,
) -> Result<(), AllocError>
    ensures { OnOk result (commands.new.items ≡ commands.old.items ++ assume_all (at_entry links.now proc.now)) }
{
    push_reached(alloc, links, proc, commands)?;
    push_clauses(alloc, proc.ins.as_slice(), commands)?;
    push_clauses(alloc, proc.outs.as_slice(), commands)?;
    push_clauses_but_own(alloc, proc.locals.as_slice(), commands)?;
    push_preconditions(alloc, proc.specs.as_slice(), commands)
}

/// The clause is assumed, where there is one.
pub fn push_clause(
    alloc: Global,
    clause: &Option<Formula>,
    commands: &mut Vec<Command>,
) -> Result<(), AllocError>
    ensures { OnOk result (commands.new.items ≡ commands.old.items ++ assume_all (option_to_list clause.now)) }
{
    match clause {
        None => Ok(()),
        Some(formula) => {
            commands.push(Command::Assume(formula.copy(alloc)?))?;
            Ok(())
        }
    }
}

/// The clause is assumed, where there is one and the test holds.
pub fn push_clause_if(
    alloc: Global,
    test: bool,
    clause: &Option<Formula>,
    commands: &mut Vec<Command>,
) -> Result<(), AllocError>
    ensures { OnOk result (commands.new.items ≡ commands.old.items ++ assume_all (cond test (option_to_list clause.now) [])) }
{
    if test {
        push_clause(alloc, clause, commands)
    } else {
        Ok(())
    }
}

fn push_clauses(
    alloc: Global,
    locals: &[Local],
    commands: &mut Vec<Command>,
) -> Result<(), AllocError>
    ensures { OnOk result (commands.new.items ≡ commands.old.items ++ assume_all (filter_map (λ l. l.clause) locals.now)) }
{
    for local in locals {
        push_clause(alloc, &local.clause, commands)?;
    }
    Ok(())
}

// Those of the variables that don't stand for calls.
fn push_clauses_but_own(
    alloc: Global,
    locals: &[Local],
    commands: &mut Vec<Command>,
) -> Result<(), AllocError>
    ensures { OnOk result (commands.new.items ≡ commands.old.items ++ assume_all (filter_map (λ l. l.clause) (filter (λ l. not l.own) locals.now))) }
{
    for local in locals {
        push_clause_if(alloc, !local.own, &local.clause, commands)?;
    }
    Ok(())
}

fn push_preconditions(
    alloc: Global,
    specs: &[Spec],
    commands: &mut Vec<Command>,
) -> Result<(), AllocError>
    ensures { OnOk result (commands.new.items ≡ commands.old.items ++ assume_all (preconditions specs.now)) }
{
    for spec in specs {
        if let SpecForm::Requires(_, _, formula) = &spec.form {
            commands.push(Command::Assume(formula.copy(alloc)?))?;
        }
    }
    Ok(())
}

/// At the end each checked `ensures` is asserted.
pub fn push_end_checks(
    alloc: Global,
    specs: &[Spec],
    commands: &mut Vec<Command>,
) -> Result<(), AllocError>
    ensures { OnOk result (commands.new.items ≡ commands.old.items ++ map command_of (end_checks specs.now)) }
{
    for spec in specs {
        if let SpecForm::Ensures(false, place, formula) = &spec.form {
            let mark = Mark {
                place: *place,
                kind: GoalKind::Ensures,
            };
            commands.push(Command::Assert(mark, formula.copy(alloc)?))?;
        }
    }
    Ok(())
}
