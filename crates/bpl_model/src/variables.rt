// The variables of a procedure, by number: constants, globals, the globals' entry values,
// in-parameters, outs, locals.
ghost use Rattle.std.specs.Prelude.{◌≡◌, ◌++◌, IfOk, OnOk, count_by, length, map};
ghost use Rattle.bpl_model.specs.Numbering.{local_sorts};
ghost use Rattle.bpl_model.specs.VariablesView.{variables_from, variables_of};

use crate::decl::{Const, Global, Local};
use crate::module::Parts;
use crate::proc::Proc;
use logic_core::{Sequence, Sort};
use std::alloc;

/// The sorts of a procedure's variables, by number, and the first number of each kind of variable.
/// The variables from `first_own` on stand for replaced calls.
#[derive(Drop)]
pub struct Variables {
    pub sorts: Sequence<Sort>,
    /// The number of the first global variable.
    pub first_global: u64,
    /// The number of the first that keeps a global's value at entry.
    pub first_entry: u64,
    /// The number of the first in-parameter.
    pub first_in: u64,
    /// The number of the first out-parameter.
    pub first_out: u64,
    /// The number of the first local variable.
    pub first_local: u64,
    /// The number of the first that stands for a replaced call.
    pub first_own: u64,
}

impl Variables {
    /// The variables of the procedure.
    pub fn of(
        alloc: alloc::Global,
        parts: &Parts,
        proc: &Proc,
    ) -> Result<Variables, alloc::AllocError>
        ensures { IfOk result (λ v. v ≡ variables_of parts.now proc.now) }
    {
        variables_from(
            alloc,
            &parts.consts,
            &parts.globals,
            &proc.ins,
            &proc.outs,
            &proc.locals,
        )
    }
}

#[tactic(auto, using(crate::proofs::Numbers::own_fit))]
fn variables_from(
    alloc: alloc::Global,
    consts: &[Const],
    globals: &[Global],
    ins: &[Local],
    outs: &[Local],
    locals: &[Local],
) -> Result<Variables, alloc::AllocError>
    ensures { IfOk result (λ v. v ≡ variables_from consts.now globals.now ins.now outs.now locals.now) }
{
    let mut sorts = Vec::new(alloc);
    let first_global = push_const_sorts(alloc, &mut sorts, consts)?;
    let first_entry = push_global_sorts(alloc, &mut sorts, globals)?;
    let first_in = push_global_sorts(alloc, &mut sorts, globals)?;
    let first_out = push_local_sorts(alloc, &mut sorts, ins)?;
    let first_local = push_local_sorts(alloc, &mut sorts, outs)?;
    let count = push_local_sorts(alloc, &mut sorts, locals)?;
    let first_own = count - count_own(locals);
    Ok(Variables {
        sorts: Sequence::of(sorts),
        first_global,
        first_entry,
        first_in,
        first_out,
        first_local,
        first_own,
    })
}

fn count_own(locals: &[Local]) -> u64
    ensures { result ≡ count_by (λ l. l.own) locals.now }
{
    locals.iter().filter(|local| local.own).count() as u64
}

/// The constants' sorts come behind; how many sorts there are then.
pub fn push_const_sorts(
    alloc: alloc::Global,
    sorts: &mut Vec<Sort>,
    consts: &[Const],
) -> Result<u64, alloc::AllocError>
    ensures pushed { OnOk result (sorts.new.items ≡ sorts.old.items ++ map (λ c. c.sort) consts.now) }
    ensures count { IfOk result (λ n. n ≡ length sorts.new.items) }
{
    for constant in consts {
        sorts.push(constant.sort.copy(alloc)?)?;
    }
    Ok(sorts.len() as u64)
}

/// The globals' sorts come behind; how many sorts there are then.
pub fn push_global_sorts(
    alloc: alloc::Global,
    sorts: &mut Vec<Sort>,
    globals: &[Global],
) -> Result<u64, alloc::AllocError>
    ensures pushed { OnOk result (sorts.new.items ≡ sorts.old.items ++ map (λ g. g.sort) globals.now) }
    ensures count { IfOk result (λ n. n ≡ length sorts.new.items) }
{
    for global in globals {
        sorts.push(global.sort.copy(alloc)?)?;
    }
    Ok(sorts.len() as u64)
}

/// The variables' sorts come behind; how many sorts there are then.
pub fn push_local_sorts(
    alloc: alloc::Global,
    sorts: &mut Vec<Sort>,
    locals: &[Local],
) -> Result<u64, alloc::AllocError>
    ensures pushed { OnOk result (sorts.new.items ≡ sorts.old.items ++ local_sorts locals.now) }
    ensures count { IfOk result (λ n. n ≡ length sorts.new.items) }
{
    for local in locals {
        sorts.push(local.sort.copy(alloc)?)?;
    }
    Ok(sorts.len() as u64)
}
