// Procedures without calls.
ghost use Rattle.std.specs.Prelude.{◌≡◌, IfOk, Contains};
ghost use Rattle.std.specs.List.{AllByRecursion};
ghost use Rattle.bpl_model.specs.Typed.{IsTypedProc};
ghost use Rattle.bpl_model.specs.Cut.{cut_calls};
ghost use Rattle.bpl_model.specs.NoGoto.{BodyHasNoGoto};
ghost use Rattle.call_cut.specs.Kept.{KeepsFailures};

use crate::body::cut_body;
use crate::call::CallVariables;
use crate::number::first_local;
use crate::table::between_calls;
use bpl_model::copy_decls::{copy_locals, copy_specs};
use bpl_model::number::sum;
use bpl_model::{Module, Parts, Proc};
use std::alloc::{AllocError, Global};

/// The procedure with each call replaced by its callee's contract. The variables that the calls own
/// are the last of its locals. Of a procedure of the module in which no goto stands, each failing
/// execution has a failing one of the result, which calls nothing. The time is linear in the body
/// and in the contracts that it calls, after one walk over the module's constants and globals.
///
/// An error is want of memory.
pub fn cut_calls(alloc: Global, module: &Module, p: &Proc) -> Result<Proc, AllocError>
    ensures exact { IfOk result (λ q. q ≡ cut_calls «module».now p.now) }
    ensures kept { IfOk result (λ q. Contains «module».now.procs p.now → BodyHasNoGoto p.now.body → KeepsFailures «module».now p.now q) }
{
    cut_over(alloc, module.parts(), p)
}

fn cut_over(alloc: Global, parts: &Parts, p: &Proc) -> Result<Proc, AllocError>
    requires { AllByRecursion (IsTypedProc parts.now) parts.now.procs }
    ensures { IfOk result (λ q. q ≡ cut_calls parts.now p.now) }
{
    let first = sum(first_local(parts, p)?, p.locals.len() as u64)?;
    let mut variables = CallVariables {
        own: Vec::new(alloc),
        table: between_calls(alloc, parts)?,
    };
    let body = cut_body(alloc, parts, first, &p.body, &mut variables)?;
    let mut locals = copy_locals(alloc, p.locals.as_slice())?;
    locals.append(&mut variables.own)?;
    Ok(Proc {
        name: p.name.copy(alloc)?,
        ins: copy_locals(alloc, p.ins.as_slice())?,
        outs: copy_locals(alloc, p.outs.as_slice())?,
        locals,
        specs: copy_specs(alloc, p.specs.as_slice())?,
        body,
    })
}
