// Modules without gotos.
ghost use Rattle.std.specs.Prelude.{◌≡◌, IfOk, map, option_map, Contains};
ghost use Rattle.bpl_model.specs.StmtView.{body_of};
ghost use Rattle.bpl_model.specs.Module.{Proc as procedure};
ghost use Rattle.bpl_goto.specs.Forward.{AllGoForward};
ghost use Rattle.bpl_goto.specs.Removed.{body_without, removed, remove_gotos};
ghost use Rattle.bpl_goto.specs.Kept.{KeepsFailures};

use crate::list::body_without;
use bpl_model::copy_decls::{copy_locals, copy_specs};
use bpl_model::copy_module::{copy_consts, copy_functions, copy_globals, copy_texts};
use bpl_model::{Module, Parts, Proc, Stmt};
use logic_core::copy::copy_terms;
use std::alloc::{AllocError, Global};

fn optional_body_without(
    alloc: Global,
    body: &Option<Vec<Stmt>>,
) -> Result<Option<Vec<Stmt>>, AllocError>
    ensures { IfOk result (λ b. body_of b ≡ option_map body_without (body_of body.now)) }
{
    match body {
        Some(stmts) => Ok(Some(body_without(alloc, stmts)?)),
        None => Ok(None),
    }
}

/// The procedure with the gotos of its body removed.
pub fn removed(alloc: Global, proc: &Proc) -> Result<Proc, AllocError>
    ensures { IfOk result (λ p. p ≡ removed proc.now) }
{
    Ok(Proc {
        name: proc.name.copy(alloc)?,
        ins: copy_locals(alloc, &proc.ins)?,
        outs: copy_locals(alloc, &proc.outs)?,
        locals: copy_locals(alloc, &proc.locals)?,
        specs: copy_specs(alloc, &proc.specs)?,
        body: optional_body_without(alloc, &proc.body)?,
    })
}

fn all_removed(alloc: Global, procs: &[Proc]) -> Result<Vec<Proc>, AllocError>
    ensures { IfOk result (λ v. v.items ≡ map removed procs.now) }
{
    let mut without = Vec::new(alloc);
    for proc in procs {
        without.push(removed(alloc, proc)?)?;
    }
    Ok(without)
}

fn parts_without(alloc: Global, parts: &Parts) -> Result<Parts, AllocError>
    ensures { IfOk result (λ p. p ≡ remove_gotos parts.now) }
{
    Ok(Parts {
        consts: copy_consts(alloc, &parts.consts)?,
        axioms: copy_terms(alloc, &parts.axioms)?,
        functions: copy_functions(alloc, &parts.functions)?,
        globals: copy_globals(alloc, &parts.globals)?,
        procs: all_removed(alloc, &parts.procs)?,
        texts: copy_texts(alloc, &parts.texts)?,
    })
}

/// The module with the gotos of its bodies removed. In each body the labels are distinct, and the
/// gotos go forward. From every entry state, and for every mark, each procedure has a failing
/// execution exactly where it has one with its gotos removed, and no goto is left. The time is
/// linear in the module's size.
pub fn remove_gotos(alloc: Global, module: &Module) -> Result<Module, AllocError>
    requires { AllGoForward «module».now }
    ensures exact { IfOk result (λ m. m ≡ remove_gotos «module».now) }
    ensures same_failures { IfOk result (λ n. (p : procedure) → Contains «module».now.procs p → KeepsFailures «module».now n p (removed p)) }
{
    Ok(Module::new(parts_without(alloc, module.parts())?))
}
