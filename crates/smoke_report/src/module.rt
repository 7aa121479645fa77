// Modules with a point.
ghost use Rattle.std.specs.Prelude.{◌≡◌, Some, IfOk, set, slice_get};
ghost use Rattle.bpl_model.specs.Module.{Proc as procedure};
ghost use Rattle.smoke_report.specs.Put.{proc_with_point, procs_with, with_point};

use crate::point_laws::with_point_stays_typed;
use crate::put::proc_with_point;
use bpl_model::copy_module::{copy_consts, copy_functions, copy_globals, copy_procs, copy_texts};
use bpl_model::{Module, Parts, Proc};
use logic_core::copy::copy_terms;
use std::alloc::{AllocError, Global};

// The procedures, of which this one has its point of this number.
#[tactic(auto, using(crate::proofs::Found::put_past, crate::proofs::Found::put_there))]
fn procs_with_point(
    alloc: Global,
    procs: &[Proc],
    p: usize,
    n: u64,
) -> Result<Vec<Proc>, AllocError>
    ensures { IfOk result (λ v. v.items ≡ procs_with procs.now p n (slice_get procs.now p)) }
{
    if p >= procs.len() {
        return copy_procs(alloc, procs);
    }
    let changed = proc_with_point(alloc, &procs[p], n)?;
    let mut copies = copy_procs(alloc, procs)?;
    copies[p] = changed;
    Ok(copies)
}

fn parts_with_point(alloc: Global, parts: &Parts, p: usize, n: u64) -> Result<Parts, AllocError>
    ensures { IfOk result (λ m. m ≡ with_point parts.now p n) }
{
    Ok(Parts {
        consts: copy_consts(alloc, &parts.consts)?,
        axioms: copy_terms(alloc, &parts.axioms)?,
        functions: copy_functions(alloc, &parts.functions)?,
        globals: copy_globals(alloc, &parts.globals)?,
        procs: procs_with_point(alloc, &parts.procs, p, n)?,
        texts: copy_texts(alloc, &parts.texts)?,
    })
}

/// The module in which the procedure of the number `p` has its point of the number `n`: at the end of
/// that list what is false is asserted, with the point's mark. All else stays as it is, and everything
/// where there is no such procedure or point. The time is linear in the module's size.
pub fn with_point(alloc: Global, module: &Module, p: usize, n: u64) -> Result<Module, AllocError>
    ensures { IfOk result (λ m. m ≡ with_point «module».now p n) }
{
    with_point_stays_typed();
    Ok(Module::new(parts_with_point(alloc, module.parts(), p, n)?))
}
