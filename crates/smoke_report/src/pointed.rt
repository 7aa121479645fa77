// Procedures in which points are put, behind those of their module.
ghost use Rattle.std.specs.Prelude.{◌≡◌, ◌<◌, ◌≤◌, ◌++◌, IfOk, length, map};
ghost use Rattle.bpl_goto.specs.Forward.{AllGoForward};
ghost use Rattle.smoke_report.specs.Points.{points};
ghost use Rattle.smoke_report.specs.Pointed.{AreOf, proc_at, pointed, with_points};

use crate::proc_points::points;
use crate::program_point::ProgramPoint;
use crate::put::proc_with_point;
use bpl_goto::module::removed;
use bpl_model::copy_module::{copy_consts, copy_functions, copy_globals, copy_procs, copy_texts};
use bpl_model::{Module, Parts, Proc};
use logic_core::copy::copy_terms;
use std::alloc::{AllocError, Global};

// The point's procedure with the point put in, and without gotos.
#[tactic(auto, using(crate::proofs::Batches::the_procedure))]
fn pointed(alloc: Global, procs: &[Proc], point: &ProgramPoint) -> Result<Proc, AllocError>
    requires { point.now.proc < length procs.now }
    ensures { IfOk result (λ p. p ≡ pointed procs.now point.now) }
{
    let changed = proc_with_point(alloc, &procs[point.proc], point.number)?;
    removed(alloc, &changed)
}

// The procedures, and one for each of the points behind.
fn procs_with_points(
    alloc: Global,
    procs: &[Proc],
    points: &[ProgramPoint],
) -> Result<Vec<Proc>, AllocError>
    requires { AreOf procs.now points.now }
    ensures { IfOk result (λ v. v.items ≡ procs.now ++ map (pointed procs.now) points.now) }
{
    let mut all = copy_procs(alloc, procs)?;
    for point in points {
        all.push(pointed(alloc, procs, point)?)?;
    }
    Ok(all)
}

fn parts_with_points(
    alloc: Global,
    parts: &Parts,
    points: &[ProgramPoint],
) -> Result<Parts, AllocError>
    requires { AreOf parts.now.procs points.now }
    ensures { IfOk result (λ m. m ≡ with_points parts.now points.now) }
{
    Ok(Parts {
        consts: copy_consts(alloc, &parts.consts)?,
        axioms: copy_terms(alloc, &parts.axioms)?,
        functions: copy_functions(alloc, &parts.functions)?,
        globals: copy_globals(alloc, &parts.globals)?,
        procs: procs_with_points(alloc, &parts.procs, points)?,
        texts: copy_texts(alloc, &parts.texts)?,
    })
}

/// The module, and behind its procedures one for each of the points: the point's procedure with the
/// point put in, and without gotos.
pub fn with_points(
    alloc: Global,
    module: &Module,
    points: &[ProgramPoint],
) -> Result<Module, AllocError>
    requires forward { AllGoForward «module».now }
    requires of { AreOf «module».now.procs points.now }
    ensures { IfOk result (λ m. m ≡ with_points «module».now points.now) }
{
    let changed = parts_with_points(alloc, module.parts(), points)?;
    Ok(Module::new(changed))
}

// How many points the procedure of this number has.
#[tactic(auto, using(crate::proofs::Batches::counted_there, crate::proofs::Batches::counted_nowhere))]
fn count_points(alloc: Global, procs: &[Proc], p: usize) -> Result<usize, AllocError>
    ensures { IfOk result (λ n. n ≡ length (points (proc_at procs.now p))) }
{
    match procs.get(p) {
        Some(proc) => Ok(points(alloc, proc)?.len()),
        None => Ok(0),
    }
}

/// How many of the points are put in at once: the first one, and those next to it whose procedures have
/// so many points together at most. So a procedure with many points isn't copied for all of them at
/// once.
pub fn at_once(
    alloc: Global,
    procs: &[Proc],
    points: &[ProgramPoint],
    room: usize,
) -> Result<usize, AllocError>
    requires { 0 < length points.now }
    ensures one { IfOk result (λ n. 0 < n) }
    ensures within { IfOk result (λ n. n ≤ length points.now) }
{
    let mut left = room;
    for k in 0..points.len() {
        let own = count_points(alloc, procs, points[k].proc)?;
        if k > 0 && own > left {
            return Ok(k);
        }
        left = left.saturating_sub(own);
    }
    Ok(points.len())
}
