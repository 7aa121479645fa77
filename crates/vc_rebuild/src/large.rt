// The fault of a program whose goals exceed a limit.
ghost use Rattle.std.specs.Prelude.{IfErr, flat_map};
ghost use Rattle.vc_build.specs.Goals.{goals_by_passes};
ghost use Rattle.vc_build.specs.Exceeds.{IsFaultOf};
ghost use Rattle.vc_rebuild.specs.Inside.{HaveNoGoto};

use bpl_model::Links;
use std::alloc::Global;
use vc_build::BuildFault;
use vc_build::procedure::add_goals;
use vc_build::tally::Tally;

// The goals of all procedures, one after another, within the limits.
fn tally_all(alloc: Global, links: &Links<'_>) -> Result<(), BuildFault>
    requires { HaveNoGoto links.now.procs }
    ensures fault { IfErr result (IsFaultOf (flat_map (goals_by_passes links.now) links.now.procs)) }
{
    let procs = &links.parts().procs;
    let mut tally = Tally::new(alloc);
    for i in 0..procs.len() {
        add_goals(alloc, &mut tally, links, &procs[i])?;
    }
    Ok(())
}

/// The fault of a program whose goals exceed a limit, found by building all.
pub fn fault_of(alloc: Global, links: &Links<'_>) -> BuildFault
    requires { HaveNoGoto links.now.procs }
    ensures { IsFaultOf (flat_map (goals_by_passes links.now) links.now.procs) result }
{
    match tally_all(alloc, links) {
        Err(fault) => fault,
        Ok(()) => BuildFault::Memory,
    }
}

/// The fault of a program of which one procedure has this fault.
pub fn fault_with(alloc: Global, links: &Links<'_>, fault: BuildFault) -> BuildFault
    requires { HaveNoGoto links.now.procs }
    ensures { IsFaultOf (flat_map (goals_by_passes links.now) links.now.procs) result }
{
    match fault {
        BuildFault::Memory => BuildFault::Memory,
        BuildFault::Large { .. } => fault_of(alloc, links),
    }
}
