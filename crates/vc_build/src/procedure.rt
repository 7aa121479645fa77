// The goals of a procedure.
ghost use Rattle.std.specs.Prelude.{◌≡◌, ℕ, ◌++◌, Contains, IfOk, IfErr, None, OnOk, Some, option_map, slice_get};
ghost use Rattle.bpl_model.specs.Module.{Proc as procedure};
ghost use Rattle.bpl_model.specs.NoGoto.{BodyHasNoGoto};
ghost use Rattle.bpl_model.specs.Numbering.{defs_of};
ghost use Rattle.vc_build.specs.Depends.{reached_axioms};
ghost use Rattle.vc_build.specs.Goals.{goals_of_graph, passive_graph, goals_by_passes, goals_at};
ghost use Rattle.vc_build.specs.Large.{large};
ghost use Rattle.vc_build.specs.Exceeds.{IsFaultOf};
ghost use Rattle.vc_build.specs.Sound.{HaveFailures};

use crate::axioms::reached_axioms;
use crate::fault::BuildFault;
use crate::goal::Goal;
use crate::graph::add_graph;
use crate::laws::{failures_have_goals_by_passes, sequents_are_sorted};
use crate::tally::Tally;
use bpl_blocks::procedure_graph;
use bpl_model::{Links, Module, Parts, Proc, Variables};
use call_cut::cut_calls;
use logic_core::Sequence;
use loop_cut::cut;
use passive_form::{Passive, passify};
use std::alloc::{AllocError, Global};

/// The passive graph of the procedure: its calls replaced by their contracts, its loops cut.
pub fn passive_graph(alloc: Global, links: &Links<'_>, proc: &Proc) -> Result<Passive, AllocError>
    requires there { Contains links.now.procs proc.now }
    requires no_goto { BodyHasNoGoto proc.now.body }
    ensures { IfOk result (λ g. g ≡ passive_graph links.now proc.now) }
{
    let proc = cut_calls(alloc, links.module(), proc)?;
    let graph = cut(alloc, &procedure_graph(alloc, links, &proc)?)?;
    let variables = Variables::of(alloc, links.parts(), &proc)?;
    passify(alloc, &graph, variables.sorts.as_slice())
}

// The goals of the procedure, which has a body, come behind.
fn add_body(
    alloc: Global,
    tally: &mut Tally,
    links: &Links<'_>,
    proc: &Proc,
) -> Result<(), BuildFault>
    requires there { Contains links.now.procs proc.now }
    requires no_goto { BodyHasNoGoto proc.now.body }
    ensures added { OnOk result (tally.new ≡ tally.old ++ goals_of_graph (passive_graph links.now proc.now) (defs_of links.now) (reached_axioms links.now proc.now)) }
    ensures fault { IfErr result (IsFaultOf (tally.old ++ goals_of_graph (passive_graph links.now proc.now) (defs_of links.now) (reached_axioms links.now proc.now))) }
{
    sequents_are_sorted();
    let passive = passive_graph(alloc, links, proc)?;
    let defs = links.parts().defs(alloc)?;
    let axioms = reached_axioms(alloc, links, proc)?;
    add_graph(alloc, tally, &passive, &defs, &axioms)
}

/// The goals of the procedure come behind.
pub fn add_goals(
    alloc: Global,
    tally: &mut Tally,
    links: &Links<'_>,
    proc: &Proc,
) -> Result<(), BuildFault>
    requires there { Contains links.now.procs proc.now }
    requires no_goto { BodyHasNoGoto proc.now.body }
    ensures added { OnOk result (tally.new ≡ tally.old ++ goals_by_passes links.now proc.now) }
    ensures fault { IfErr result (IsFaultOf (tally.old ++ goals_by_passes links.now proc.now)) }
{
    match &proc.body {
        None => Ok(()),
        Some(_) => add_body(alloc, tally, links, proc),
    }
}

// The goals of the procedure, within the limits.
fn goals_over(alloc: Global, links: &Links<'_>, proc: &Proc) -> Result<Sequence<Goal>, BuildFault>
    requires there { Contains links.now.procs proc.now }
    requires no_goto { BodyHasNoGoto proc.now.body }
    ensures goals { IfOk result (λ gs. gs ≡ goals_by_passes links.now proc.now) }
    ensures within { IfOk result (λ gs. large gs ≡ None) }
    ensures fault { IfErr result (IsFaultOf (goals_by_passes links.now proc.now)) }
{
    let mut tally = Tally::new(alloc);
    add_goals(alloc, &mut tally, links, proc)?;
    Ok(tally.into_goals())
}

/// The procedure of this number, if there is one.
pub fn procedure_at(parts: &Parts, p: usize) -> Option<&Proc>
    ensures { option_map (λ q. q.now) result ≡ slice_get parts.now.procs p }
{
    parts.procs.get(p)
}

/// The goals of the procedure of this number, in which no `goto` stands, as `build` gives them, over
/// what is kept of the module's declarations: so many procedures of a module need one walk over them.
pub fn goals_at(alloc: Global, links: &Links<'_>, p: usize) -> Result<Sequence<Goal>, BuildFault>
    requires { (q : procedure) → slice_get links.now.procs p ≡ Some q → BodyHasNoGoto q.body }
    ensures goals { IfOk result (λ gs. gs ≡ goals_at links.now p) }
    ensures failures { IfOk result (λ gs. HaveFailures links.now p gs) }
    ensures within { IfOk result (λ gs. large gs ≡ None) }
    ensures fault { IfErr result (IsFaultOf (goals_at links.now p)) }
{
    failures_have_goals_by_passes();
    match procedure_at(links.parts(), p) {
        Some(proc) => goals_over(alloc, links, proc),
        None => Ok(Sequence::new(alloc)),
    }
}

/// The goals of the procedure of this number, in which no `goto` stands: an obligation for each
/// assertion of its passive graph, by block and then by place. A procedure without a body has no
/// goals. Where there are more than 65,536 goals or 67,108,864 bytes of texts of obligations, the
/// fault says so, with the number at the first goal that is too much; at each goal the number of
/// goals is looked at before the bytes. For each mark with which an execution of the procedure from an
/// entry state fails, some goal with that mark isn't valid.
pub fn build(alloc: Global, module: &Module, p: usize) -> Result<Sequence<Goal>, BuildFault>
    requires { (q : procedure) → slice_get «module».now.procs p ≡ Some q → BodyHasNoGoto q.body }
    ensures goals { IfOk result (λ gs. gs ≡ goals_at «module».now p) }
    ensures failures { IfOk result (λ gs. HaveFailures «module».now p gs) }
    ensures within { IfOk result (λ gs. large gs ≡ None) }
    ensures fault { IfErr result (IsFaultOf (goals_at «module».now p)) }
{
    let links = Links::of(alloc, module)?;
    goals_at(alloc, &links, p)
}
