// The goals of a program, after an edit.
ghost use Rattle.std.specs.Prelude.{◌≡◌, ◌+◌, ◌++◌, [], ◌∷◌, cond, Contains, IfOk, IfErr, IsSome, OnOk, None, map, flat_map, option_map, slice_get};
ghost use Rattle.bpl_model.specs.NoGoto.{BodyHasNoGoto};
ghost use Rattle.bpl_goto.specs.Forward.{AllGoForward};
ghost use Rattle.rebuild_laws.specs.Resolved.{IsResolved};
ghost use Rattle.vc_build.specs.Goals.{goals_by_passes};
ghost use Rattle.vc_build.specs.Large.{large, program_large};
ghost use Rattle.vc_build.specs.Exceeds.{IsFaultBy, IsFaultOf};
ghost use Rattle.vc_build.specs.Rebuild.{with_body, built, rebuilt};
ghost use Rattle.vc_rebuild.specs.Kept.{all_goals, having_body, kept_of, is_new, new_in, program_after};
ghost use Rattle.vc_rebuild.specs.Inside.{AreBuilt, HaveNoGoto, TextsDecide, TextsFix};
ghost use Rattle.vc_rebuild.specs.Looked.{IsBefore};
ghost use Rattle.vc_rebuild.specs.Change.{AreButOne, IsChangedAt, IsOwnAlone, IsPlainAt, IsPlainBody};

use crate::apart::is_alone;
use crate::built::{Built, Rebuilt};
use crate::candidate::{Before, looked_at};
use crate::change::ChangedBody;
use crate::collected::Collected;
use crate::gotos::{plain_of, without_gotos};
use crate::large::{fault_of, fault_with};
use crate::procedure::{MadeProc, made_proc};
use crate::put_body::{one_if, put_body};
use crate::text::procs_of;
use bpl_model::{Links, Module, Proc};
use bv_base::Steps;
use logic_core::Sequence;
use rebuild_laws::dependency_texts::equal_dependency_texts_have_equal_obligations;
use std::alloc::Global;
use std::sync::ledger::Ledger;
use vc_build::BuildFault;
use vc_build::procedure::procedure_at;

// The procedure comes behind, where its goals exceed no limit; how many were built.
fn add_made(
    alloc: Global,
    found: &mut Collected,
    links: &Links<'_>,
    made: MadeProc,
) -> Result<u64, BuildFault>
    requires { HaveNoGoto links.now.procs }
    ensures added { OnOk result (found.new ≡ found.old ++ made.built ∷ []) }
    ensures told { IfOk result (λ n. n ≡ cond made.is_new 1 0) }
    ensures fault { IfErr result (IsFaultOf (flat_map (goals_by_passes links.now) links.now.procs)) }
{
    if found.has_room(&made.built) {
        let count = one_if(made.is_new);
        found.push(made.built)?;
        Ok(count)
    } else {
        drop(made);
        Err(fault_of(alloc, links))
    }
}

// The procedure, which has a body, comes behind with its goals; how many were built.
fn add_with_body<L: Ledger>(
    alloc: Global,
    found: &mut Collected,
    before: &Before<'_>,
    links: &Links<'_>,
    proc: &Proc,
    steps: &mut Steps<L>,
) -> Result<u64, BuildFault>
    requires all { HaveNoGoto links.now.procs }
    requires there { Contains links.now.procs proc.now }
    requires no_goto { BodyHasNoGoto proc.now.body }
    requires body { IsSome proc.now.body }
    requires before { IsBefore before.now }
    requires decided { TextsDecide before.now.built.now.procs links.now }
    ensures added { OnOk result (found.new ≡ found.old ++ kept_of links.now proc.now ∷ []) }
    ensures told { IfOk result (λ n. n ≡ cond (is_new before.now.built.now.procs (kept_of links.now proc.now)) 1 0) }
    ensures steps { OnOk result (steps.new ≡ steps.old + cond (is_new before.now.built.now.procs (kept_of links.now proc.now)) 1 0) }
    ensures fault { IfErr result (IsFaultOf (flat_map (goals_by_passes links.now) links.now.procs)) }
{
    match made_proc(alloc, before, found.len(), links, proc, steps) {
        Ok(made) => add_made(alloc, found, links, made),
        Err(fault) => Err(fault_with(alloc, links, fault)),
    }
}

// The procedure comes behind, if it has a body; how many were built.
#[tactic(auto, using(crate::proofs::Programs::none_having, crate::proofs::Programs::one_having, crate::proofs::Programs::one_counted))]
fn add_procedure<L: Ledger>(
    alloc: Global,
    found: &mut Collected,
    before: &Before<'_>,
    links: &Links<'_>,
    proc: &Proc,
    steps: &mut Steps<L>,
) -> Result<u64, BuildFault>
    requires all { HaveNoGoto links.now.procs }
    requires there { Contains links.now.procs proc.now }
    requires no_goto { BodyHasNoGoto proc.now.body }
    requires before { IsBefore before.now }
    requires decided { TextsDecide before.now.built.now.procs links.now }
    ensures added { OnOk result (found.new ≡ found.old ++ map (kept_of links.now) (having_body (proc.now ∷ []))) }
    ensures told { IfOk result (λ n. n ≡ new_in before.now.built.now.procs links.now (proc.now ∷ [])) }
    ensures steps { OnOk result (steps.new ≡ steps.old + new_in before.now.built.now.procs links.now (proc.now ∷ [])) }
    ensures fault { IfErr result (IsFaultOf (flat_map (goals_by_passes links.now) links.now.procs)) }
{
    match &proc.body {
        None => Ok(0),
        Some(_) => add_with_body(alloc, found, before, links, proc, steps),
    }
}

// The procedures with a body come behind, in order; how many were built.
fn add_procedures<L: Ledger>(
    alloc: Global,
    found: &mut Collected,
    before: &Before<'_>,
    links: &Links<'_>,
    steps: &mut Steps<L>,
) -> Result<u64, BuildFault>
    requires no_goto { HaveNoGoto links.now.procs }
    requires before { IsBefore before.now }
    requires decided { TextsDecide before.now.built.now.procs links.now }
    ensures added { OnOk result (found.new ≡ found.old ++ map (kept_of links.now) (with_body links.now)) }
    ensures told { IfOk result (λ n. n ≡ new_in before.now.built.now.procs links.now links.now.procs) }
    ensures steps { OnOk result (steps.new ≡ steps.old + new_in before.now.built.now.procs links.now links.now.procs) }
    ensures fault { IfErr result (IsFaultOf (flat_map (goals_by_passes links.now) links.now.procs)) }
{
    let procs = &links.parts().procs;
    let mut rebuilt: u64 = 0;
    for i in 0..procs.len() {
        rebuilt += add_procedure(alloc, found, before, links, &procs[i], steps)?;
    }
    Ok(rebuilt)
}

// The goals of a program without gotos. Whichever procedure before has a procedure's dependency text
// has its obligations.
fn rebuild_plain<L: Ledger>(
    alloc: Global,
    old: &Built,
    links: &Links<'_>,
    steps: &mut Steps<L>,
) -> Result<Built, BuildFault>
    requires no_goto { HaveNoGoto links.now.procs }
    requires decided { TextsDecide old.now.procs links.now }
    requires built { AreBuilt (map (kept_of links.now) (with_body links.now)) }
    ensures program { IfOk result (λ b. b ≡ program_after old.now.procs links.now) }
    ensures within { IfOk result (λ b. large (flat_map (goals_by_passes links.now) links.now.procs) ≡ None) }
    ensures fault { IfErr result (IsFaultOf (flat_map (goals_by_passes links.now) links.now.procs)) }
    ensures steps { OnOk result (steps.new ≡ steps.old + new_in old.now.procs links.now links.now.procs) }
{
    let before = looked_at(alloc, old)?;
    let mut found = Collected::new(alloc);
    let rebuilt = add_procedures(alloc, &mut found, &before, links, steps)?;
    let procs = Sequence::of(found.into_procs());
    Ok(old.with_procs(procs, rebuilt))
}

// The same, and no place is known.
fn rebuild_whole<L: Ledger>(
    alloc: Global,
    old: &Built,
    links: &Links<'_>,
    steps: &mut Steps<L>,
) -> Result<Rebuilt, BuildFault>
    requires no_goto { HaveNoGoto links.now.procs }
    requires decided { TextsDecide old.now.procs links.now }
    requires built { AreBuilt (map (kept_of links.now) (with_body links.now)) }
    ensures program { IfOk result (λ r. r.built ≡ program_after old.now.procs links.now) }
    ensures place { IfOk result (λ r. AreButOne r.place old.now.procs r.built.procs) }
    ensures within { IfOk result (λ r. large (flat_map (goals_by_passes links.now) links.now.procs) ≡ None) }
    ensures fault { IfErr result (IsFaultOf (flat_map (goals_by_passes links.now) links.now.procs)) }
    ensures steps { OnOk result (steps.new ≡ steps.old + new_in old.now.procs links.now links.now.procs) }
{
    match rebuild_plain(alloc, old, links, steps) {
        Ok(built) => Ok(Rebuilt { built, place: None }),
        Err(fault) => Err(fault),
    }
}

// The procedure of this number, if there is one.
fn procedure_in<'a>(links: &'a Links<'_>, at: usize) -> Option<&'a Proc>
    ensures { option_map (λ p. p.now) result ≡ slice_get links.now.procs at }
{
    procedure_at(links.parts(), at)
}

// The same, where the declaration of the body is none of the other procedures'.
fn rebuild_one<L: Ledger>(
    alloc: Global,
    old: &Built,
    body: ChangedBody,
    links: &Links<'_>,
    steps: &mut Steps<L>,
) -> Result<Rebuilt, BuildFault>
    requires no_goto { HaveNoGoto links.now.procs }
    requires decided { TextsDecide old.now.procs links.now }
    requires built { AreBuilt (map (kept_of links.now) (with_body links.now)) }
    requires changed { IsPlainBody body old.now.procs links.now }
    requires alone { IsOwnAlone links.now body links.now.procs }
    ensures program { IfOk result (λ r. r.built ≡ program_after old.now.procs links.now) }
    ensures place { IfOk result (λ r. AreButOne r.place old.now.procs r.built.procs) }
    ensures within { IfOk result (λ r. large (flat_map (goals_by_passes links.now) links.now.procs) ≡ None) }
    ensures fault { IfErr result (IsFaultOf (flat_map (goals_by_passes links.now) links.now.procs)) }
    ensures steps { OnOk result (steps.new ≡ steps.old + new_in old.now.procs links.now links.now.procs) }
{
    match procedure_in(links, body.proc_at) {
        Some(proc) => put_body(alloc, old, body, links, proc, steps),
        None => rebuild_whole(alloc, old, links, steps),
    }
}

// The same, where this body alone is another one.
fn rebuild_body<L: Ledger>(
    alloc: Global,
    old: &Built,
    body: ChangedBody,
    links: &Links<'_>,
    steps: &mut Steps<L>,
) -> Result<Rebuilt, BuildFault>
    requires no_goto { HaveNoGoto links.now.procs }
    requires decided { TextsDecide old.now.procs links.now }
    requires built { AreBuilt (map (kept_of links.now) (with_body links.now)) }
    requires changed { IsPlainBody body old.now.procs links.now }
    ensures program { IfOk result (λ r. r.built ≡ program_after old.now.procs links.now) }
    ensures place { IfOk result (λ r. AreButOne r.place old.now.procs r.built.procs) }
    ensures within { IfOk result (λ r. large (flat_map (goals_by_passes links.now) links.now.procs) ≡ None) }
    ensures fault { IfErr result (IsFaultOf (flat_map (goals_by_passes links.now) links.now.procs)) }
    ensures steps { OnOk result (steps.new ≡ steps.old + new_in old.now.procs links.now links.now.procs) }
{
    let is_so = is_alone(alloc, links, body, procs_of(links))?;
    if is_so {
        rebuild_one(alloc, old, body, links, steps)
    } else {
        rebuild_whole(alloc, old, links, steps)
    }
}

// The same, where a body may be told.
fn rebuild_by<L: Ledger>(
    alloc: Global,
    old: &Built,
    but: Option<ChangedBody>,
    links: &Links<'_>,
    steps: &mut Steps<L>,
) -> Result<Rebuilt, BuildFault>
    requires no_goto { HaveNoGoto links.now.procs }
    requires decided { TextsDecide old.now.procs links.now }
    requires built { AreBuilt (map (kept_of links.now) (with_body links.now)) }
    requires changed { IsPlainAt but old.now.procs links.now }
    ensures program { IfOk result (λ r. r.built ≡ program_after old.now.procs links.now) }
    ensures place { IfOk result (λ r. AreButOne r.place old.now.procs r.built.procs) }
    ensures within { IfOk result (λ r. large (flat_map (goals_by_passes links.now) links.now.procs) ≡ None) }
    ensures fault { IfErr result (IsFaultOf (flat_map (goals_by_passes links.now) links.now.procs)) }
    ensures steps { OnOk result (steps.new ≡ steps.old + new_in old.now.procs links.now links.now.procs) }
{
    match but {
        Some(body) => rebuild_body(alloc, old, body, links, steps),
        None => rebuild_whole(alloc, old, links, steps),
    }
}

/// As `rebuild`, where a body may be told: then the program is that before, but for this body. The other
/// procedures are kept as they are, and the place of the one that has the body is told, if it is known.
pub fn rebuild_changed<L: Ledger>(
    alloc: Global,
    old: &Built,
    module: &Module,
    but: Option<ChangedBody>,
    steps: &mut Steps<L>,
) -> Result<Rebuilt, BuildFault>
    requires forward { AllGoForward «module».now }
    requires resolved { IsResolved «module».now }
    requires changed { IsChangedAt but old.now.procs «module».now }
    ensures goals { IfOk result (λ r. r.built.procs ≡ built «module».now) }
    ensures rebuilt { IfOk result (λ r. r.built.rebuilt ≡ rebuilt old.now.procs «module».now) }
    ensures place { IfOk result (λ r. AreButOne r.place old.now.procs r.built.procs) }
    ensures within { IfOk result (λ r. program_large «module».now ≡ None) }
    ensures fault { IfErr result (IsFaultBy (program_large «module».now)) }
    ensures steps { OnOk result (steps.new ≡ steps.old + rebuilt old.now.procs «module».now) }
{
    equal_dependency_texts_have_equal_obligations();
    old.is_built();
    let removed = without_gotos(alloc, module)?;
    let plain = plain_of(&removed, module);
    let links = Links::of(alloc, plain)?;
    rebuild_by(alloc, old, but, &links, steps)
}

/// The goals of the program, of each procedure with a body in order, where it has no fault. A procedure
/// keeps its obligations where its dependency text stands in a procedure before; its marks are those
/// of the present program. Each other one is built, which is one step; `rebuilt` is how many these are.
/// Where the goals of the whole program exceed a limit, the fault says so as `build` does, with the
/// number at the first goal that is too much.
pub fn rebuild<L: Ledger>(
    alloc: Global,
    old: &Built,
    module: &Module,
    steps: &mut Steps<L>,
) -> Result<Built, BuildFault>
    requires forward { AllGoForward «module».now }
    requires resolved { IsResolved «module».now }
    ensures goals { IfOk result (λ b. b.procs ≡ built «module».now) }
    ensures rebuilt { IfOk result (λ b. b.rebuilt ≡ rebuilt old.now.procs «module».now) }
    ensures within { IfOk result (λ b. program_large «module».now ≡ None) }
    ensures fault { IfErr result (IsFaultBy (program_large «module».now)) }
    ensures steps { OnOk result (steps.new ≡ steps.old + rebuilt old.now.procs «module».now) }
{
    match rebuild_changed(alloc, old, module, None, steps) {
        Ok(found) => Ok(found.built),
        Err(fault) => Err(fault),
    }
}

/// What is known of all that was built of two programs: where procedures of them have equal dependency
/// texts, they have equal obligations.
pub fn texts_fix_obligations(old: &Built, new: &Built)
    ensures { TextsFix old.now.procs new.now.procs }
{
    equal_dependency_texts_have_equal_obligations();
    old.is_built();
    new.is_built();
}
