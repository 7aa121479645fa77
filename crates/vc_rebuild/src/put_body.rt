// What is built where one procedure alone has another body.
ghost use Rattle.std.specs.Prelude.{◌≡◌, ◌+◌, ◌<◌, ◌≤◌, ◌++◌, [], ◌∷◌, None, Some, cond, map, flat_map, length, take, drop, is_some, slice_get, slice_set, option_map, Contains, IfOk, IfErr, IsSome, OnOk};
ghost use Rattle.bpl_model.specs.NoGoto.{BodyHasNoGoto};
ghost use Rattle.vc_build.specs.Goals.{goals_by_passes};
ghost use Rattle.vc_build.specs.Large.{large};
ghost use Rattle.vc_build.specs.Exceeds.{IsFaultOf};
ghost use Rattle.vc_build.specs.Rebuild.{with_body};
ghost use Rattle.vc_rebuild.specs.Kept.{all_goals, having_body, kept_of, is_new, new_in, program_after};
ghost use Rattle.vc_rebuild.specs.Inside.{AreBuilt, HaveNoGoto, TextsDecide};
ghost use Rattle.vc_rebuild.specs.Change.{AreButOne, IsOwnAlone, IsPlainBody};

use crate::built::{Built, Rebuilt};
use crate::candidate::Before;
use crate::change::{ChangedBody, has_body};
use crate::collected::Collected;
use crate::kept::BuiltProc;
use crate::large::{fault_of, fault_with};
use crate::procedure::{MadeProc, made_proc};
use crate::text::procs_of;
use bpl_model::{Links, Proc};
use bv_base::Steps;
use logic_core::Sequence;
use std::alloc::Global;
use std::sync::ledger::Ledger;
use vc_build::BuildFault;
use vc_build::mark_laws::goals_have_their_marks;

// One, if it has a body.
fn counted(proc: &Proc) -> usize
    ensures told { result ≡ cond (is_some proc.now.body) 1 0 }
    ensures most { result ≤ 1 }
{
    if has_body(proc) { 1 } else { 0 }
}

// How many of the procedures have a body.
fn bodies_in(procs: &[Proc]) -> usize
    ensures { result ≡ length (having_body procs.now) }
{
    let mut count = 0;
    for i in 0..procs.len() {
        let proc = &procs[i];
        count += counted(proc);
    }
    count
}

fn first_procs(procs: &[Proc], count: usize) -> &[Proc]
    requires { count ≤ length procs.now }
    ensures { result.now ≡ take count procs.now }
{
    let (first, _behind) = procs.split_at(count);
    first
}

fn first_built(procs: &[BuiltProc], count: usize) -> &[BuiltProc]
    requires { count ≤ length procs.now }
    ensures { result.now ≡ take count procs.now }
{
    let (first, _behind) = procs.split_at(count);
    first
}

fn built_behind(procs: &[BuiltProc], count: usize) -> &[BuiltProc]
    requires { count ≤ length procs.now }
    ensures { result.now ≡ drop count procs.now }
{
    let (_first, behind) = procs.split_at(count);
    behind
}

// The number of procedures with a body before this one.
fn place_of(procs: &[Proc], at: usize) -> usize
    requires { at ≤ length procs.now }
    ensures { result ≡ length (having_body (take at procs.now)) }
{
    bodies_in(first_procs(procs, at))
}

// The procedure comes behind, where its goals exceed no limit.
fn add_built(
    alloc: Global,
    found: &mut Collected,
    links: &Links<'_>,
    built: BuiltProc,
) -> Result<(), BuildFault>
    requires { HaveNoGoto links.now.procs }
    ensures added { OnOk result (found.new ≡ found.old ++ built ∷ []) }
    ensures fault { IfErr result (IsFaultOf (flat_map (goals_by_passes links.now) links.now.procs)) }
{
    if found.has_room(&built) {
        found.push(built)?;
        Ok(())
    } else {
        drop(built);
        Err(fault_of(alloc, links))
    }
}

// The same procedures as before come behind, where their goals exceed no limit.
fn add_shared(
    alloc: Global,
    found: &mut Collected,
    links: &Links<'_>,
    procs: &[BuiltProc],
) -> Result<(), BuildFault>
    requires { HaveNoGoto links.now.procs }
    ensures added { OnOk result (found.new ≡ found.old ++ procs.now) }
    ensures fault { IfErr result (IsFaultOf (flat_map (goals_by_passes links.now) links.now.procs)) }
{
    for proc in procs {
        let shared = proc.share()?;
        add_built(alloc, found, links, shared)?;
    }
    Ok(())
}

// The procedures with this one in the place of one, where their goals exceed no limit.
fn put_made(
    alloc: Global,
    links: &Links<'_>,
    old: &[BuiltProc],
    place: usize,
    made: BuiltProc,
) -> Result<Sequence<BuiltProc>, BuildFault>
    requires plain { HaveNoGoto links.now.procs }
    requires there { place < length old.now }
    ensures put { IfOk result (λ s. s ≡ slice_set old.now place made) }
    ensures within { IfOk result (λ s. large (all_goals s) ≡ None) }
    ensures fault { IfErr result (IsFaultOf (flat_map (goals_by_passes links.now) links.now.procs)) }
{
    let _count = old.len();
    let mut found = Collected::new(alloc);
    add_shared(alloc, &mut found, links, first_built(old, place))?;
    add_built(alloc, &mut found, links, made)?;
    add_shared(alloc, &mut found, links, built_behind(old, place + 1))?;
    Ok(Sequence::of(found.into_procs()))
}

// The procedure with its goals, of which there may be too many.
fn made_at<L: Ledger>(
    alloc: Global,
    old: &Built,
    place: usize,
    links: &Links<'_>,
    proc: &Proc,
    steps: &mut Steps<L>,
) -> Result<MadeProc, BuildFault>
    requires all { HaveNoGoto links.now.procs }
    requires there { Contains links.now.procs proc.now }
    requires no_goto { BodyHasNoGoto proc.now.body }
    requires body { IsSome proc.now.body }
    requires decided { TextsDecide old.now.procs links.now }
    ensures built { IfOk result (λ r. r.built ≡ kept_of links.now proc.now) }
    ensures told { IfOk result (λ r. r.is_new ≡ is_new old.now.procs (kept_of links.now proc.now)) }
    ensures steps { OnOk result (steps.new ≡ steps.old + cond (is_new old.now.procs (kept_of links.now proc.now)) 1 0) }
    ensures fault { IfErr result (IsFaultOf (flat_map (goals_by_passes links.now) links.now.procs)) }
{
    let before = Before {
        built: old,
        digests: None,
    };
    match made_proc(alloc, &before, place, links, proc, steps) {
        Ok(made) => Ok(made),
        Err(fault) => Err(fault_with(alloc, links, fault)),
    }
}

/// One, if so.
pub fn one_if(is_so: bool) -> u64
    ensures { result ≡ cond is_so 1 0 }
{
    if is_so { 1 } else { 0 }
}

/// What is built where this procedure has another body, and the declaration of the body is none of the
/// others': these are kept as they are, and not looked at.
pub fn put_body<L: Ledger>(
    alloc: Global,
    old: &Built,
    body: ChangedBody,
    links: &Links<'_>,
    proc: &Proc,
    steps: &mut Steps<L>,
) -> Result<Rebuilt, BuildFault>
    requires no_goto { HaveNoGoto links.now.procs }
    requires decided { TextsDecide old.now.procs links.now }
    requires built { AreBuilt (map (kept_of links.now) (with_body links.now)) }
    requires changed { IsPlainBody body old.now.procs links.now }
    requires alone { IsOwnAlone links.now body links.now.procs }
    requires there { Some proc.now ≡ slice_get links.now.procs body.proc_at }
    ensures program { IfOk result (λ r. r.built ≡ program_after old.now.procs links.now) }
    ensures place { IfOk result (λ r. AreButOne r.place old.now.procs r.built.procs) }
    ensures within { IfOk result (λ r. large (flat_map (goals_by_passes links.now) links.now.procs) ≡ None) }
    ensures fault { IfErr result (IsFaultOf (flat_map (goals_by_passes links.now) links.now.procs)) }
    ensures steps { OnOk result (steps.new ≡ steps.old + new_in old.now.procs links.now links.now.procs) }
{
    goals_have_their_marks();
    let place = place_of(procs_of(links), body.proc_at);
    let made = made_at(alloc, old, place, links, proc, steps)?;
    let rebuilt = one_if(made.is_new);
    let procs = put_made(alloc, links, old.procs(), place, made.built)?;
    Ok(Rebuilt {
        built: old.with_procs(procs, rebuilt),
        place: Some(place),
    })
}
