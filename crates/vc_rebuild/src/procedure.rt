// A procedure whose obligations are kept or built.
ghost use Rattle.std.specs.Prelude.{◌≡◌, ◌+◌, true, cond, map, bytes_eq, Contains, IfOk, IsSome, OnOk};
ghost use Rattle.std.specs.Arc.{arc_value};
ghost use Rattle.bpl_model.specs.NoGoto.{BodyHasNoGoto};
ghost use Rattle.vc_build.specs.Depends.{depends};
ghost use Rattle.vc_build.specs.Goals.{goals_by_passes};
ghost use Rattle.vc_rebuild.specs.Kept.{kept_of, is_new};
ghost use Rattle.vc_rebuild.specs.Inside.{SameObligations, TextsDecide};
ghost use Rattle.vc_rebuild.specs.Looked.{IsBefore};

use crate::candidate::{Before, candidate, there};
use crate::digest::DigestedText;
use crate::kept::BuiltProc;
use crate::shared::{KeptGoal, share_all};
use crate::text::depends;
use bpl_model::{Links, Proc};
use bv_base::Steps;
use flow_core::Mark;
use logic_core::Sequence;
use std::alloc::{AllocError, Global};
use std::sync::Arc;
use std::sync::ledger::Ledger;
use vc_build::procedure::add_goals;
use vc_build::tally::Tally;
use vc_build::{BuildFault, marks_of};

/// A procedure with its goals.
#[derive(Drop)]
pub struct MadeProc {
    /// It.
    pub built: BuiltProc,
    /// Whether its goals were built, not kept.
    pub is_new: bool,
}

// The procedure with these obligations, and the marks that it has in the present program.
#[tactic(auto, using(crate::proofs::MarksInOrder::goals_again, crate::proofs::MarksInOrder::as_many_goals))]
fn with_marks(
    alloc: Global,
    links: &Links<'_>,
    proc: &Proc,
    text: DigestedText,
    shared: Arc<Sequence<KeptGoal>, Global>,
) -> Result<BuiltProc, AllocError>
    requires text { text ≡ depends links.now proc.now }
    requires same { SameObligations (arc_value shared) (goals_by_passes links.now proc.now) }
    ensures { IfOk result (λ b. b ≡ kept_of links.now proc.now) }
{
    let marks = marks_of(alloc, links.parts(), proc)?;
    let name = proc.name.copy(alloc)?;
    let built = BuiltProc::of(alloc, name, text, Sequence::of(marks), shared)?;
    Ok(built)
}

// The goals, built, and asked for in so many turns.
fn built_goals(
    alloc: Global,
    links: &Links<'_>,
    proc: &Proc,
    turns: u64,
) -> Result<Arc<Sequence<KeptGoal>, Global>, BuildFault>
    requires there { Contains links.now.procs proc.now }
    requires no_goto { BodyHasNoGoto proc.now.body }
    ensures { IfOk result (λ gs. arc_value gs ≡ goals_by_passes links.now proc.now) }
{
    let mut tally = Tally::new(alloc);
    add_goals(alloc, &mut tally, links, proc)?;
    let goals = share_all(alloc, tally.into_goals().into_vec(), turns)?;
    let shared = Arc::new(alloc, goals)?;
    Ok(shared)
}

// The procedure with the candidate's obligations.
fn kept_proc(
    alloc: Global,
    links: &Links<'_>,
    proc: &Proc,
    text: DigestedText,
    kept: &BuiltProc,
) -> Result<BuiltProc, BuildFault>
    requires text { text ≡ depends links.now proc.now }
    requires same { SameObligations kept.now.goals (goals_by_passes links.now proc.now) }
    ensures { IfOk result (λ b. b ≡ kept_of links.now proc.now) }
{
    let shared = Arc::try_clone(kept.sharing())?;
    Ok(with_marks(alloc, links, proc, text, shared)?)
}

// Whether it has this one's name.
fn has_name(kept: &BuiltProc, proc: &Proc) -> bool
    ensures { result ≡ bytes_eq kept.now.name proc.now.name }
{
    kept.name().as_bytes() == proc.name.as_bytes()
}

// Whether its goals have these marks.
fn has_marks(kept: &BuiltProc, marks: &[Mark]) -> bool
    ensures { result ≡ true → map (λ g. g.mark) kept.now.goals ≡ marks.now }
{
    kept.marks() == marks
}

// The procedure before, which is this one.
fn kept_whole(links: &Links<'_>, proc: &Proc, kept: &BuiltProc) -> Result<BuiltProc, BuildFault>
    requires { kept.now ≡ kept_of links.now proc.now }
    ensures { IfOk result (λ b. b ≡ kept_of links.now proc.now) }
{
    let _links = links;
    let _proc = proc;
    let built = kept.share()?;
    Ok(built)
}

// The procedure with the obligations of one before that has its dependency text. Where the name and the
// marks are the same too, it is that one.
fn kept_there(
    alloc: Global,
    links: &Links<'_>,
    proc: &Proc,
    kept: &BuiltProc,
) -> Result<BuiltProc, BuildFault>
    requires text { kept.now.depends ≡ depends links.now proc.now }
    requires same { SameObligations kept.now.goals (goals_by_passes links.now proc.now) }
    ensures { IfOk result (λ b. b ≡ kept_of links.now proc.now) }
{
    let marks = marks_of(alloc, links.parts(), proc)?;
    if has_name(kept, proc) {
        if has_marks(kept, marks.as_slice()) {
            return kept_whole(links, proc, kept);
        }
    }
    drop(marks);
    let text = kept.depends().share()?;
    kept_proc(alloc, links, proc, text, kept)
}

// The procedure, built; its goals are asked for in so many turns.
fn new_proc(
    alloc: Global,
    links: &Links<'_>,
    proc: &Proc,
    text: DigestedText,
    turns: u64,
) -> Result<BuiltProc, BuildFault>
    requires there { Contains links.now.procs proc.now }
    requires no_goto { BodyHasNoGoto proc.now.body }
    requires text { text ≡ depends links.now proc.now }
    ensures { IfOk result (λ b. b ≡ kept_of links.now proc.now) }
{
    let shared = built_goals(alloc, links, proc, turns)?;
    Ok(with_marks(alloc, links, proc, text, shared)?)
}

// The procedure with this dependency text: kept, or else built, which is one step.
#[tactic(auto, using(crate::proofs::KeptGoals::same_as_candidate, crate::proofs::Digested::is_kept, crate::proofs::Digested::kept_step, crate::proofs::Digested::is_built, crate::proofs::Digested::built_step))]
fn with_text<L: Ledger>(
    alloc: Global,
    before: &Before<'_>,
    links: &Links<'_>,
    proc: &Proc,
    text: DigestedText,
    steps: &mut Steps<L>,
) -> Result<MadeProc, BuildFault>
    requires there { Contains links.now.procs proc.now }
    requires no_goto { BodyHasNoGoto proc.now.body }
    requires body { IsSome proc.now.body }
    requires text { text ≡ depends links.now proc.now }
    requires before { IsBefore before.now }
    requires decided { TextsDecide before.now.built.now.procs links.now }
    ensures built { IfOk result (λ r. r.built ≡ kept_of links.now proc.now) }
    ensures told { IfOk result (λ r. r.is_new ≡ is_new before.now.built.now.procs (kept_of links.now proc.now)) }
    ensures steps { OnOk result (steps.new ≡ steps.old + cond (is_new before.now.built.now.procs (kept_of links.now proc.now)) 1 0) }
{
    match candidate(before, &text) {
        Some(kept) => {
            let built = kept_proc(alloc, links, proc, text, kept)?;
            Ok(MadeProc {
                built,
                is_new: false,
            })
        }
        None => {
            steps.tick();
            let built = new_proc(alloc, links, proc, text, before.built.turns())?;
            Ok(MadeProc {
                built,
                is_new: true,
            })
        }
    }
}

/// The procedure, which has a body, with its goals. Whichever procedure before has its dependency text has
/// its obligations; as a rule it is the procedure at this place, whose text is looked at first.
#[tactic(auto, using(crate::proofs::KeptGoals::same_as_there, crate::proofs::KeptGoals::text_there))]
pub fn made_proc<L: Ledger>(
    alloc: Global,
    before: &Before<'_>,
    place: usize,
    links: &Links<'_>,
    proc: &Proc,
    steps: &mut Steps<L>,
) -> Result<MadeProc, BuildFault>
    requires there { Contains links.now.procs proc.now }
    requires no_goto { BodyHasNoGoto proc.now.body }
    requires body { IsSome proc.now.body }
    requires before { IsBefore before.now }
    requires decided { TextsDecide before.now.built.now.procs links.now }
    ensures built { IfOk result (λ r. r.built ≡ kept_of links.now proc.now) }
    ensures told { IfOk result (λ r. r.is_new ≡ is_new before.now.built.now.procs (kept_of links.now proc.now)) }
    ensures steps { OnOk result (steps.new ≡ steps.old + cond (is_new before.now.built.now.procs (kept_of links.now proc.now)) 1 0) }
{
    let text = depends(alloc, links, proc)?;
    match there(before, place, text.as_slice()) {
        Some(kept) => {
            let is_new = false;
            let built = kept_there(alloc, links, proc, kept)?;
            Ok(MadeProc { built, is_new })
        }
        None => {
            let text = DigestedText::of(alloc, text)?;
            with_text(alloc, before, links, proc, text, steps)
        }
    }
}
