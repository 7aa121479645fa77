// What the search says of a point.
ghost use Rattle.std.specs.Prelude.{◌≡◌, None, Some, IfErr, IfOk, slice_get};
ghost use Rattle.std.specs.List.{list_all};
ghost use Rattle.bpl_goto.specs.Forward.{AllGoForward};
ghost use Rattle.vc_build.specs.Large.{large};
ghost use Rattle.vc_build.specs.Exceeds.{IsFaultOf};
ghost use Rattle.smoke_report.specs.Pointed.{AreOf, with_points};
ghost use Rattle.smoke_report.specs.Smoke.{is_point, is_mark_of, is_shown, is_shown_or_another, point_goals, is_unreachable};

use crate::program_point::ProgramPoint;
use bpl_model::number::sum;
use bpl_model::{GoalKind, Links, Mark, Module};
use clause_search::search::Searcher;
use logic_core::Sequence;
use report_text::is_proof;
use std::alloc::{AllocError, Global};
use vc_build::procedure::goals_at;
use vc_build::{BuildFault, Goal};

// Whether it is the kind of the point of this number.
fn is_point(number: u64, kind: GoalKind) -> bool
    ensures { result ≡ is_point number kind }
{
    match kind {
        GoalKind::Point(other) => other == number,
        _ => false,
    }
}

// Whether it is the point's mark.
fn is_mark_of(point: &ProgramPoint, mark: Mark) -> bool
    ensures { result ≡ is_mark_of point.now mark }
{
    is_point(point.number, mark.kind) && mark.place == point.point.mark.place
}

// Whether the search finds a proof of the goal.
fn is_shown(searcher: &Searcher, goal: &Goal, turns: u64) -> Result<bool, AllocError>
    ensures { IfOk result (λ h. h ≡ is_shown turns goal.now) }
{
    let found = searcher.answer(&goal.obligation, turns)?;
    Ok(is_proof(found.verdict))
}

// Whether the goal has another mark, or the search finds a proof of it.
fn is_shown_or_another(
    searcher: &Searcher,
    point: &ProgramPoint,
    goal: &Goal,
    turns: u64,
) -> Result<bool, AllocError>
    ensures { IfOk result (λ h. h ≡ is_shown_or_another turns point.now goal.now) }
{
    if is_mark_of(point, goal.mark) {
        is_shown(searcher, goal, turns)
    } else {
        Ok(true)
    }
}

// Whether the search finds a proof of each goal with the point's mark.
fn are_shown(
    searcher: &Searcher,
    point: &ProgramPoint,
    goals: &[Goal],
    turns: u64,
) -> Result<bool, AllocError>
    ensures { IfOk result (λ h. h ≡ list_all (is_shown_or_another turns point.now) goals.now) }
{
    for goal in goals {
        if !is_shown_or_another(searcher, point, goal, turns)? {
            return Ok(false);
        }
    }
    Ok(true)
}

// The goals of a point's procedure with the point put in: the procedure stands behind those of the
// module, at the point's place among these points.
fn point_goals(
    alloc: Global,
    module: &Module,
    points: &[ProgramPoint],
    links: &Links<'_>,
    at: usize,
    point: &ProgramPoint,
) -> Result<Sequence<Goal>, BuildFault>
    requires forward { AllGoForward «module».now }
    requires of { AreOf «module».now.procs points.now }
    requires links { links.now ≡ with_points «module».now points.now }
    requires there { slice_get points.now at ≡ Some point.now }
    ensures goals { IfOk result (λ gs. gs ≡ point_goals «module».now point.now) }
    ensures within { IfOk result (λ gs. large gs ≡ None) }
    ensures fault { IfErr result (IsFaultOf (point_goals «module».now point.now)) }
{
    let own = module.parts().procs.len();
    let p = sum(own as u64, at as u64)?;
    goals_at(alloc, links, p as usize)
}

/// Whether the search shows, in so many turns, that no execution reaches the point: it finds a proof of
/// the goal with the point's mark, where the point is put into its procedure. Where that procedure then
/// has too many goals, or too long ones, the fault says so. The point stands at this place among points
/// whose procedures stand behind those of the module.
pub fn is_unreachable(
    searcher: &Searcher,
    module: &Module,
    points: &[ProgramPoint],
    links: &Links<'_>,
    at: usize,
    point: &ProgramPoint,
    turns: u64,
) -> Result<bool, BuildFault>
    requires forward { AllGoForward «module».now }
    requires of { AreOf «module».now.procs points.now }
    requires links { links.now ≡ with_points «module».now points.now }
    requires there { slice_get points.now at ≡ Some point.now }
    ensures shown { IfOk result (λ u. u ≡ is_unreachable turns «module».now point.now) }
    ensures within { IfOk result (λ u. large (point_goals «module».now point.now) ≡ None) }
    ensures fault { IfErr result (IsFaultOf (point_goals «module».now point.now)) }
{
    let goals = point_goals(searcher.alloc(), module, points, links, at, point)?;
    Ok(are_shown(searcher, point, goals.as_slice(), turns)?)
}
