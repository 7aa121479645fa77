// The answer on a program's points.
ghost use Rattle.std.specs.Prelude.{◌≡◌, ◌<◌, ◌++◌, ◌∷◌, [], None, Some, filter, length, map, slice_get, IfErr, IfOk, OnOk};
ghost use Rattle.bpl_goto.specs.Forward.{AllGoForward};
ghost use Rattle.vc_build.specs.Large.{large};
ghost use Rattle.vc_build.specs.Exceeds.{IsFaultBy, IsFaultOf};
ghost use Rattle.bv_base.specs.Text.{text_of};
ghost use Rattle.smoke_report.specs.Unreached.{point_line};
ghost use Rattle.smoke_report.specs.Pointed.{AreOf, with_points};
ghost use Rattle.smoke_report.specs.Smoke.{point_goals, is_unreachable, large_among, smoke_lines, none_unreachable, points_large};

use crate::lines::{point_line, summary};
use crate::pointed::{at_once, with_points};
use crate::program_point::{ProgramPoint, program_points};
use crate::search::is_unreachable;
use bpl_model::{Links, Module};
use clause_search::search::Searcher;
use report_text::text;
use std::alloc::Global;
use vc_build::BuildFault;

/// The bytes, each line ended by a line feed, and whether no point is named.
#[derive(Drop)]
pub struct Smoked {
    pub text: Vec<u8>,
    pub none_unreachable: bool,
}

// The point's line comes behind, where the search shows that the point is unreachable. It stands at this
// place among points whose procedures stand behind those of the module.
fn add_line(
    searcher: &Searcher,
    module: &Module,
    points: &[ProgramPoint],
    links: &Links<'_>,
    at: usize,
    point: &ProgramPoint,
    turns: u64,
    lines: &mut Vec<Vec<u8>>,
) -> Result<(), BuildFault>
    requires forward { AllGoForward «module».now }
    requires of { AreOf «module».now.procs points.now }
    requires links { links.now ≡ with_points «module».now points.now }
    requires there { slice_get points.now at ≡ Some point.now }
    ensures added { OnOk result (map (λ l. l.items) lines.new.items ≡ map (λ l. l.items) lines.old.items ++ map point_line (filter (is_unreachable turns «module».now) (point.now ∷ []))) }
    ensures within { OnOk result (large (point_goals «module».now point.now) ≡ None) }
    ensures fault { IfErr result (IsFaultOf (point_goals «module».now point.now)) }
{
    if is_unreachable(searcher, module, points, links, at, point, turns)? {
        lines.push(point_line(searcher.alloc(), point)?)?;
    }
    Ok(())
}

// The lines of those of the points that the search shows to be unreachable come behind. The points'
// procedures stand behind those of the module.
fn add_lines_over(
    alloc: Global,
    module: &Module,
    points: &[ProgramPoint],
    links: &Links<'_>,
    turns: u64,
    lines: &mut Vec<Vec<u8>>,
) -> Result<(), BuildFault>
    requires forward { AllGoForward «module».now }
    requires of { AreOf «module».now.procs points.now }
    requires links { links.now ≡ with_points «module».now points.now }
    ensures added { OnOk result (map (λ l. l.items) lines.new.items ≡ map (λ l. l.items) lines.old.items ++ map point_line (filter (is_unreachable turns «module».now) points.now)) }
    ensures within { OnOk result (large_among «module».now points.now ≡ None) }
    ensures fault { IfErr result (IsFaultBy (large_among «module».now points.now)) }
{
    let searcher = Searcher::new(alloc);
    for at in 0..points.len() {
        add_line(
            &searcher,
            module,
            points,
            links,
            at,
            &points[at],
            turns,
            lines,
        )?;
    }
    Ok(())
}

// The lines of those of the points that the search shows to be unreachable come behind: all of them are
// put in at once.
fn add_lines(
    alloc: Global,
    module: &Module,
    points: &[ProgramPoint],
    turns: u64,
    lines: &mut Vec<Vec<u8>>,
) -> Result<(), BuildFault>
    requires forward { AllGoForward «module».now }
    requires of { AreOf «module».now.procs points.now }
    ensures added { OnOk result (map (λ l. l.items) lines.new.items ≡ map (λ l. l.items) lines.old.items ++ map point_line (filter (is_unreachable turns «module».now) points.now)) }
    ensures within { OnOk result (large_among «module».now points.now ≡ None) }
    ensures fault { IfErr result (IsFaultBy (large_among «module».now points.now)) }
{
    let changed = with_points(alloc, module, points)?;
    let links = Links::of(alloc, &changed)?;
    add_lines_over(alloc, module, points, &links, turns, lines)
}

// The same for as many of the points as are put in at once; the points that are left.
#[tactic(auto, using(crate::proofs::Batches::first_are_of, crate::proofs::Batches::later_are_of, crate::proofs::Batches::lines_next, crate::proofs::Batches::large_next, crate::proofs::Batches::fault_next, crate::proofs::Batches::fewer_next))]
fn add_next<'a>(
    alloc: Global,
    module: &Module,
    points: &'a [ProgramPoint],
    room: usize,
    turns: u64,
    lines: &mut Vec<Vec<u8>>,
) -> Result<&'a [ProgramPoint], BuildFault>
    requires forward { AllGoForward «module».now }
    requires of { AreOf «module».now.procs points.now }
    requires some { 0 < length points.now }
    ensures added { IfOk result (λ later. map (λ l. l.items) lines.new.items ++ map point_line (filter (is_unreachable turns «module».now) later.now) ≡ map (λ l. l.items) lines.old.items ++ map point_line (filter (is_unreachable turns «module».now) points.now)) }
    ensures large { IfOk result (λ later. large_among «module».now later.now ≡ large_among «module».now points.now) }
    ensures of { IfOk result (λ later. AreOf «module».now.procs later.now) }
    ensures fewer { IfOk result (λ later. length later.now < length points.now) }
    ensures fault { IfErr result (IsFaultBy (large_among «module».now points.now)) }
{
    let count = at_once(alloc, &module.parts().procs, points, room)?;
    let (first, later) = points.split_at(count);
    add_lines(alloc, module, first, turns, lines)?;
    Ok(later)
}

// The lines of those of the points that the search shows to be unreachable.
fn point_lines(
    alloc: Global,
    module: &Module,
    points: &[ProgramPoint],
    turns: u64,
) -> Result<Vec<Vec<u8>>, BuildFault>
    requires forward { AllGoForward «module».now }
    requires of { AreOf «module».now.procs points.now }
    ensures lines { IfOk result (λ v. map (λ l. l.items) v.items ≡ map point_line (filter (is_unreachable turns «module».now) points.now)) }
    ensures within { IfOk result (λ v. large_among «module».now points.now ≡ None) }
    ensures fault { IfErr result (IsFaultBy (large_among «module».now points.now)) }
{
    let mut lines = Vec::new(alloc);
    let mut left = points;
    while left.len() > 0 {
        left = add_next(alloc, module, left, points.len(), turns, &mut lines)?;
    }
    Ok(lines)
}

/// The answer on the module's points: a line for each point that the search shows, in so many turns, to
/// be unreachable, in order, and then how many points there are and how many of them are unreachable.
/// Where some procedure with a point put in has too many goals, or too long ones, the fault is that of
/// the first such point.
#[tactic(auto, using(crate::proofs::Named::as_many, crate::proofs::Batches::points_are_of))]
pub fn smoke(alloc: Global, module: &Module, turns: u64) -> Result<Smoked, BuildFault>
    requires { AllGoForward «module».now }
    ensures text { IfOk result (λ s. s.text.items ≡ text_of (smoke_lines turns «module».now)) }
    ensures none { IfOk result (λ s. s.none_unreachable ≡ none_unreachable turns «module».now) }
    ensures within { IfOk result (λ s. points_large «module».now ≡ None) }
    ensures fault { IfErr result (IsFaultBy (points_large «module».now)) }
{
    let points = program_points(alloc, module)?;
    let mut lines = point_lines(alloc, module, &points, turns)?;
    let unreachable = lines.len();
    lines.push(summary(alloc, points.len(), unreachable)?)?;
    Ok(Smoked {
        text: text(alloc, &lines)?,
        none_unreachable: unreachable == 0,
    })
}
