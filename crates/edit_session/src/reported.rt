// The lines of a report.
ghost use Rattle.std.specs.Prelude.{◌≡◌, ◌++◌, map, length, sum, string_bytes, IfOk, OnOk};
ghost use Rattle.std.specs.Arc.{arc_value};
ghost use Rattle.tableau.specs.RunView.{verdict_of};
ghost use Rattle.tableau.specs.Settled.{Settled as settled, settled_by};
ghost use Rattle.report_text.specs.Report.{proc_lines};
ghost use Rattle.report_laws.specs.Scratch.{lines_on};
ghost use Rattle.edit_session.specs.Built.{proc_goals, goal_counts, questions_of, told_lines};

use crate::goals::{count_of, name_of};
use report_text::push_proc;
use std::alloc::{AllocError, Global};
use std::sync::Arc;
use tableau::ended::Verdict;
use tableau::settled::Settled;
use vc_rebuild::BuiltProc;

// The verdicts of the answers take the place of others.
fn put_verdicts(
    verdicts: &mut Vec<Verdict>,
    answers: &[Arc<Settled, Global>],
) -> Result<(), AllocError>
    ensures { OnOk result (map verdict_of verdicts.new.items ≡ map (λ a. (arc_value {X = settled} a).verdict) answers.now) }
{
    verdicts.clear();
    for answer in answers {
        verdicts.push(answer.verdict())?;
    }
    Ok(())
}

// The lines of a procedure come behind, by the answers to its goals.
fn push_answered(
    alloc: Global,
    lines: &mut Vec<String>,
    verdicts: &mut Vec<Verdict>,
    proc: &BuiltProc,
    answers: &[Arc<Settled, Global>],
) -> Result<(), AllocError>
    ensures { OnOk result (map string_bytes lines.new.items ≡ map string_bytes lines.old.items ++ proc_lines proc.now.name (map (λ g. g.mark) proc.now.goals) (map (λ a. (arc_value {X = settled} a).verdict) answers.now)) }
{
    put_verdicts(verdicts, answers)?;
    push_proc(
        alloc,
        lines,
        name_of(proc),
        proc.marks(),
        verdicts.as_slice(),
    )?;
    Ok(())
}

// The lines of procedures come behind, by the answers to their goals.
fn push_all(
    alloc: Global,
    lines: &mut Vec<String>,
    procs: &[BuiltProc],
    answers: &[Arc<Settled, Global>],
) -> Result<(), AllocError>
    requires { sum (goal_counts procs.now) ≡ length answers.now }
    ensures { OnOk result (map string_bytes lines.new.items ≡ map string_bytes lines.old.items ++ told_lines procs.now (map (λ a. (arc_value {X = settled} a).verdict) answers.now)) }
{
    let mut verdicts = Vec::new(alloc);
    let mut left = answers;
    for i in 0..procs.len() {
        let proc = &procs[i];
        let (own, behind) = left.split_at(count_of(proc));
        push_answered(alloc, lines, &mut verdicts, proc, own)?;
        left = behind;
    }
    Ok(())
}

/// The report's lines, by the answer to each goal.
pub fn report_lines(
    alloc: Global,
    procs: &[BuiltProc],
    answers: Vec<Arc<Settled, Global>>,
    turns: u64,
) -> Result<Vec<String>, AllocError>
    requires { map arc_value answers.items ≡ map settled_by (questions_of turns procs.now) }
    ensures { IfOk result (λ v. map string_bytes v.items ≡ lines_on turns (map proc_goals procs.now)) }
{
    let mut lines = Vec::with_capacity(alloc, answers.len().saturating_add(procs.len()))?;
    push_all(alloc, &mut lines, procs, answers.as_slice())?;
    Ok(lines)
}
