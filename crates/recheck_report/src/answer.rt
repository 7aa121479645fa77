// The answer on all goals.
ghost use Rattle.std.specs.Prelude.{◌≡◌, ◌^◌, ◌<◌, length, map, IfOk};
ghost use Rattle.recheck_report.specs.Lines.{lines};
ghost use Rattle.recheck_report.specs.Recheck.{head_of, heads_in, heads, Rechecks};
ghost use Rattle.recheck_report.specs.AnswerView.{IsSaid, LeadsOn, AreShort};

use crate::goal::{complaint, judge};
use crate::take_line;
use program_opening::ProcGoals;
use program_opening::goals::SharedGoal;
use report_text::head;
use std::alloc::{AllocError, Global};

/// The answer's line, without a line feed, and whether every goal has an accepted proof.
#[derive(Drop)]
pub struct Rechecked {
    pub line: Vec<u8>,
    pub all_accepted: bool,
}

// What is said of some goals, and the lines behind theirs.
#[derive(Drop)]
struct Said<'a> {
    complaint: Option<Vec<u8>>,
    rest: &'a [u8],
}

// What is said of a goal by its line; nothing where that is an accepted proof.
fn said_of(
    alloc: Global,
    name: &str,
    goal: &SharedGoal,
    line: &[u8],
) -> Result<Option<Vec<u8>>, AllocError>
    requires { length line.now < 2 ^ 32 }
    ensures { IfOk result (IsSaid name.now goal.now line.now) }
{
    let judged = judge(alloc, &goal.obligation, line)?;
    let head = head(alloc, name, &goal.mark)?;
    complaint(alloc, &head, judged)
}

// What is said of the first of the goals of the procedure with this name without an accepted proof, and
// the lines behind those of its goals.
fn said_of_goals<'a>(
    alloc: Global,
    name: &str,
    goals: &[SharedGoal],
    proofs: &'a [u8],
) -> Result<Said<'a>, AllocError>
    requires { AreShort (lines proofs.now) }
    ensures leads { IfOk result (λ s. LeadsOn (map (head_of name.now) goals.now) (lines proofs.entry.now) s.complaint (lines s.rest.now)) }
    ensures short { IfOk result (λ s. AreShort (lines s.rest.now)) }
{
    let mut rest = proofs;
    for goal in goals {
        let (line, behind) = take_line(rest);
        rest = behind;
        let complaint = said_of(alloc, name, goal, line)?;
        if complaint.is_some() {
            return Ok(Said { complaint, rest });
        }
    }
    Ok(Said {
        complaint: None,
        rest,
    })
}

// The same of a procedure.
fn said_of_proc<'a>(
    alloc: Global,
    proc: &ProcGoals,
    proofs: &'a [u8],
) -> Result<Said<'a>, AllocError>
    requires { AreShort (lines proofs.now) }
    ensures leads { IfOk result (λ s. LeadsOn (heads_in proc.now) (lines proofs.entry.now) s.complaint (lines s.rest.now)) }
    ensures short { IfOk result (λ s. AreShort (lines s.rest.now)) }
{
    said_of_goals(alloc, proc.name.text.as_str(), &proc.goals, proofs)
}

/// The answer of `recheck` to the goals of procedures and the lines behind the program: `accepted`
/// where the k-th line is the text of an accepted proof of the k-th goal, for every k, and else what is
/// wrong with the first line that isn't. Lines beyond the goals are passed over.
pub fn recheck(alloc: Global, procs: &[ProcGoals], proofs: &[u8]) -> Result<Rechecked, AllocError>
    requires { length proofs.now < 2 ^ 32 }
    ensures { IfOk result (λ r. Rechecks (heads procs.now) (lines proofs.now) r.line.items r.all_accepted) }
{
    let mut rest = proofs;
    for proc in procs {
        let Said {
            complaint,
            rest: behind,
        } = said_of_proc(alloc, proc, rest)?;
        rest = behind;
        if let Some(line) = complaint {
            return Ok(Rechecked {
                line,
                all_accepted: false,
            });
        }
    }
    Ok(Rechecked {
        line: Vec::from_slice(alloc, b"accepted")?,
        all_accepted: true,
    })
}
