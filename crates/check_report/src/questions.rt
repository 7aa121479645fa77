// The questions of goals, and the verdicts of their answers.
ghost use Rattle.std.specs.Prelude.{◌≡◌, ◌++◌, map, IfOk, OnOk};
ghost use Rattle.std.specs.Arc.{arc_value};
ghost use Rattle.tableau.specs.RunView.{verdict_of};
ghost use Rattle.tableau.specs.Settled.{Settled as settled};
ghost use Rattle.check_report.specs.Questions.{question_on, questions_on};

use obligation_text::Asked;
use program_opening::ProcGoals;
use program_opening::goals::SharedGoal;
use std::alloc::{AllocError, Global};
use std::sync::Arc;
use tableau::ended::Verdict;
use tableau::settled::Settled;

// The question whether the goal is proved in so many turns.
fn question(alloc: Global, goal: &SharedGoal, turns: u64) -> Result<Arc<Asked, Global>, AllocError>
    ensures { IfOk result (λ q. arc_value q ≡ question_on turns goal.now) }
{
    let obligation = Arc::try_clone(&goal.obligation)?;
    let asked = Asked::shared(alloc, obligation, turns)?;
    let shared = Arc::new(alloc, asked)?;
    Ok(shared)
}

// The questions of goals come behind.
fn push_questions(
    alloc: Global,
    found: &mut Vec<Arc<Asked, Global>>,
    goals: &[SharedGoal],
    turns: u64,
) -> Result<(), AllocError>
    ensures { OnOk result (map arc_value found.new.items ≡ map arc_value found.old.items ++ map (question_on turns) goals.now) }
{
    for goal in goals {
        found.push(question(alloc, goal, turns)?)?;
    }
    Ok(())
}

/// The questions of all goals, procedure by procedure.
pub fn questions(
    alloc: Global,
    procs: &[ProcGoals],
    turns: u64,
) -> Result<Vec<Arc<Asked, Global>>, AllocError>
    ensures { IfOk result (λ v. map arc_value v.items ≡ questions_on turns procs.now) }
{
    let mut found = Vec::new(alloc);
    for proc in procs {
        push_questions(alloc, &mut found, &proc.goals, turns)?;
    }
    Ok(found)
}

/// The verdicts of answers.
pub fn verdicts_of(
    alloc: Global,
    answers: &[Arc<Settled, Global>],
) -> Result<Vec<Verdict>, AllocError>
    ensures { IfOk result (λ v. map verdict_of v.items ≡ map (λ a. (arc_value {X = settled} a).verdict) answers.now) }
{
    let mut found = Vec::new(alloc);
    for answer in answers {
        found.push(answer.verdict())?;
    }
    Ok(found)
}
