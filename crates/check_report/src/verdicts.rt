// What the search says of goals.
ghost use Rattle.std.specs.Prelude.{◌≡◌, map, IfOk};
ghost use Rattle.tableau.specs.RunView.{verdict_of};
ghost use Rattle.report_laws.specs.Scratch.{verdict_on, verdicts};

use bpl_model::Mark;
use clause_search::search::Searcher;
use program_opening::goals::SharedGoal;
use std::alloc::{AllocError, Global};
use tableau::ended::Verdict;

// What the search says of a goal.
fn verdict_on(searcher: &Searcher, goal: &SharedGoal, turns: u64) -> Result<Verdict, AllocError>
    ensures { IfOk result (λ v. verdict_of v ≡ verdict_on turns goal.now) }
{
    let found = searcher.answer(&goal.obligation, turns)?;
    Ok(found.verdict)
}

/// What the search says of each goal.
pub fn verdicts(
    searcher: &Searcher,
    goals: &[SharedGoal],
    turns: u64,
) -> Result<Vec<Verdict>, AllocError>
    ensures { IfOk result (λ v. map verdict_of v.items ≡ verdicts turns goals.now) }
{
    let mut found = Vec::new(searcher.alloc());
    for goal in goals {
        found.push(verdict_on(searcher, goal, turns)?)?;
    }
    Ok(found)
}

/// The goals' marks.
pub fn marks(alloc: Global, goals: &[SharedGoal]) -> Result<Vec<Mark>, AllocError>
    ensures { IfOk result (λ v. v.items ≡ map (λ g. g.mark) goals.now) }
{
    let mut found = Vec::new(alloc);
    for goal in goals {
        found.push(goal.mark)?;
    }
    Ok(found)
}
