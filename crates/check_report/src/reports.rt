// The report on a program.
ghost use Rattle.std.specs.Prelude.{◌≡◌, map, IfOk};
ghost use Rattle.std.specs.List.{list_all};
ghost use Rattle.tableau.specs.RunView.{verdict_of};
ghost use Rattle.tableau.specs.Search.{is_proved};
ghost use Rattle.bv_base.specs.Text.{text_of};
ghost use Rattle.report_laws.specs.Scratch.{lines_on, all_proved};

use crate::verdicts::{marks, verdicts};
use clause_search::search::Searcher;
use program_opening::ProcGoals;
use report_text::{all_proved, text};
use std::alloc::{AllocError, Global};
use tableau::ended::Verdict;

/// The report's bytes, each line ended by a line feed, and whether every goal is proved.
#[derive(Drop)]
pub struct Reported {
    pub text: Vec<u8>,
    pub all_proved: bool,
}

/// The report on procedures, by their goals: for each procedure a line for each goal with what the
/// search says of it in so many turns, and then whether all its goals are proved.
pub fn report(alloc: Global, procs: &[ProcGoals], turns: u64) -> Result<Reported, AllocError>
    ensures text { IfOk result (λ r. r.text.items ≡ text_of (lines_on turns procs.now)) }
    ensures all { IfOk result (λ r. r.all_proved ≡ all_proved turns procs.now) }
{
    let searcher = Searcher::new(alloc);
    let mut names = Vec::new(alloc);
    let mut marked = Vec::new(alloc);
    let mut found = Vec::new(alloc);
    for proc in procs {
        names.push(String::from_str(alloc, proc.name.text.as_str())?)?;
        marked.push(marks(alloc, &proc.goals)?)?;
        found.push(verdicts(&searcher, &proc.goals, turns)?)?;
    }
    let lines = report_text::report(alloc, &names, &marked, &found)?;
    Ok(Reported {
        text: text(alloc, &lines)?,
        all_proved: all_are_proofs(&found),
    })
}

// Whether a proof was found for each goal of each procedure.
fn all_are_proofs(found: &[Vec<Verdict>]) -> bool
    ensures { result ≡ list_all (λ vs. list_all is_proved (map verdict_of vs.items)) found.now }
{
    found.iter().all(|verdicts| all_proved(verdicts))
}
