// How many goals have each verdict.
ghost use Rattle.std.specs.Prelude.{◌≡◌, map, true, count_by, IfOk};
ghost use Rattle.tableau.specs.RunView.{verdict_of};
ghost use Rattle.report_laws.specs.Summary.{is_verdict, number_of, verdicts_on};

use crate::verdicts::verdicts;
use clause_search::search::Searcher;
use program_opening::ProcGoals;
use std::alloc::{AllocError, Global};
use tableau::ended::Verdict;

/// What the search says of each goal of each procedure.
pub fn verdicts_on(
    alloc: Global,
    procs: &[ProcGoals],
    turns: u64,
) -> Result<Vec<Verdict>, AllocError>
    ensures { IfOk result (λ v. map verdict_of v.items ≡ verdicts_on turns procs.now) }
{
    let searcher = Searcher::new(alloc);
    let mut found = Vec::new(alloc);
    for proc in procs {
        let own = verdicts(&searcher, &proc.goals, turns)?;
        found.extend_from_slice(&own)?;
    }
    Ok(found)
}

// Whether these are one verdict.
fn is_verdict(kind: Verdict, verdict: Verdict) -> bool
    ensures { result ≡ is_verdict (verdict_of kind) (verdict_of verdict) }
{
    match (kind, verdict) {
        (Verdict::Proved, Verdict::Proved)
        | (Verdict::Open, Verdict::Open)
        | (Verdict::Turns, Verdict::Turns)
        | (Verdict::Wide, Verdict::Wide) => true,
        _ => false,
    }
}

/// How many of the verdicts are this one.
pub fn number_of(kind: Verdict, verdicts: &[Verdict]) -> u64
    ensures { result ≡ number_of (verdict_of kind) (map verdict_of verdicts.now) }
{
    let mut number: u64 = 0;
    for verdict in verdicts {
        if is_verdict(kind, *verdict) {
            number += 1;
        }
    }
    number
}
