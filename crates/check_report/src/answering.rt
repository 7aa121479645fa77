// The verdicts of goals by a board that is shared with workers.
ghost use Rattle.std.specs.Prelude.{◌≡◌, ◌≢◌, map, IfOk, OnOk, OnErr};
ghost use Rattle.std.specs.Arc.{arc_value};
ghost use Rattle.tableau.specs.RunView.{verdict_of};
ghost use Rattle.tableau.specs.Settled.{settled_by};
ghost use Rattle.obligation_text.specs.Asked.{key_of};
ghost use Rattle.goal_board.specs.Calls.{made};
ghost use Rattle.goal_board.specs.Made.{AreMade};
ghost use Rattle.report_laws.specs.Summary.{verdicts_on};
ghost use Rattle.check_report.specs.Questions.{questions_on, AreAnswered, AreStarved};

use crate::questions::{questions, verdicts_of};
use goal_board::GoalBoard;
use goal_board::laws::others_decide_nothing;
use program_opening::ProcGoals;
use std::alloc::{AllocError, Global};
use std::sync::Arc;
use tableau::ended::Verdict;
use tableau::settled::Settled;

// The answers to the questions of the goals, which are opened on the board, settled and shown.
fn answers_on<B: GoalBoard>(
    alloc: Global,
    board: &mut B,
    procs: &[ProcGoals],
    turns: u64,
) -> Result<Vec<Arc<Settled, Global>>, AllocError>
    requires shared { B.workers ≢ 0 }
    ensures calls { OnOk result (AreAnswered turns procs.now (B.noted board.old) (B.noted board.new)) }
    ensures answers { IfOk result (λ v. map arc_value v.items ≡ map settled_by (questions_on turns procs.now)) }
    ensures memory { OnErr result (AreStarved turns procs.now (B.noted board.old) (B.noted board.new)) }
{
    // A law, on which the clauses rest; it does nothing.
    others_decide_nothing();
    match questions(alloc, procs, turns) {
        Err(error) => Err(error),
        Ok(questions) => match board.open(questions) {
            Err(error) => Err(error),
            Ok(_opened) => match board.settle() {
                Err(error) => Err(error),
                Ok(answers) => Ok(answers),
            },
        },
    }
}

/// What the search says of each goal of each procedure: the goals are opened on the board, and then
/// settled, by others too, till the board shows the answer of each.
pub fn verdicts_by<B: GoalBoard>(
    alloc: Global,
    board: &mut B,
    procs: &[ProcGoals],
    turns: u64,
) -> Result<Vec<Verdict>, AllocError>
    requires shared { B.workers ≢ 0 }
    ensures verdicts { IfOk result (λ v. map verdict_of v.items ≡ verdicts_on turns procs.now) }
    ensures calls { OnOk result (AreAnswered turns procs.now (B.noted board.old) (B.noted board.new)) }
    ensures memory { OnErr result (AreStarved turns procs.now (B.noted board.old) (B.noted board.new)) }
{
    match answers_on(alloc, board, procs, turns) {
        Err(error) => Err(error),
        Ok(answers) => match verdicts_of(alloc, &answers) {
            Err(error) => Err(error),
            Ok(verdicts) => Ok(verdicts),
        },
    }
}
