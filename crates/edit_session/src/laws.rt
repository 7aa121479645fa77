//! What follows for lines from what was done on the board, for a session from its lines, and what a
//! session's reports are worth, over the definitions alone.
ghost use Rattle.edit_session.specs.Laws.{LooksAnswerStatus, GatheredAnswerReports, GatheredAnswerProofs, OpensAnswerChanges, WorkAnswersMemory, SessionsOfAnyWorkers, AnsweredAreSession};
ghost use Rattle.edit_session.specs.Worth.{ReportsAreTrue, SessionsAreWorth};

use program_edits::laws::taken_is_left;
use report_laws::laws::declared_correct_is_safe;

/// In each session, of any lines, any number of workers and whatever was kept or claimed before, each
/// report is the report from scratch of the program that is open, with the same turns; and no execution,
/// from an entry state, of a procedure that it calls correct fails.
pub fn reports_are_true()
    ensures { ReportsAreTrue }
{
    declared_correct_is_safe();
}

/// In each session, by any number of workers: what an accepted open or edit leaves are the declarations
/// that are open then; behind each report they are a program, and a procedure that the report calls
/// correct has no execution from an entry state that fails. This names no search and no board.
pub fn sessions_are_worth()
    ensures { SessionsAreWorth }
{
    reports_are_true();
    taken_is_left();
}

/// A status is the look's.
pub fn looks_answer_status()
    ensures { LooksAnswerStatus }
{}

/// A report that is made of gathered answers is the report from scratch, whatever others did.
pub fn gathered_answer_reports()
    ensures { GatheredAnswerReports }
{}

/// Proofs that are made of gathered answers are the proofs from scratch, whatever others did.
pub fn gathered_answer_proofs()
    ensures { GatheredAnswerProofs }
{}

/// An open answers an accepted change.
pub fn opens_answer_changes()
    ensures { OpensAnswerChanges }
{}

/// Work answers a line for which there was no memory.
pub fn work_answers_memory()
    ensures { WorkAnswersMemory }
{}

/// How many workers there are makes no difference, where there are some.
pub fn sessions_of_any_workers()
    ensures { SessionsOfAnyWorkers }
{}

/// Lines answered one after another are a session, and its calls are the lines' calls.
pub fn answered_are_session()
    ensures { AnsweredAreSession }
{}
