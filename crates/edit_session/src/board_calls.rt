// Calls on the board, and the replies that tell them.
ghost use Rattle.std.specs.Prelude.{◌≡◌, ◌+◌, ◌-◌, ◌^◌, ◌<◌, ◌≤◌, [], ◌∷◌, map, length, sum, IfOk, OnErr, IfSome, IfNone};
ghost use Rattle.bpl_model.specs.Module.{Module as typed_module};
ghost use Rattle.obligation_text.specs.Asked.{key_of};
ghost use Rattle.vc_build.specs.Large.{count_limit};
ghost use Rattle.vc_rebuild.specs.Inside.{TextsFix};
ghost use Rattle.vc_rebuild.specs.Change.{AreButOne};
ghost use Rattle.board_core.specs.Board.{open_keys};
ghost use Rattle.board_core.specs.Difference.{IsDifference};
ghost use Rattle.board_core.specs.Handed.{open_answer};
ghost use Rattle.program_opening.specs.ProcGoals.{goals_by_proc};
ghost use Rattle.goal_board.specs.Calls.{made};
ghost use Rattle.goal_board.specs.Made.{AreMade, AreWork};
ghost use Rattle.request_text.specs.ReplyView.{reply_view};
ghost use Rattle.edit_session.specs.Program.{keys};
ghost use Rattle.edit_session.specs.Built.{proc_goals, goal_counts, questions_of};
ghost use Rattle.edit_session.specs.Told.{IsOpened, IsUndone, IsReported, AreProved};

use crate::changed::changed_from;
use crate::goals;
use crate::lines::proof_lines;
use crate::program::OpenProgram;
use crate::reported::report_lines;
use board_core::{Difference, Opened};
use goal_board::GoalBoard;
use request_text::Reply;
use std::alloc::{AllocError, Global};
use vc_rebuild::{Built, BuiltProc, texts_fix_obligations};

// How many goals the procedures have.
fn count(procs: &[BuiltProc]) -> usize
    requires { sum (goal_counts procs.now) ≤ count_limit }
    ensures { result ≡ sum (goal_counts procs.now) }
{
    let mut count = 0;
    for proc in procs {
        count += goals::count_of(proc);
    }
    count
}

// The goals of the procedures take the place of those before. Without memory nothing is opened.
fn open_all<B: GoalBoard>(
    alloc: Global,
    board: &mut B,
    procs: &[BuiltProc],
    turns: u64,
) -> Result<Opened, AllocError>
    requires { B.workers ≡ 0 → (B.state board.old).version < 2 ^ 64 - 1 }
    ensures opened { IfOk result (λ o. AreMade B.workers (B.state board.old) (B.noted board.old) (B.state board.new) (B.noted board.new) (made (open_keys (map key_of (questions_of turns procs.now))) (open_answer o) ∷ [])) }
    ensures memory { OnErr result (IsUndone B.workers (B.state board.old) (B.noted board.old) (B.state board.new) (B.noted board.new)) }
{
    let questions = goals::questions(alloc, procs, turns)?;
    let opened = board.open(questions)?;
    Ok(opened)
}

// The same, where these of the procedures differ from those whose goals are open, if the board opens goals
// so.
fn open_between<B: GoalBoard>(
    alloc: Global,
    board: &mut B,
    old: &[BuiltProc],
    new: &[BuiltProc],
    at: &Difference,
    turns: u64,
) -> Result<Option<Opened>, AllocError>
    requires goals { (B.state board.old).present ≡ map key_of (questions_of turns old.now) }
    requires few { sum (goal_counts new.now) ≤ count_limit }
    requires fix { TextsFix old.now new.now }
    requires differ { IsDifference (map (λ b. b.depends) old.now) (map (λ b. b.depends) new.now) at.now.start at.now.old_end at.now.new_end }
    requires room { B.workers ≡ 0 → (B.state board.old).version < 2 ^ 64 - 1 }
    ensures opened { IfOk result (λ x. IfSome x (λ o. AreMade B.workers (B.state board.old) (B.noted board.old) (B.state board.new) (B.noted board.new) (made (open_keys (map key_of (questions_of turns new.now))) (open_answer o) ∷ []))) }
    ensures same { IfOk result (λ x. IfNone x ((B.state board.new ≡ B.state board.old) × (B.noted board.new ≡ B.noted board.old))) }
    ensures memory { OnErr result (IsUndone B.workers (B.state board.old) (B.noted board.old) (B.state board.new) (B.noted board.new)) }
{
    let first = count(&new[..at.start]);
    let last = count(&new[at.new_end..]);
    let middle = goals::questions(alloc, &new[at.start..at.new_end], turns)?;
    let opened = board.open_middle(first, last, middle)?;
    Ok(opened)
}

// The goals of the new procedures take the place of those of the old ones, which are open. Without memory
// nothing is opened.
fn open_changed<B: GoalBoard>(
    alloc: Global,
    board: &mut B,
    old: &[BuiltProc],
    new: &[BuiltProc],
    place: Option<usize>,
    turns: u64,
) -> Result<Opened, AllocError>
    requires goals { (B.state board.old).present ≡ map key_of (questions_of turns old.now) }
    requires few { sum (goal_counts new.now) ≤ count_limit }
    requires fix { TextsFix old.now new.now }
    requires place { AreButOne place old.now new.now }
    requires room { B.workers ≡ 0 → (B.state board.old).version < 2 ^ 64 - 1 }
    ensures opened { IfOk result (λ o. AreMade B.workers (B.state board.old) (B.noted board.old) (B.state board.new) (B.noted board.new) (made (open_keys (map key_of (questions_of turns new.now))) (open_answer o) ∷ [])) }
    ensures memory { OnErr result (IsUndone B.workers (B.state board.old) (B.noted board.old) (B.state board.new) (B.noted board.new)) }
{
    let at = changed_from(old, new, place);
    let between = open_between(alloc, board, old, new, &at, turns)?;
    match between {
        Some(opened) => Ok(opened),
        None => {
            let opened = open_all(alloc, board, new, turns)?;
            Ok(opened)
        }
    }
}

/// The goals of what is built of a module take the place of those of what was built before, which are
/// open; so many of the procedures are new. Where a place is told, all but the one there are the same
/// procedures. Without memory nothing is opened.
pub fn open_goals<B: GoalBoard>(
    alloc: Global,
    board: &mut B,
    old: &Built,
    new: &Built,
    place: Option<usize>,
    rebuilt: u64,
    turns: u64,
) -> Result<Reply, AllocError>
    requires goals { (B.state board.old).present ≡ map key_of (questions_of turns old.now.procs) }
    requires few { sum (goal_counts new.now.procs) ≤ count_limit }
    requires place { AreButOne place old.now.procs new.now.procs }
    requires room { B.workers ≡ 0 → (B.state board.old).version < 2 ^ 64 - 1 }
    ensures opened { IfOk result (λ x. (m : typed_module) → map proc_goals new.now.procs ≡ goals_by_proc m → IsOpened B.workers (B.state board.old) (B.noted board.old) (B.state board.new) (B.noted board.new) turns rebuilt m (reply_view x)) }
    ensures memory { OnErr result (IsUndone B.workers (B.state board.old) (B.noted board.old) (B.state board.new) (B.noted board.new)) }
{
    texts_fix_obligations(old, new);
    let goals = count(new.procs()) as u64;
    let opened = open_changed(alloc, board, old.procs(), new.procs(), place, turns)?;
    Ok(Reply::Accepted {
        goals,
        rebuilt,
        version: opened.version,
    })
}

/// The program's goals are settled, and the report on them is made, with this version. Without memory
/// some of them may have been settled.
pub fn report_goals<B: GoalBoard>(
    alloc: Global,
    board: &mut B,
    program: &OpenProgram,
    turns: u64,
    version: u64,
) -> Result<Reply, AllocError>
    requires goals { (B.state board.old).present ≡ keys turns program.now.typed }
    requires room { B.workers ≡ 0 → (B.state board.old).next + length (B.state board.old).present < 2 ^ 64 - 1 }
    ensures reported { IfOk result (λ x. IsReported B.workers (B.state board.old) (B.noted board.old) (B.state board.new) (B.noted board.new) turns version program.now.typed (reply_view x)) }
    ensures memory { OnErr result (AreWork B.workers (B.state board.old) (B.noted board.old) (B.state board.new) (B.noted board.new)) }
    ensures claims { B.workers ≡ 0 → (B.state board.new).next ≤ (B.state board.old).next + length (B.state board.old).present }
{
    let answers = board.settle()?;
    let lines = report_lines(alloc, program.procs(), answers, turns)?;
    Ok(Reply::Report { lines, version })
}

/// The program's goals are settled, and the texts of their proofs are made, with this version. Without
/// memory some of them may have been settled.
pub fn prove_goals<B: GoalBoard>(
    alloc: Global,
    board: &mut B,
    program: &OpenProgram,
    turns: u64,
    version: u64,
) -> Result<Reply, AllocError>
    requires goals { (B.state board.old).present ≡ keys turns program.now.typed }
    requires room { B.workers ≡ 0 → (B.state board.old).next + length (B.state board.old).present < 2 ^ 64 - 1 }
    ensures proved { IfOk result (λ x. AreProved B.workers (B.state board.old) (B.noted board.old) (B.state board.new) (B.noted board.new) turns version program.now.typed (reply_view x)) }
    ensures memory { OnErr result (AreWork B.workers (B.state board.old) (B.noted board.old) (B.state board.new) (B.noted board.new)) }
    ensures claims { B.workers ≡ 0 → (B.state board.new).next ≤ (B.state board.old).next + length (B.state board.old).present }
{
    let answers = board.settle()?;
    let lines = proof_lines(alloc, &answers)?;
    Ok(Reply::Proofs { lines, version })
}
