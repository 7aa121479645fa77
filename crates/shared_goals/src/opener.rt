//! The session's own calls on the board, each by its opener.
ghost use Rattle.std.specs.Prelude.{◌≡◌, [], ◌∷◌, IsTrue, IfOk, OnOk, OnErr, map};
ghost use Rattle.std.specs.Arc.{arc_value};
ghost use Rattle.std.specs.Option.{option_map};
ghost use Rattle.obligation_text.specs.Asked.{key_of};
ghost use Rattle.board_core.specs.Board.{open_keys, look, gather, gathered, close, closed_now, no_memory, memory};
ghost use Rattle.board_core.specs.Handed.{open_answer, look_answer};
ghost use Rattle.goal_board.specs.Calls.{made, all_kept};
ghost use Rattle.goal_board.specs.Working.{shows_all};
ghost use Rattle.obligation_board.specs.Passes.{StaysPassOf};
ghost use Rattle.shared_goals.specs.Known.{board_of, IsLaterPass, MakesNoPass};
ghost use Rattle.shared_goals.specs.Opener.{IsOpenerOf, StaysOpener, HasSettled, HasWorked};

use crate::searcher::OwnSearcher;
use board_core::{Opened, Snapshot};
use obligation_board::{Gate, Pass, SharedBoard, work_once};
use obligation_text::Asked;
use std::alloc::{AllocError, Global};
use std::sync::{Arc, Wait};
use tableau::settled::Settled;

/// How many goals are answered.
pub fn look<R: Wait>(rt: &R, board: &SharedBoard<Settled>, opener: &mut Pass<Settled>) -> Snapshot
    requires { IsOpenerOf board.now opener.old }
    ensures opener { StaysOpener board.now opener.old opener.new (made look (look_answer result) ∷ []) }
    ensures passes { MakesNoPass opener.old opener.new }
    ensures done { result.pending ≡ 0 → IsTrue (all_kept (board_of opener.new)) }
{
    board.look(rt, opener).reply
}

// Whether each goal is answered. Where not, it sleeps until there was a change since their count was `heard`.
fn all_answered<R: Wait>(
    rt: &R,
    board: &SharedBoard<Settled>,
    opener: &mut Pass<Settled>,
    heard: u64,
) -> bool
    requires { IsOpenerOf board.now opener.old }
    ensures settled { HasSettled board.now opener.old opener.new }
    ensures passes { MakesNoPass opener.old opener.new }
    ensures done { IsTrue result → IsTrue (all_kept (board_of opener.new)) }
{
    let done = look(rt, board, opener).pending == 0;
    if !done {
        board.wait_for_changes(rt, heard);
    }
    done
}

// Claims a goal, searches it and deposits the answer. Where none is left to claim, it says whether each goal is
// answered, and waits for a change where not: others hold claims then.
fn settle_one<R: Wait, G: Gate>(
    rt: &R,
    alloc: Global,
    board: &SharedBoard<Settled>,
    opener: &mut Pass<Settled>,
    searcher: &OwnSearcher,
    gate: &G,
) -> Result<bool, AllocError>
    requires { IsOpenerOf board.now opener.old }
    ensures settled { OnOk result (HasSettled board.now opener.old opener.new) }
    ensures memory { OnErr result (HasWorked board.now opener.old opener.new) }
    ensures passes { MakesNoPass opener.old opener.new }
    ensures done { IfOk result (λ done. IsTrue done → IsTrue (all_kept (board_of opener.new))) }
{
    // Read before the claim and the look, so that no change is slept through that comes after them.
    let heard = board.changes_heard();
    match work_once(rt, alloc, board, opener, searcher, gate) {
        Ok(deposits) => {
            if deposits > 0 {
                return Ok(false);
            }
            Ok(all_answered(rt, board, opener, heard))
        }
        Err(_ended) => Err(AllocError),
    }
}

/// Settles goals, one after another, until each is answered; claims that others hold are waited for, and what they
/// give back is claimed.
pub fn settle_all<R: Wait, G: Gate>(
    rt: &R,
    alloc: Global,
    board: &SharedBoard<Settled>,
    opener: &mut Pass<Settled>,
    gate: &G,
) -> Result<(), AllocError>
    requires { IsOpenerOf board.now opener.old }
    ensures settled { OnOk result (HasSettled board.now opener.old opener.new) }
    ensures memory { OnErr result (HasWorked board.now opener.old opener.new) }
    ensures passes { MakesNoPass opener.old opener.new }
    ensures kept { OnOk result (IsTrue (all_kept (board_of opener.new))) }
{
    let searcher = OwnSearcher::new(alloc);
    for _ in rt.forever() {
        match settle_one(rt, alloc, board, opener, &searcher, gate) {
            Ok(true) => return Ok(()),
            Ok(false) => {}
            Err(error) => return Err(error),
        }
    }
    unreachable!()
}

/// What is kept of each goal.
pub fn gather<R: Wait>(
    rt: &R,
    board: &SharedBoard<Settled>,
    opener: &mut Pass<Settled>,
) -> Result<Vec<Option<Arc<Settled, Global>>>, AllocError>
    requires opener { IsOpenerOf board.now opener.old }
    requires kept { IsTrue (all_kept (board_of opener.old)) }
    ensures shown { IfOk result (λ v. StaysOpener board.now opener.old opener.new (made gather (gathered (map (option_map arc_value) v.items)) ∷ []) × IsTrue (shows_all (map (option_map arc_value) v.items))) }
    ensures memory { OnErr result (StaysOpener board.now opener.old opener.new (made no_memory memory ∷ [])) }
    ensures passes { MakesNoPass opener.old opener.new }
{
    match board.gather(rt, opener) {
        Ok(receipt) => Ok(receipt.reply),
        Err(error) => Err(error),
    }
}

/// These goals take the place of those before.
pub fn open<R: Wait>(
    rt: &R,
    board: &SharedBoard<Settled>,
    opener: &mut Pass<Settled>,
    questions: Vec<Arc<Asked, Global>>,
) -> Result<Opened, AllocError>
    requires { IsOpenerOf board.now opener.old }
    ensures opened { IfOk result (λ o. StaysOpener board.now opener.old opener.new (made (open_keys (map (λ q. key_of (arc_value q)) questions.items)) (open_answer o) ∷ [])) }
    ensures memory { OnErr result (StaysOpener board.now opener.old opener.new (made no_memory memory ∷ [])) }
    ensures passes { MakesNoPass opener.old opener.new }
{
    match board.open(rt, opener, questions) {
        Ok(receipt) => Ok(receipt.reply),
        Err(error) => Err(error),
    }
}

/// Closes the board.
pub fn close<R: Wait>(rt: &R, board: &SharedBoard<Settled>, opener: &mut Pass<Settled>)
    requires { IsOpenerOf board.now opener.old }
    ensures later { IsLaterPass opener.old opener.new (made close closed_now ∷ []) }
    ensures pass { StaysPassOf board.now opener.old opener.new }
    ensures passes { MakesNoPass opener.old opener.new }
{
    board.close(rt, opener);
}
