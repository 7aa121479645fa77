//! A session's board where nobody else works on it.
ghost use Rattle.std.specs.Prelude.{◌≡◌, ◌+◌, ◌-◌, ◌^◌, ◌<◌, ◌≤◌, IsTrue, IfOk, OnOk, OnErr, List, [], length, map};
ghost use Rattle.std.specs.Arc.{arc_value};
ghost use Rattle.obligation_text.specs.Asked.{Asked as asked, key_of};
ghost use Rattle.board_core.specs.Board.{first, open_keys};
ghost use Rattle.board_core.specs.Difference.{with_middle};
ghost use Rattle.board_core.specs.Handed.{open_answer};
ghost use Rattle.board_core.specs.Kept.{kept_at};
ghost use Rattle.board_core.specs.Step.{Steps};
ghost use Rattle.tableau.specs.Settled.{Settled as settled, settled_by};
ghost use Rattle.goal_board.specs.Calls.{all_kept};
ghost use Rattle.goal_board.specs.Found.{found};
ghost use Rattle.goal_board.specs.Rests.{IsAtRest, IsSameProgram};
ghost use Rattle.goal_board.specs.Made.{AreSettled, AreWork};
ghost use Rattle.own_goals.specs.Standing.{StillStand};

use crate::recall::recalled;
use crate::settling::settle_all;
use crate::told::{Told, all_told};
use board_core::{Board, Difference, Opened, Snapshot};
use goal_board::GoalBoard;
use goal_board::kept::present_answers;
use obligation_text::Asked;
use obligation_text::laws::keys_tell_apart;
use std::alloc::{AllocError, Global};
use std::marker::Model;
use std::sync::Arc;
use tableau::settled::Settled;

/// A board of the session's own. The answers that were told last are at hand, so that those of goals
/// that stayed need not be looked up, nor their keys compared.
#[derive(Drop)]
pub struct Alone {
    alloc: Global,
    board: Board<Settled>,
    told: Told,
}

impl Model for Alone {
    ghost use Rattle.std.specs.Prelude.{map};
    ghost use Rattle.std.specs.Arc.{arc_value};
    ghost use Rattle.goal_board.specs.Calls.{Board as goals};
    ghost use Rattle.goal_board.specs.Codes.{coded_board};
    ghost use Rattle.goal_board.specs.Rests.{IsAtRest};
    ghost use Rattle.own_goals.specs.Standing.{StillStand};

    ghost Value = { goals };

    ghost coded = { coded_board };

    ghost view = { λ a. a.board };

    ghost invariant = { λ a. IsAtRest a.board × StillStand a.board.present (map arc_value a.told.answers.items) a.told.first a.told.last };
}

// The goals of the questions are opened, and it is noted which of the answers told stand. Without memory
// all is as before.
fn open_noting(
    board: &mut Board<Settled>,
    told: &mut Told,
    questions: Vec<Arc<Asked, Global>>,
) -> Result<Opened, AllocError>
    requires rests { IsAtRest board.old }
    requires stand { StillStand board.old.present (map arc_value told.old.answers.items) told.old.first told.old.last }
    requires version { board.old.version < 2 ^ 64 - 1 }
    ensures step { IfOk result (λ o. Steps board.old (open_keys (map (λ q. key_of (arc_value q)) questions.items)) board.new (open_answer o)) }
    ensures memory { OnErr result (board.new ≡ board.old) }
    ensures rests { IsAtRest board.new }
    ensures stand { StillStand board.new.present (map arc_value told.new.answers.items) told.new.first told.new.last }
{
    keys_tell_apart();
    let before = board.questions();
    let count = before.len();
    let at = Difference::between(before, &questions);
    let opened = board.open_between(questions, &at)?;
    told.first = told.first.min(at.start);
    told.last = told.last.min(count.saturating_sub(at.old_end));
    Ok(opened)
}

// The same, where the first and the last so many goals stay, and others come between them.
fn open_middle_noting(
    board: &mut Board<Settled>,
    told: &mut Told,
    first: usize,
    last: usize,
    middle: Vec<Arc<Asked, Global>>,
) -> Result<Opened, AllocError>
    requires rests { IsAtRest board.old }
    requires stand { StillStand board.old.present (map arc_value told.old.answers.items) told.old.first told.old.last }
    requires version { board.old.version < 2 ^ 64 - 1 }
    requires within { first + last ≤ length board.old.present }
    ensures step { IfOk result (λ o. Steps board.old (open_keys (with_middle first last (map (λ q. key_of (arc_value q)) middle.items) board.old.present)) board.new (open_answer o)) }
    ensures memory { OnErr result (board.new ≡ board.old) }
    ensures rests { IsAtRest board.new }
    ensures stand { StillStand board.new.present (map arc_value told.new.answers.items) told.new.first told.new.last }
{
    keys_tell_apart();
    let opened = board.open_middle(first, last, middle)?;
    told.first = told.first.min(first);
    told.last = told.last.min(last);
    Ok(opened)
}

// The kept answers of the present goals: those at hand, or else as the board shows them.
fn kept_answers(
    alloc: Global,
    board: &Board<Settled>,
    told: &Told,
    since: &[Arc<Settled, Global>],
) -> Result<Vec<Arc<Settled, Global>>, AllocError>
    requires kept { IsTrue (all_kept board.now) }
    requires stand { StillStand board.now.present (map arc_value told.now.answers.items) told.now.first told.now.last }
    ensures { IfOk result (λ v. map arc_value v.items ≡ found (map (kept_at board.now.kept) board.now.present)) }
{
    keys_tell_apart();
    board.is_sound();
    match recalled(alloc, board.questions(), told, since)? {
        Some(answers) => Ok(answers),
        None => {
            let shown = board.gather()?;
            present_answers(alloc, &shown)
        }
    }
}

// Settles goals, and gathers their answers; they are at hand from now on.
fn settle(
    alloc: Global,
    board: &mut Board<Settled>,
    told: &mut Told,
) -> Result<Vec<Arc<Settled, Global>>, AllocError>
    requires rests { IsAtRest board.old }
    requires stand { StillStand board.old.present (map arc_value told.old.answers.items) told.old.first told.old.last }
    requires room { board.old.next + length board.old.present < 2 ^ 64 - 1 }
    ensures settled { IfOk result (λ v. AreSettled 0 board.old [] board.new [] (map arc_value v.items)) }
    ensures same { IsSameProgram board.old board.new }
    ensures kept { OnOk result (IsTrue (all_kept board.new)) }
    ensures answers { (qs : List asked) → board.old.present ≡ map key_of qs → IfOk result (λ v. map arc_value v.items ≡ map settled_by qs) }
    ensures memory { OnErr result (AreWork 0 board.old [] board.new []) }
    ensures stand { StillStand board.new.present (map arc_value told.new.answers.items) told.new.first told.new.last }
{
    keys_tell_apart();
    board.is_sound();
    let mut since = Vec::new(alloc);
    settle_all(alloc, board, &mut since)?;
    let answers = kept_answers(alloc, board, told, &since)?;
    *told = all_told(alloc, &answers)?;
    Ok(answers)
}

impl Alone {
    /// A new board.
    pub fn new(alloc: Global) -> Alone
        ensures { result ≡ first settled }
    {
        Alone {
            alloc,
            board: Board::new(alloc),
            told: Told::none(alloc),
        }
    }
}

impl GoalBoard for Alone {
    ghost use Rattle.std.specs.Prelude.{[]};

    ghost workers = { 0 };

    ghost state = { λ b. b };

    ghost noted = { λ _. [] };

    fn open(&mut self, questions: Vec<Arc<Asked, Global>>) -> Result<Opened, AllocError> {
        open_noting(&mut self.board, &mut self.told, questions)
    }

    fn open_middle(
        &mut self,
        first: usize,
        last: usize,
        middle: Vec<Arc<Asked, Global>>,
    ) -> Result<Option<Opened>, AllocError> {
        let opened = open_middle_noting(&mut self.board, &mut self.told, first, last, middle)?;
        Ok(Some(opened))
    }

    fn look(&mut self) -> Snapshot {
        self.board.look()
    }

    fn settle(&mut self) -> Result<Vec<Arc<Settled, Global>>, AllocError> {
        settle(self.alloc, &mut self.board, &mut self.told)
    }
}
