//! Goals settled beside workers, and their answers.
ghost use Rattle.std.specs.Prelude.{◌≡◌, IsTrue, IfOk, OnOk, OnErr, List, map};
ghost use Rattle.std.specs.Arc.{arc_value};
ghost use Rattle.obligation_text.specs.Asked.{Asked as asked, key_of, KeysTellApart};
ghost use Rattle.tableau.specs.Settled.{settled_by};
ghost use Rattle.goal_board.specs.Calls.{all_kept};
ghost use Rattle.goal_board.specs.Made.{AreSettled, AreWork};
ghost use Rattle.shared_goals.specs.Known.{board_of, MakesNoPass};
ghost use Rattle.shared_goals.specs.Opener.{IsOpenerOf};
ghost use Rattle.shared_goals.specs.Beside.{own_calls};

use crate::opener::{gather, settle_all};
use goal_board::kept::present_answers;
use obligation_board::{Gate, Pass, SharedBoard};
use std::alloc::{AllocError, Global};
use std::sync::{Arc, Wait};
use tableau::settled::Settled;

/// The answer of each goal in order, once each is answered.
pub fn settle<R: Wait, G: Gate>(
    rt: &R,
    alloc: Global,
    board: &SharedBoard<Settled>,
    opener: &mut Pass<Settled>,
    gate: &G,
) -> Result<Vec<Arc<Settled, Global>>, AllocError>
    requires { IsOpenerOf board.now opener.old }
    ensures opener { IsOpenerOf board.now opener.new }
    ensures passes { MakesNoPass opener.old opener.new }
    ensures settled { IfOk result (λ v. AreSettled 1 (board_of opener.old) (own_calls opener.old) (board_of opener.new) (own_calls opener.new) (map arc_value v.items)) }
    ensures kept { OnOk result (IsTrue (all_kept (board_of opener.new))) }
    ensures answers { KeysTellApart → (qs : List asked) → (board_of opener.old).present ≡ map key_of qs → IfOk result (λ v. map arc_value v.items ≡ map settled_by qs) }
    ensures memory { OnErr result (AreWork 1 (board_of opener.old) (own_calls opener.old) (board_of opener.new) (own_calls opener.new)) }
{
    match settle_all(rt, alloc, board, opener, gate) {
        Ok(()) => match gather(rt, board, opener) {
            Ok(shown) => match present_answers(alloc, &shown) {
                Ok(answers) => Ok(answers),
                Err(error) => Err(error),
            },
            Err(error) => Err(error),
        },
        Err(error) => Err(error),
    }
}
