//! The rounds of a worker.
ghost use Rattle.std.specs.Prelude.{◌≡◌, ◌++◌, List};
ghost use Rattle.turn_lock.specs.History.{StartsWith};
ghost use Rattle.turn_lock.specs.Lock.{above, mine, number, seen, splits};
ghost use Rattle.board_core.specs.Board.{Call};
ghost use Rattle.obligation_board.specs.Calls.{SawClose};
ghost use Rattle.obligation_board.specs.Passes.{IsPassOf, StaysPassOf};
ghost use Rattle.obligation_board.specs.Rounds.{made_by, IsWork};
ghost use Rattle.obligation_board.specs.declared.worker.Ended.TheVariants.{Closed};

use crate::gate::Gate;
use crate::prover::Prover;
use crate::round::work_once;
use crate::shared::{Pass, SharedBoard};
use bv_base::Answered;
use std::alloc::Global;
use std::sync::Wait;

/// Why a worker ended.
#[derive(Clone, Copy, PartialEq, Eq, Debug)]
pub enum Ended {
    /// One of its claims was answered Closed.
    Closed,
    /// There was no memory. The claim that it had was given back.
    Memory,
}

/// How many answers a worker deposited, and why it ended.
#[derive(Clone, Copy, PartialEq, Eq, Debug)]
pub struct Worked {
    pub deposits: u64,
    pub ended: Ended,
}

/// Claims a question, calls the gate, answers the question and deposits the answer, again and again,
/// until a claim is answered Closed or there is no memory. Where there is no question now it sleeps until
/// there may be one, and tries again. The search runs outside every turn.
pub fn work<P: Prover, G: Gate, R: Wait>(
    rt: &R,
    alloc: Global,
    board: &SharedBoard<P::A>,
    pass: &mut Pass<P::A>,
    prover: &P,
    gate: &G,
) -> Worked
where
    P::A: Drop,
    <P::A as Answered>::Q: Drop,
    requires { IsPassOf board.now pass.old }
    ensures pass { StaysPassOf board.now pass.old pass.new }
    ensures above { above pass.new ≡ above pass.old }
    ensures splits { splits pass.new ≡ splits pass.old }
    ensures seen { StartsWith (seen pass.new) (seen pass.old) }
    ensures calls { (calls : List (Call P.A)) × (mine pass.new ≡ mine pass.old ++ made_by (number pass.old) calls) × IsWork P.A.Q.key (P.gives prover.now) result.ended result.deposits calls }
    ensures closed { result.ended ≡ Closed → SawClose pass.new }
{
    let mut deposits = 0;
    for _ in rt.forever() {
        // Read before the claim, so that no question is slept through that comes after it.
        let heard = board.questions_heard();
        match work_once(rt, alloc, board, pass, prover, gate) {
            Ok(made) => {
                if made == 0 {
                    board.wait_for_questions(rt, heard);
                }
                deposits += made;
            }
            Err(ended) => return Worked { deposits, ended },
        }
    }
    unreachable!()
}
