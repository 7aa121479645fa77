//! One claim, and what becomes of it.
ghost use Rattle.std.specs.Prelude.{◌≡◌, ◌++◌, ◌+◌, ◌<◌, ◌^◌, List, length, IfOk, IfErr};
ghost use Rattle.std.specs.Arc.{arc_value};
ghost use Rattle.turn_lock.specs.History.{StartsWith};
ghost use Rattle.turn_lock.specs.Lock.{above, mine, number, seen, splits};
ghost use Rattle.board_core.specs.Board.{Call};
ghost use Rattle.obligation_board.specs.Calls.{Holds, Knows, SawClose};
ghost use Rattle.obligation_board.specs.Passes.{IsPassOf, StaysPassOf};
ghost use Rattle.board_core.specs.Handed.{ticket};
ghost use Rattle.obligation_board.specs.Rounds.{made_by, IsTry, IsSettled};
ghost use Rattle.obligation_board.specs.declared.worker.Ended.TheVariants.{Closed};

use crate::gate::Gate;
use crate::prover::Prover;
use crate::shared::{Pass, Receipt, SharedBoard};
use crate::worker::Ended;
use board_core::{Claim, Claimed};
use bv_base::Answered;
use std::alloc::{AllocError, Global};
use std::sync::{Arc, Wait};

// The prover's answer, to be shared.
fn answer<P: Prover>(
    alloc: Global,
    prover: &P,
    asked: &Arc<<P::A as Answered>::Q, Global>,
) -> Result<Arc<P::A, Global>, AllocError>
where
    P::A: Drop,
    ensures given { IfOk result (λ a. P.gives prover.now (arc_value asked.now) (arc_value a)) }
    ensures asked { IfOk result (λ a. P.A.asked (arc_value a) ≡ arc_value asked.now) }
{
    let answer = prover.answer(asked)?;
    match Arc::new(alloc, answer) {
        Ok(shared) => Ok(shared),
        Err(_) => Err(AllocError),
    }
}

// Searches for the answer of a claim, and deposits it, or gives the claim back where there is no memory, which ends the worker.
fn settle<P: Prover, G: Gate, R: Wait>(
    rt: &R,
    alloc: Global,
    board: &SharedBoard<P::A>,
    pass: &mut Pass<P::A>,
    prover: &P,
    gate: &G,
    claim: Claim<P::A>,
) -> Result<u64, Ended>
where
    P::A: Drop,
    <P::A as Answered>::Q: Drop,
    requires pass { IsPassOf board.now pass.old }
    requires held { Holds pass.old (ticket P.A.Q.key claim) }
    ensures pass { StaysPassOf board.now pass.old pass.new }
    ensures above { above pass.new ≡ above pass.old }
    ensures splits { splits pass.new ≡ splits pass.old }
    ensures seen { StartsWith (seen pass.new) (seen pass.old) }
    ensures calls { (calls : List (Call P.A)) × (mine pass.new ≡ mine pass.old ++ made_by (number pass.old) calls) × IsSettled P.A.Q.key (P.gives prover.now) (ticket P.A.Q.key claim) result calls }
    ensures knows { Knows (λ a. P.A.Q.key (P.A.asked a)) P.A.right pass.new }
    ensures room { IfOk result (λ _. length (mine pass.old) < 2 ^ 64) }
{
    gate.begin(claim.number());
    match answer(alloc, prover, claim.question()) {
        Ok(answer) => {
            board.deposit(rt, pass, claim, answer);
            Ok(1)
        }
        Err(_) => {
            board.give_back(rt, pass, claim);
            Err(Ended::Memory)
        }
    }
}

/// Claims a question and settles the claim: 1 where its answer was deposited, 0 where there was no question to
/// claim, or why the worker ends. It doesn't wait for a question.
pub fn work_once<P: Prover, G: Gate, R: Wait>(
    rt: &R,
    alloc: Global,
    board: &SharedBoard<P::A>,
    pass: &mut Pass<P::A>,
    prover: &P,
    gate: &G,
) -> Result<u64, Ended>
where
    P::A: Drop,
    <P::A as Answered>::Q: Drop,
    requires { IsPassOf board.now pass.old }
    ensures pass { StaysPassOf board.now pass.old pass.new }
    ensures above { above pass.new ≡ above pass.old }
    ensures splits { splits pass.new ≡ splits pass.old }
    ensures seen { StartsWith (seen pass.new) (seen pass.old) }
    ensures calls { (calls : List (Call P.A)) × (mine pass.new ≡ mine pass.old ++ made_by (number pass.old) calls) × IsTry P.A.Q.key (P.gives prover.now) result calls }
    ensures knows { Knows (λ a. P.A.Q.key (P.A.asked a)) P.A.right pass.new }
    ensures closed { IfErr result (λ ended. ended ≡ Closed → SawClose pass.new) }
    ensures room { IfOk result (λ deposits. 0 < deposits → length (mine pass.old) + deposits < 2 ^ 64) }
{
    match board.claim(rt, pass) {
        Ok(receipt) => {
            let Receipt { place: _, reply } = receipt;
            match reply {
                Claimed::Claim(claim) => settle(rt, alloc, board, pass, prover, gate, claim),
                Claimed::Empty => Ok(0),
                Claimed::Closed => Err(Ended::Closed),
            }
        }
        Err(_) => Err(Ended::Memory),
    }
}
