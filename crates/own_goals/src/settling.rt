// Claims, searches and deposits.
ghost use Rattle.std.specs.Prelude.{◌≡◌, ◌+◌, ◌-◌, ◌^◌, ◌<◌, Contains, true, length, IfOk, OnOk, OnErr};
ghost use Rattle.std.specs.Arc.{arc_value};
ghost use Rattle.obligation_text.specs.Asked.{key_of};
ghost use Rattle.tableau.specs.Settled.{IsRight, settled_by};
ghost use Rattle.board_core.specs.Board.{give_back};
ghost use Rattle.board_core.specs.Step.{step};
ghost use Rattle.board_core.specs.Handed.{ticket};
ghost use Rattle.goal_board.specs.Rests.{IsAtRest, IsSettled, IsWorkedOn};
ghost use Rattle.own_goals.specs.Rounds.{IsDeposited, IsNext, IsGivenUp};

use board_core::{Board, Claim, Claimed};
use bv_base::Answered;
use clause_search::search::Searcher;
use obligation_text::Asked;
use std::alloc::{AllocError, Global};
use std::sync::Arc;
use tableau::settled::Settled;

// The search's answer to a question; it comes behind those that were found.
fn answer_to(
    searcher: &Searcher,
    question: &Arc<Asked, Global>,
    found: &mut Vec<Arc<Settled, Global>>,
) -> Result<Arc<Settled, Global>, AllocError>
    ensures answer { IfOk result (λ a. arc_value a ≡ settled_by (arc_value question.now)) }
    ensures right { IfOk result (λ a. IsRight (arc_value a)) }
{
    let settled = searcher.search(question)?;
    let _question = settled.question();
    let shared = Arc::new(searcher.alloc(), settled)?;
    found.push(Arc::try_clone(&shared)?)?;
    Ok(shared)
}

// Deposits the answer to a claim, or without memory gives the claim back.
#[tactic(auto, using(crate::proofs::Nexts::is_deposited))]
fn settle(
    searcher: &Searcher,
    board: &mut Board<Settled>,
    claim: Claim<Settled>,
    found: &mut Vec<Arc<Settled, Global>>,
) -> Result<bool, AllocError>
    requires { Contains board.old.out (ticket key_of claim) }
    ensures settled { IfOk result (λ more. (more ≡ true) × IsDeposited (ticket key_of claim) board.old board.new) }
    ensures given_back { OnErr result (board.new ≡ step board.old (give_back (ticket key_of claim))) }
{
    match answer_to(searcher, claim.question(), found) {
        Ok(answer) => {
            board.deposit(claim, answer);
            Ok(true)
        }
        Err(e) => {
            board.give_back(claim);
            Err(e)
        }
    }
}

// Claims a goal and settles it, where one is left.
#[tactic(auto, using(crate::proofs::Nexts::settled_next, crate::proofs::Nexts::empty_next, crate::proofs::Nexts::closed_next, crate::proofs::Nexts::given_back_up, crate::proofs::Nexts::nothing_up))]
fn settle_next(
    searcher: &Searcher,
    board: &mut Board<Settled>,
    found: &mut Vec<Arc<Settled, Global>>,
) -> Result<bool, AllocError>
    requires rests { IsAtRest board.old }
    requires room { board.old.next < 2 ^ 64 - 1 }
    ensures next { IfOk result (λ more. IsNext more board.old board.new) }
    ensures given_up { OnErr result (IsGivenUp board.old board.new) }
{
    match board.claim()? {
        Claimed::Claim(claim) => settle(searcher, board, claim, found),
        Claimed::Empty | Claimed::Closed => Ok(false),
    }
}

/// Claims goals, searches them and deposits the answers, one after another, until none is left to
/// claim: then every present goal has a kept answer. The answers come behind those that were found
/// before. Without memory the claim in hand is given back, and what was deposited before stays.
#[tactic(auto, using(crate::proofs::Nexts::next_loop, crate::proofs::Nexts::next_falls, crate::proofs::Nexts::room_left, crate::proofs::Nexts::rests_still, crate::proofs::Nexts::ends_loop, crate::proofs::Nexts::fails_loop, crate::proofs::Rounds::none_so_far))]
pub fn settle_all(
    alloc: Global,
    board: &mut Board<Settled>,
    found: &mut Vec<Arc<Settled, Global>>,
) -> Result<(), AllocError>
    requires rests { IsAtRest board.old }
    requires room { board.old.next + length board.old.present < 2 ^ 64 - 1 }
    ensures settled { OnOk result (IsSettled board.old board.new) }
    ensures memory { OnErr result (IsWorkedOn board.old board.new) }
{
    let searcher = Searcher::new(alloc);
    let mut more = true;
    while more {
        more = settle_next(&searcher, board, found)?;
    }
    Ok(())
}
