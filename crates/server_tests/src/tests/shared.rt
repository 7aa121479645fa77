// A board that is shared, call by call: the place of each call, and a claim that outlives two opens.
ghost use Rattle.std.specs.Prelude.{◌≡◌};
ghost use Rattle.turn_lock.specs.Lock.{number};
ghost use Rattle.board_core.specs.Handed.{ticket};
ghost use Rattle.obligation_board.specs.Calls.{Holds, claims_of};
ghost use Rattle.obligation_board.specs.Passes.{IsPassOf, StaysPassOf};

use super::questions::{Asked, Settled, answer, questions};
use board_core::{Claim, Claimed, Snapshot};
use obligation_board::{Pass, Receipt, SharedBoard};
use std::alloc::Global;
use std::process::Abort;
use std::sync::{Arc, Wait};
use std::test::Fail;

type Board = SharedBoard<Settled>;

// Opens the questions, and returns the place, the version and how many have an answer.
fn open<R: Wait + Abort>(
    rt: &R,
    board: &Board,
    opener: &mut Pass<Settled>,
    items: Vec<Arc<Asked, Global>>,
) -> (u64, u64, u64)
    requires own { IsPassOf board.now opener.old }
    requires opener { number opener.old ≡ 0 }
    ensures pass { StaysPassOf board.now opener.old opener.new × (claims_of opener.new ≡ claims_of opener.old) }
{
    let receipt = board.open(rt, opener, items).expect(rt, "there is memory");
    (receipt.place, receipt.reply.version, receipt.reply.done)
}

// The claim that is handed out, with its place.
fn claimed<R: Wait + Abort>(
    rt: &R,
    board: &Board,
    pass: &mut Pass<Settled>,
) -> (u64, Claim<Settled>)
    requires { IsPassOf board.now pass.old }
    ensures pass { StaysPassOf board.now pass.old pass.new }
    ensures held { Holds pass.new (ticket (λ q. q.key.items) result.1) }
{
    let Receipt { place, reply } = board.claim(rt, pass).expect(rt, "there is memory");
    match reply {
        Claimed::Claim(claim) => (place, claim),
        Claimed::Empty => panic!(rt; "there is a question"),
        Claimed::Closed => panic!(rt; "the board is open"),
    }
}

// Asks for work where there is none, and says whether the board is closed.
fn is_closed<R: Wait + Abort>(rt: &R, board: &Board, pass: &mut Pass<Settled>) -> bool
    requires { IsPassOf board.now pass.old }
    ensures { StaysPassOf board.now pass.old pass.new × (claims_of pass.new ≡ claims_of pass.old) }
{
    match board.claim(rt, pass).expect(rt, "there is memory").reply {
        Claimed::Claim(claim) => {
            board.give_back(rt, pass, claim);
            panic!(rt; "there is no question")
        }
        Claimed::Empty => false,
        Claimed::Closed => true,
    }
}

#[test]
fn a_claim_outlives_two_opens(rt: HostRuntime) -> Result<(), Fail> {
    let alloc = rt.alloc();
    let (board, mut pass) = SharedBoard::<Settled>::new(alloc)?;
    let one = questions(alloc, &[1], 1)?;
    let other = questions(alloc, &[2], 1)?;
    let again = questions(alloc, &[1], 1)?;
    assert_eq!(rt; open(&rt, &board, &mut pass, one), (0, 1, 0));
    let (_place, claim) = claimed(&rt, &board, &mut pass);
    let answer = answer(alloc, claim.question(), true).expect(&rt, "there is memory");
    assert_eq!(rt; open(&rt, &board, &mut pass, other), (2, 2, 0));
    assert_eq!(rt; open(&rt, &board, &mut pass, again), (3, 3, 0));
    assert!(rt; !is_closed(&rt, &board, &mut pass));
    let deposited = board.deposit(&rt, &mut pass, claim, answer);
    assert_eq!(rt; (deposited.place, deposited.reply), (5, 1));
    let looked = board.look(&rt, &mut pass);
    assert_eq!(rt;
        looked.reply,
        Snapshot {
            version: 3,
            done: 1,
            pending: 0,
            closed: false
        }
    );
    let gathered = board.gather(&rt, &mut pass)?;
    assert_eq!(rt; (gathered.place, gathered.reply.len()), (7, 1));
    assert!(rt;
        gathered.reply[0]
            .as_ref()
            .is_some_and(|answer| answer.proved)
    );
    assert_eq!(rt; board.close(&rt, &mut pass).place, 8);
    assert!(rt; is_closed(&rt, &board, &mut pass));
    Ok(())
}
