// A board by one caller, call by call.
ghost use Rattle.std.specs.Prelude.{◌≡◌, ◌+◌, ◌-◌, ◌^◌, ◌<◌, ◌≤◌};

use super::questions::{Asked, Settled, answer, questions};
use board_core::{Board, Claim, Claimed, Snapshot};
use bv_base::{Answered, Question};
use std::alloc::{AllocError, Global};
use std::process::Abort;
use std::sync::Arc;
use std::test::Fail;

/// Opens the questions, and says the version and how many of them have an answer.
pub fn open<R: Abort>(
    rt: &R,
    board: &mut Board<Settled>,
    items: Result<Vec<Arc<Asked, Global>>, AllocError>,
) -> (u64, u64)
    ensures { board.new.next ≡ board.old.next }
{
    assert!(rt; board.look().version < 1_000_000);
    let opened = board
        .open(items.expect(rt, "no memory"))
        .expect(rt, "no memory");
    (opened.version, opened.done)
}

/// The claim that is handed out.
pub fn take<R: Abort>(rt: &R, board: &mut Board<Settled>) -> Claim<Settled>
    requires { board.old.next < 2 ^ 64 - 1 }
    ensures { board.new.next ≤ board.old.next + 1 }
{
    match board.claim() {
        Ok(Claimed::Claim(claim)) => claim,
        Ok(Claimed::Empty) => panic!(rt; "empty"),
        Ok(Claimed::Closed) => panic!(rt; "closed"),
        Err(_) => panic!(rt; "no memory"),
    }
}

/// Deposits an answer of the claim, and says how many goals it settles.
pub fn settle<R: Abort>(
    rt: &R,
    alloc: Global,
    board: &mut Board<Settled>,
    claim: Claim<Settled>,
    proved: bool,
) -> u64
    ensures { board.new.next ≡ board.old.next }
{
    assert!(rt; board.is_out(&claim));
    match answer(alloc, claim.question(), proved) {
        Ok(answer) => board.deposit(claim, answer),
        Err(_) => panic!(rt; "no memory"),
    }
}

// The claim has this number, and the key of one byte.
fn is_of(claim: &Claim<Settled>, number: u64, key: u8) -> bool {
    claim.number() == number && claim.question().key() == [key].as_slice()
}

// There is no claim, since the board is closed or has no goal left.
fn gives_none<R: Abort>(rt: &R, board: &mut Board<Settled>, closed: bool)
    requires { board.old.next < 2 ^ 64 - 1 }
    ensures { board.new.next ≤ board.old.next + 1 }
{
    match board.claim() {
        Ok(Claimed::Claim(claim)) => {
            board.give_back(claim);
            panic!(rt; "a claim");
        }
        Ok(Claimed::Empty) => assert!(rt; !closed),
        Ok(Claimed::Closed) => assert!(rt; closed),
        Err(_) => panic!(rt; "no memory"),
    }
}

fn shows<R: Abort>(rt: &R, board: &Board<Settled>, version: u64, done: u64, pending: u64) {
    let want = Snapshot {
        version,
        done,
        pending,
        closed: false,
    };
    assert_eq!(rt; board.look(), want);
}

#[test]
fn an_answer_of_a_goal_that_is_gone_settles_none(rt: HostRuntime) -> Result<(), Fail> {
    let alloc = rt.alloc();
    let mut board = Board::new(alloc);
    assert_eq!(rt; open(&rt, &mut board, questions(alloc, &[1], 1)), (1, 0));
    let claim = take(&rt, &mut board);
    assert!(rt; is_of(&claim, 0, 1));
    assert_eq!(rt; open(&rt, &mut board, questions(alloc, &[2], 1)), (2, 0));
    assert_eq!(rt; settle(&rt, alloc, &mut board, claim, true), 0);
    shows(&rt, &board, 2, 0, 1);
    let claim = take(&rt, &mut board);
    assert!(rt; is_of(&claim, 1, 2));
    assert_eq!(rt; settle(&rt, alloc, &mut board, claim, false), 1);
    shows(&rt, &board, 2, 1, 0);
    Ok(())
}

#[test]
fn a_claim_made_before_an_edit_settles_the_goal_that_came_back(
    rt: HostRuntime,
) -> Result<(), Fail> {
    let alloc = rt.alloc();
    let mut board = Board::new(alloc);
    assert_eq!(rt; open(&rt, &mut board, questions(alloc, &[1], 1)), (1, 0));
    let claim = take(&rt, &mut board);
    assert!(rt; is_of(&claim, 0, 1));
    assert_eq!(rt; open(&rt, &mut board, questions(alloc, &[2], 1)), (2, 0));
    assert_eq!(rt; open(&rt, &mut board, questions(alloc, &[1], 1)), (3, 0));
    gives_none(&rt, &mut board, false);
    assert_eq!(rt; settle(&rt, alloc, &mut board, claim, true), 1);
    shows(&rt, &board, 3, 1, 0);
    let answers = board.gather().expect(&rt, "no memory");
    assert_eq!(rt; answers.len(), 1);
    for found in &answers {
        assert!(rt;
            matches!(found, Some(found) if found.proved && found.question().key() == [1].as_slice())
        );
    }
    board.close();
    board.close();
    gives_none(&rt, &mut board, true);
    assert!(rt; board.look().closed);
    Ok(())
}

#[test]
fn goals_between_others_give_way_to_new_ones(rt: HostRuntime) -> Result<(), Fail> {
    let alloc = rt.alloc();
    let mut board = Board::new(alloc);
    assert_eq!(rt;
        open(&rt, &mut board, questions(alloc, &[1, 2, 2, 3, 1], 1)),
        (1, 0)
    );
    let claim = take(&rt, &mut board);
    assert!(rt; is_of(&claim, 0, 1));
    assert_eq!(rt; settle(&rt, alloc, &mut board, claim, true), 2);
    let claim = take(&rt, &mut board);
    assert!(rt; is_of(&claim, 1, 2));
    assert_eq!(rt; settle(&rt, alloc, &mut board, claim, true), 2);
    assert_eq!(rt;
        open(&rt, &mut board, questions(alloc, &[1, 2, 4, 4, 1], 1)),
        (2, 3)
    );
    shows(&rt, &board, 2, 3, 2);
    let claim = take(&rt, &mut board);
    assert!(rt; is_of(&claim, 2, 4));
    assert_eq!(rt; settle(&rt, alloc, &mut board, claim, false), 2);
    gives_none(&rt, &mut board, false);
    shows(&rt, &board, 2, 5, 0);
    Ok(())
}
