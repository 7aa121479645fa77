// Kept answers of absent keys, at the limit of 64 MiB and one byte beyond.
ghost use Rattle.std.specs.Prelude.{◌≡◌, ◌+◌, ◌-◌, ◌^◌, ◌<◌, ◌≤◌};

use super::boards::{open, settle, take};
use super::questions::{Asked, Settled, questions};
use board_core::Board;
use std::alloc::{AllocError, Global};
use std::process::Abort;
use std::sync::Arc;
use std::test::Fail;

const KEY_BYTES: usize = 1_048_576;

// Claims and settles so many goals.
fn settle_each<R: Abort>(rt: &R, alloc: Global, board: &mut Board<Settled>, count: u64)
    requires { board.old.next + count < 2 ^ 64 - 1 }
{
    for _i in 0..count {
        let claim = take(rt, board);
        assert_eq!(rt; settle(rt, alloc, board, claim, true), 1);
    }
}

// Questions with keys of 1 MiB, and behind them some with keys of one byte.
fn goals(alloc: Global, long: &[u8], short: &[u8]) -> Result<Vec<Arc<Asked, Global>>, AllocError> {
    let mut items = questions(alloc, long, KEY_BYTES)?;
    for item in questions(alloc, short, 1)? {
        items.push(item)?;
    }
    Ok(items)
}

// How many of these goals have an answer when they come back after an edit without goals.
fn kept<R: Abort>(rt: &R, alloc: Global, long: &[u8], short: &[u8], count: u64) -> u64
    requires { count < 1000 }
{
    let mut board = Board::new(alloc);
    open(rt, &mut board, goals(alloc, long, short));
    settle_each(rt, alloc, &mut board, count);
    open(rt, &mut board, goals(alloc, &[], &[]));
    open(rt, &mut board, goals(alloc, long, short)).1
}

// 0, 1 and so on: so many numbers.
fn first(alloc: Global, count: u8) -> Result<Vec<u8>, AllocError> {
    let mut numbers = Vec::new(alloc);
    for number in 0..count {
        numbers.push(number)?;
    }
    Ok(numbers)
}

#[test]
fn answers_are_dropped_one_byte_beyond_64_mib_of_absent_keys(rt: HostRuntime) -> Result<(), Fail> {
    let alloc = rt.alloc();
    let long = first(alloc, 64)?;
    assert_eq!(rt; kept(&rt, alloc, &long, &[], 64), 64);
    assert_eq!(rt; kept(&rt, alloc, &long, &[1], 65), 0);
    Ok(())
}
