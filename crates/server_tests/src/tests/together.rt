// Two searches run beside each other: no clause says that, since one after the other would give the same answers.
ghost use Rattle.std.specs.Prelude.{◌≡◌};
ghost use Rattle.std.specs.Arc.{arc_value};
ghost use Rattle.turn_lock.specs.Lock.{number};
ghost use Rattle.obligation_board.specs.Passes.{IsPassOf};

use super::many::close_when_done;
use super::questions::{Asked, Settled, questions};
use obligation_board::{OpenGate, Pass, Prover, SharedBoard, work};
use std::alloc::{AllocError, Global};
use std::sync::atomic::{AtomicU64, Ordering};
use std::sync::{Arc, Wait};
use std::test::Fail;
use std::thread;
use std::thread::Threads;

/// Its first search goes on until a second one has begun, and notes that it has.
#[derive(Drop)]
struct Meeting {
    begun: AtomicU64,
    met: AtomicU64,
}

impl Prover for Meeting {
    type A = Settled;

    ghost gives = { λ _ q f. arc_value f.question ≡ q };

    fn answer(&self, asked: &Arc<Asked, Global>) -> Result<Settled, AllocError> {
        if self.begun.fetch_add(1, Ordering::SeqCst) == 0 {
            for _ in 0..100_000_000u64 {
                if self.begun.load(Ordering::SeqCst) > 1 {
                    self.met.store(1, Ordering::SeqCst);
                    break;
                }
                thread::yield_now();
            }
        }
        let question = asked.clone()?;
        Ok(Settled {
            question,
            proved: true,
        })
    }
}

// Works with a pass of its own, and says how many answers it deposited.
fn work_as<R: Wait>(
    rt: &R,
    alloc: Global,
    board: &SharedBoard<Settled>,
    mut pass: Pass<Settled>,
    prover: &Meeting,
) -> u64
    requires { IsPassOf board.now pass }
{
    work(rt, alloc, board, &mut pass, prover, &OpenGate).deposits
}

// Two workers: how many answers they deposited.
fn work_by_two<R: Threads + Wait + Sync>(
    rt: &R,
    alloc: Global,
    board: &SharedBoard<Settled>,
    mut one: Pass<Settled>,
    prover: &Meeting,
) -> u64
    requires { IsPassOf board.now one }
{
    let two = board.split(&mut one);
    let (first, second) = thread::join(
        rt,
        move ||
            requires { IsPassOf board.now one }
        { work_as(rt, alloc, board, one, prover) },
        move ||
            requires { IsPassOf board.now two }
        { work_as(rt, alloc, board, two, prover) },
    );
    first.wrapping_add(second)
}

#[test]
fn two_searches_run_beside_each_other(rt: HostRuntime) -> Result<(), Fail> {
    let rt = &rt;
    let alloc = rt.alloc();
    let (board, mut opener) = SharedBoard::<Settled>::new(alloc)?;
    let board = &board;
    board.open(rt, &mut opener, questions(alloc, &[0, 1], 1)?)?;
    let prover = &Meeting {
        begun: AtomicU64::new(0),
        met: AtomicU64::new(0),
    };
    let one = board.split(&mut opener);
    let (done, deposits) = thread::join(
        rt,
        move ||
            requires { IsPassOf board.now opener × (number opener ≡ 0) }
        { close_when_done(rt, board, opener) },
        move ||
            requires { IsPassOf board.now one }
        { work_by_two(rt, alloc, board, one, prover) },
    );
    assert_eq!(rt; (done, deposits), (2, 2));
    assert_eq!(rt; prover.met.load(Ordering::SeqCst), 1);
    Ok(())
}
