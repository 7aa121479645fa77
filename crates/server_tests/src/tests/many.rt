// Six hundred goals and four workers: each goal is searched once, and none is left. No clause says that a worker goes
// on: one that stops after three claims, without a word, is refused by this test alone.
ghost use Rattle.std.specs.Prelude.{◌≡◌};
ghost use Rattle.std.specs.Arc.{arc_value};
ghost use Rattle.turn_lock.specs.Lock.{number};
ghost use Rattle.obligation_board.specs.Passes.{IsPassOf};

use super::questions::{Asked, Settled};
use bv_base::Question;
use obligation_board::{Ended, Gate, Pass, Prover, SharedBoard, Worked, work};
use std::alloc::{AllocError, Global};
use std::sync::atomic::{AtomicU64, Ordering};
use std::sync::{Arc, Wait};
use std::test::Fail;
use std::thread;
use std::thread::Threads;

const GOALS: u64 = 600;

/// How often each number was noted.
#[derive(Drop)]
struct Notes {
    counts: Vec<AtomicU64>,
}

impl Notes {
    fn new(alloc: Global) -> Result<Notes, AllocError> {
        let mut counts = Vec::new(alloc);
        for _ in 0..GOALS {
            counts.push(AtomicU64::new(0))?;
        }
        Ok(Notes { counts })
    }

    fn note(&self, number: usize) {
        if let Some(count) = self.counts.get(number) {
            count.fetch_add(1, Ordering::SeqCst);
        }
    }

    // Each number was noted once.
    fn is_full(&self) -> bool {
        for count in &self.counts {
            if count.load(Ordering::SeqCst) != 1 {
                return false;
            }
        }
        true
    }
}

/// Notes the claims that its gate is told of, and the questions that it answers.
#[derive(Drop)]
struct Recording {
    told: Notes,
    answered: Notes,
}

impl Gate for Recording {
    fn begin(&self, claim: u64) {
        self.told.note(claim as usize);
    }
}

impl Prover for Recording {
    type A = Settled;

    ghost gives = { λ _ q s. arc_value s.question ≡ q };

    fn answer(&self, asked: &Arc<Asked, Global>) -> Result<Settled, AllocError> {
        if let [low, high] = *asked.key() {
            self.answered.note(low as usize + 256 * high as usize);
        }
        let question = asked.clone()?;
        Ok(Settled {
            question,
            proved: true,
        })
    }
}

// Questions whose keys are the numbers below `GOALS`, the low byte first.
fn numbered(alloc: Global) -> Result<Vec<Arc<Asked, Global>>, AllocError> {
    let mut items = Vec::new(alloc);
    for number in 0..GOALS {
        let key = Vec::from_slice(alloc, &[(number % 256) as u8, (number / 256) as u8])?;
        items.push(Arc::new(alloc, Asked { key })?)?;
    }
    Ok(items)
}

// A worker: how many answers it deposited, or none where it ended for want of memory.
fn deposits<R: Wait>(
    rt: &R,
    alloc: Global,
    board: &SharedBoard<Settled>,
    mut pass: Pass<Settled>,
    recording: &Recording,
) -> u64
    requires { IsPassOf board.now pass }
{
    match work(rt, alloc, board, &mut pass, recording, recording) {
        Worked {
            deposits,
            ended: Ended::Closed,
        } => deposits,
        Worked {
            deposits: _,
            ended: Ended::Memory,
        } => 0,
    }
}

// Two workers.
fn by_two<R: Threads + Wait + Sync>(
    rt: &R,
    alloc: Global,
    board: &SharedBoard<Settled>,
    mut one: Pass<Settled>,
    recording: &Recording,
) -> u64
    requires { IsPassOf board.now one }
{
    let two = board.split(&mut one);
    let (first, second) = thread::join(
        rt,
        move ||
            requires { IsPassOf board.now one }
        { deposits(rt, alloc, board, one, recording) },
        move ||
            requires { IsPassOf board.now two }
        { deposits(rt, alloc, board, two, recording) },
    );
    first.wrapping_add(second)
}

// Four workers.
fn by_four<R: Threads + Wait + Sync>(
    rt: &R,
    alloc: Global,
    board: &SharedBoard<Settled>,
    mut one: Pass<Settled>,
    recording: &Recording,
) -> u64
    requires { IsPassOf board.now one }
{
    let two = board.split(&mut one);
    let (first, second) = thread::join(
        rt,
        move ||
            requires { IsPassOf board.now one }
        { by_two(rt, alloc, board, one, recording) },
        move ||
            requires { IsPassOf board.now two }
        { by_two(rt, alloc, board, two, recording) },
    );
    first.wrapping_add(second)
}

/// Waits until every goal has an answer, and closes the board: how many have one.
pub fn close_when_done<R: Wait>(
    rt: &R,
    board: &SharedBoard<Settled>,
    mut opener: Pass<Settled>,
) -> u64
    requires { IsPassOf board.now opener × (number opener ≡ 0) }
{
    for _ in rt.forever() {
        let heard = board.changes_heard();
        let looked = board.look(rt, &mut opener);
        if looked.reply.pending == 0 {
            board.close(rt, &mut opener);
            return looked.reply.done;
        }
        board.wait_for_changes(rt, heard);
    }
    unreachable!()
}

#[test]
fn each_of_many_goals_is_searched_once(rt: HostRuntime) -> Result<(), Fail> {
    let rt = &rt;
    let alloc = rt.alloc();
    let (board, mut opener) = SharedBoard::<Settled>::new(alloc)?;
    let board = &board;
    board.open(rt, &mut opener, numbered(alloc)?)?;
    let recording = &Recording {
        told: Notes::new(alloc)?,
        answered: Notes::new(alloc)?,
    };
    let one = board.split(&mut opener);
    let (done, deposits) = thread::join(
        rt,
        move ||
            requires { IsPassOf board.now opener × (number opener ≡ 0) }
        { close_when_done(rt, board, opener) },
        move ||
            requires { IsPassOf board.now one }
        { by_four(rt, alloc, board, one, recording) },
    );
    assert_eq!(rt; (done, deposits), (GOALS, GOALS));
    assert!(rt; recording.told.is_full() && recording.answered.is_full());
    Ok(())
}
