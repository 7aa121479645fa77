//! Threads for workers, and what is done beside them.
ghost use Rattle.obligation_board.specs.Passes.{IsPassOf};
ghost use Rattle.shared_goals.specs.Unused.{IsUnused};

use crate::searcher::Searcher;
use bv_base::Answered;
use core::scope::Scope;
use core::thread::Stack;
use obligation_board::{Gate, Pass, Prover, SharedBoard, work};
use std::sync::Wait;
use std::thread;
use std::thread::{Promise, Threads};
use tableau::settled::Settled;

/// A worker's stack, in bytes (16 MiB): what the search of the deepest terms takes, several times over. The
/// usual one depends on the limit that the program was started with.
pub const STACK: usize = 0x100_0000;

/// Nothing is promised of what a worker returns.
#[derive(Clone, Copy)]
struct Nothing;

impl<T> Promise<T> for Nothing {
    ghost kept_by = { λ _ _. Unit {0} };
}

/// What is done on the opener while workers work beside it.
pub trait Opening {
    type Output;

    /// What it rests on.
    ghost ready: { Self → Type 0 };

    /// What came of it.
    ghost gives: { Self → Self.Output → Type 0 };

    fn run<R: AllocGlobal + Wait>(
        self,
        rt: &R,
        board: &SharedBoard<Settled>,
        opener: Pass<Settled>,
    ) -> Self::Output
        requires ready { ready self }
        requires pass { IsPassOf board.now opener }
        requires unused { IsUnused opener }
        ensures { gives self result };
}

// Works on a pass of its own.
fn work_as<P: Prover, G: Gate, R: AllocGlobal + Wait>(
    rt: &R,
    board: &SharedBoard<P::A>,
    mut pass: Pass<P::A>,
    prover: &P,
    gate: &G,
) -> u64
where
    P::A: Drop,
    <P::A as Answered>::Q: Drop,
    requires { IsPassOf board.now pass }
{
    work(rt, rt.alloc(), board, &mut pass, prover, gate).deposits
}

// Starts a worker, whatever it answers, if there can be a thread for it.
fn start<'s, E, P: Prover + Sync, G: Gate + Sync, R: AllocGlobal + Wait + Sync>(
    scope: &Scope<'s, E>,
    rt: &'s R,
    board: &'s SharedBoard<P::A>,
    pass: Pass<P::A>,
    prover: &'s P,
    gate: &'s G,
)
where
    P::A: Drop + Send + Sync,
    <P::A as Answered>::Q: Drop + Send + Sync,
    requires { IsPassOf board.now pass }
{
    let started = Stack::new().stack_size(STACK).spawn_scoped_with(
        scope,
        Nothing,
        move || -> u64
            requires { IsPassOf board.now pass }
        { work_as(rt, board, pass, prover, gate) },
    );
    drop(started);
}

/// Starts so many workers, and runs the opening beside them. Where a thread can't be started there is
/// one worker fewer. Returns once each worker has ended.
pub fn run_beside<O: Opening + Drop, G: Gate + Sync, R: AllocGlobal + Threads + Wait + Sync>(
    rt: &R,
    board: &SharedBoard<Settled>,
    opener: Pass<Settled>,
    gate: &G,
    workers: u32,
    opening: O,
) -> O::Output
    requires ready { O.ready opening }
    requires pass { IsPassOf board.now opener }
    requires unused { IsUnused opener }
    ensures { O.gives opening result }
{
    let searcher = Searcher { alloc: rt.alloc() };
    let prover = &searcher;
    thread::scope(
        thread::scope_env(),
        rt,
        move |scope| -> O::Output
            requires { O.ready opening × IsPassOf board.now opener × IsUnused opener }
            ensures { O.gives opening result }
        {
            let mut opener = opener;
            for _ in 0..workers {
                let pass = board.split(&mut opener);
                // Copies, since what is lent out of the loop's own would be lent for the whole scope.
                let (rt, board, prover, gate) = (rt, board, prover, gate);
                start(scope, rt, board, pass, prover, gate);
            }
            opening.run(rt, board, opener)
        },
    )
}
