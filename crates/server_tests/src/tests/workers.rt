// A worker whose prover finds no memory, and what a gate is told.
ghost use Rattle.std.specs.Prelude.{◌≡◌};
ghost use Rattle.std.specs.Arc.{arc_value};
ghost use Rattle.obligation_board.specs.Passes.{IsPassOf};

use super::questions::{Asked, Settled, questions};
use board_core::Claimed;
use bv_base::Question;
use obligation_board::{Ended, Gate, OpenGate, Pass, Prover, SharedBoard, Worked, work};
use std::alloc::{AllocError, Global};
use std::process::Abort;
use std::sync::atomic::{AtomicU64, Ordering};
use std::sync::{Arc, Wait};
use std::test::Fail;

/// Refuses its first call.
#[derive(Drop)]
struct Refusing {
    calls: AtomicU64,
}

impl Prover for Refusing {
    type A = Settled;

    ghost gives = { λ _ q s. arc_value s.question ≡ q };

    fn answer(&self, asked: &Arc<Asked, Global>) -> Result<Settled, AllocError> {
        if self.calls.fetch_add(1, Ordering::SeqCst) == 0 {
            return Err(AllocError);
        }
        let question = asked.clone()?;
        Ok(Settled {
            question,
            proved: true,
        })
    }
}

// The number and the key of the claim that is handed out, which is given back.
fn claimed<R: Wait + Abort>(
    rt: &R,
    board: &SharedBoard<Settled>,
    pass: &mut Pass<Settled>,
    key: &[u8],
) -> (u64, bool)
    requires { IsPassOf board.now pass.old }
{
    match board.claim(rt, pass).expect(rt, "no memory").reply {
        Claimed::Claim(claim) => {
            let found = (claim.number(), claim.question().key() == key);
            board.give_back(rt, pass, claim);
            found
        }
        Claimed::Empty => panic!(rt; "empty"),
        Claimed::Closed => panic!(rt; "closed"),
    }
}

#[test]
fn a_claim_without_memory_is_given_back(rt: HostRuntime) -> Result<(), Fail> {
    let alloc = rt.alloc();
    let (board, mut pass) = SharedBoard::<Settled>::new(alloc)?;
    board.open(&rt, &mut pass, questions(alloc, &[1], 1)?)?;
    let prover = Refusing {
        calls: AtomicU64::new(0),
    };
    let worked = work(&rt, alloc, &board, &mut pass, &prover, &OpenGate);
    assert_eq!(rt;
        worked,
        Worked {
            deposits: 0,
            ended: Ended::Memory
        }
    );
    assert_eq!(rt; claimed(&rt, &board, &mut pass, &[1]), (1, true));
    Ok(())
}

/// A gate and a prover, which note whether each claim's number is told once, in order, before its search. The third
/// search finds no memory.
#[derive(Drop)]
struct Recording {
    told: AtomicU64,
    searched: AtomicU64,
    faults: AtomicU64,
}

impl Gate for Recording {
    fn begin(&self, claim: u64) {
        let told = self.told.fetch_add(1, Ordering::SeqCst);
        if claim != told {
            self.faults.fetch_add(1, Ordering::SeqCst);
        }
    }
}

impl Prover for Recording {
    type A = Settled;

    ghost gives = { λ _ q f. arc_value f.question ≡ q };

    fn answer(&self, asked: &Arc<Asked, Global>) -> Result<Settled, AllocError> {
        let searched = self.searched.fetch_add(1, Ordering::SeqCst);
        if self.told.load(Ordering::SeqCst) != searched.wrapping_add(1) {
            self.faults.fetch_add(1, Ordering::SeqCst);
        }
        if searched == 2 {
            return Err(AllocError);
        }
        let question = asked.clone()?;
        Ok(Settled {
            question,
            proved: true,
        })
    }
}

#[test]
fn each_claim_is_told_once_before_its_search(rt: HostRuntime) -> Result<(), Fail> {
    let alloc = rt.alloc();
    let (board, mut pass) = SharedBoard::<Settled>::new(alloc)?;
    board.open(&rt, &mut pass, questions(alloc, &[0, 1, 2], 1)?)?;
    let recording = Recording {
        told: AtomicU64::new(0),
        searched: AtomicU64::new(0),
        faults: AtomicU64::new(0),
    };
    let worked = work(&rt, alloc, &board, &mut pass, &recording, &recording);
    assert_eq!(rt;
        worked,
        Worked {
            deposits: 2,
            ended: Ended::Memory
        }
    );
    assert_eq!(rt; recording.told.load(Ordering::SeqCst), 3);
    assert_eq!(rt; recording.searched.load(Ordering::SeqCst), 3);
    assert_eq!(rt; recording.faults.load(Ordering::SeqCst), 0);
    Ok(())
}
