//! A session's board beside workers.
ghost use Rattle.std.specs.Prelude.{◌≡◌, ℕ, [], ◌∷◌};
ghost use Rattle.atomic_table.specs.Seated.{TableId};
ghost use Rattle.turn_lock.specs.Lock.{IsFree, above, splits};
ghost use Rattle.board_core.specs.Board.{close, closed_now};
ghost use Rattle.goal_board.specs.Calls.{BoardCall, made};
ghost use Rattle.shared_goals.specs.Known.{IsLaterPass};
ghost use Rattle.shared_goals.specs.Opener.{IsOpenerOf, GoalPass};

use crate::opener;
use crate::settling::settle;
use board_core::{Opened, Snapshot};
use goal_board::GoalBoard;
use obligation_board::{Gate, Pass, SharedBoard};
use obligation_text::Asked;
use obligation_text::laws::keys_tell_apart;
use std::alloc::{AllocError, Global};
use std::marker::{Brand, Model, PhantomData};
use std::sync::{Arc, Wait};
use tableau::settled::Settled;

/// Which board it is, how many passes its opener knows of, and how many were made of it. Each call of a session picks
/// it, so that a session says of its opener at the end that it is this board's, and that no pass was made of it.
pub trait Naming {
    ghost table: { TableId };

    ghost known: { ℕ };

    ghost parted: { ℕ };
}

impl Naming for Brand {
    ghost table = { record { words = 0; slots = 0; views_name = 0; atom = 0; block = 0; offset = 0; slot_names = [] } };

    ghost known = { 0 };

    ghost parted = { 0 };
}

/// The board that a session shares with workers, by its opener.
#[derive(Drop)]
pub struct Beside<'a, R, G, N: Naming> {
    rt: &'a R,
    alloc: Global,
    board: &'a SharedBoard<Settled>,
    opener: Pass<Settled>,
    gate: &'a G,
    of: PhantomData<N>,
}

impl<'a, R, G, N: Naming> Model for Beside<'a, R, G, N> {
    ghost use Rattle.shared_goals.specs.Opener.{GoalPass};
    ghost use Rattle.shared_goals.specs.Codes.{coded_pass};
    ghost use Rattle.shared_goals.specs.Beside.{IsBeside};

    ghost Value = { GoalPass };

    ghost coded = { coded_pass };

    ghost view = { λ b. b.opener };

    ghost invariant = { λ b. IsBeside N.table N.known N.parted b.board.now b.opener };
}

impl<'a, R: Wait, G: Gate, N: Naming> Beside<'a, R, G, N> {
    /// The board, by its opener.
    pub fn new(
        rt: &'a R,
        alloc: Global,
        board: &'a SharedBoard<Settled>,
        opener: Pass<Settled>,
        gate: &'a G,
    ) -> Beside<'a, R, G, N>
        requires opener { IsOpenerOf board.now opener }
        requires table { opener.table_id ≡ N.table }
        requires passes { (above opener ≡ N.known) × (splits opener ≡ N.parted) }
        ensures { result ≡ opener }
    {
        Beside {
            rt,
            alloc,
            board,
            opener,
            gate,
            of: PhantomData,
        }
    }

    /// Closes the board, and hands its opener out.
    pub fn end(self) -> Pass<Settled>
        ensures later { IsLaterPass self.entry result (made close closed_now ∷ []) }
        ensures table { result.table_id ≡ N.table }
        ensures passes { (above result ≡ N.known) × (splits result ≡ N.parted) }
        ensures free { IsFree result }
    {
        let Beside {
            rt,
            alloc: _alloc,
            board,
            mut opener,
            gate: _gate,
            of: _of,
        } = self;
        opener::close(rt, board, &mut opener);
        opener
    }
}

impl<'a, R: Wait, G: Gate, N: Naming> GoalBoard for Beside<'a, R, G, N> {
    ghost use Rattle.shared_goals.specs.Known.{board_of};
    ghost use Rattle.shared_goals.specs.Beside.{own_calls};

    ghost workers = { 1 };

    ghost state = { board_of };

    ghost noted = { own_calls };

    fn open(&mut self, questions: Vec<Arc<Asked, Global>>) -> Result<Opened, AllocError> {
        opener::open(self.rt, self.board, &mut self.opener, questions)
    }

    fn open_middle(
        &mut self,
        _first: usize,
        _last: usize,
        middle: Vec<Arc<Asked, Global>>,
    ) -> Result<Option<Opened>, AllocError> {
        drop(middle);
        Ok(None)
    }

    fn look(&mut self) -> Snapshot {
        opener::look(self.rt, self.board, &mut self.opener)
    }

    fn settle(&mut self) -> Result<Vec<Arc<Settled, Global>>, AllocError> {
        keys_tell_apart();
        settle(self.rt, self.alloc, self.board, &mut self.opener, self.gate)
    }
}
