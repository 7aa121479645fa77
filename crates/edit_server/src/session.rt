// A session over the lines of the input.
ghost use Rattle.std.specs.Prelude.{◌≡◌, ◌⊎◌, [], ◌∷◌, ◌++◌};
ghost use Rattle.bv_base.specs.Known.{HasRisen};
ghost use Rattle.tableau.specs.Settled.{Settled as settled};
ghost use Rattle.board_core.specs.Board.{first, close, closed_now};
ghost use Rattle.goal_board.specs.Calls.{made};
ghost use Rattle.edit_session.specs.Served.{IsWithin};
ghost use Rattle.edit_server.specs.Session.{Served, IsSessionShort, status_of};

use bv_base::{Sink, Source};
use edit_session::serve;
use goal_board::GoalBoard;
use line_server::Ending;
use std::alloc::Global;
use text_answers::Status;

// The status of a session that ended so.
fn status_of(ending: Ending) -> Status
    ensures { result ≡ status_of ending }
{
    match ending {
        Ending::Done => Status::Done,
        Ending::ReadFault => Status::ReadFault,
        Ending::WriteFault => Status::WriteFault,
        Ending::Memory => Status::Memory,
        Ending::Full => Status::SessionFull,
    }
}

/// Answers the request lines of the input over this board, which is handed back, each goal searched
/// with so many turns.
pub fn serve_session<B: GoalBoard + Drop, S: Source, K: Sink>(
    alloc: Global,
    turns: u64,
    board: B,
    source: &mut S,
    sink: &mut K,
) -> (Status, B)
    requires first { B.state board ≡ first settled }
    requires unnoted { B.noted board ≡ [] }
    ensures served { Served turns B.workers (B.noted result.1 ++ made close closed_now ∷ []) (S.left source.old) (S.left source.new) (K.held sink.old) (K.held sink.new) result.0 }
    ensures within { ¬ (result.0 ≡ Status.SessionFull) → IsWithin (S.left source.old) (S.left source.new) }
    ensures never_usage { ¬ (result.0 ≡ Status.Usage) }
    ensures read_fault { result.0 ≡ Status.ReadFault → HasRisen (S.faults source.old) (S.faults source.new) }
    ensures read_quiet { ¬ (result.0 ≡ Status.ReadFault) → S.faults source.new ≡ S.faults source.old }
    ensures write_fault { result.0 ≡ Status.WriteFault → HasRisen (K.faults sink.old) (K.faults sink.new) }
    ensures write_quiet { ¬ (result.0 ≡ Status.WriteFault) → K.faults sink.new ≡ K.faults sink.old }
    ensures complete { ¬ HasRisen (S.faults source.old) (S.faults source.new) → ¬ HasRisen (K.faults sink.old) (K.faults sink.new) → IsSessionShort (S.left source.old) → (result.0 ≡ Status.Done) ⊎ (result.0 ≡ Status.Memory) }
{
    let (ending, board) = serve(alloc, turns, board, source, sink);
    (status_of(ending), board)
}
