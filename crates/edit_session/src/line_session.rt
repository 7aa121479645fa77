// A session over the lines of a source.
ghost use Rattle.std.specs.Prelude.{◌≡◌, [], ◌∷◌, ◌++◌};
ghost use Rattle.bv_base.specs.Known.{HasRisen};
ghost use Rattle.tableau.specs.Settled.{Settled as settled};
ghost use Rattle.board_core.specs.Board.{first, close, closed_now};
ghost use Rattle.goal_board.specs.Calls.{made};
ghost use Rattle.edit_session.specs.Served.{Serves, IsWithin};

use crate::answerer::LineSession;
use crate::laws::reports_are_true;
use crate::line_laws::nothing_is_served;
use crate::session::Session;
use bv_base::{Sink, Source, Steps};
use goal_board::GoalBoard;
use line_server::Ending;
use std::alloc::Global;
use std::marker::Brand;
use std::sync::ledger::{Blank, Ledger};

/// The most bytes of input that a session takes.
pub const TOTAL: u64 = 4_294_967_296;

// A session whose steps are counted in this ledger.
fn serve_in<B: GoalBoard + Drop, L: Ledger, S: Source, K: Sink>(
    alloc: Global,
    turns: u64,
    board: B,
    blank: Blank,
    source: &mut S,
    sink: &mut K,
) -> (Ending, B)
    requires first { B.state board ≡ first settled }
    requires unnoted { B.noted board ≡ [] }
    requires name { blank.name ≡ L.name }
    requires parts { blank.parts ≡ L.parts }
    requires some { blank.parts ≡ 1 }
    ensures serves { Serves turns B.workers (B.noted result.1 ++ made close closed_now ∷ []) (S.left source.old) (S.left source.new) (K.held sink.old) (K.held sink.new) result.0 }
    ensures within { ¬ (result.0 ≡ Ending.Full) → IsWithin (S.left source.old) (S.left source.new) }
    ensures read { result.0 ≡ Ending.ReadFault → HasRisen (S.faults source.old) (S.faults source.new) }
    ensures read_quiet { ¬ (result.0 ≡ Ending.ReadFault) → S.faults source.new ≡ S.faults source.old }
    ensures write { result.0 ≡ Ending.WriteFault → HasRisen (K.faults sink.old) (K.faults sink.new) }
    ensures write_quiet { ¬ (result.0 ≡ Ending.WriteFault) → K.faults sink.new ≡ K.faults sink.old }
{
    // Laws, on which the clauses rest; they do nothing.
    reports_are_true();
    nothing_is_served();
    match Session::new(alloc, turns, board, Steps::<L>::new(blank)) {
        Err(board) => (Ending::Memory, board),
        Ok(session) => {
            let mut answerer = LineSession::new(alloc, session);
            let ending = line_server::serve(alloc, TOTAL, &mut answerer, source, sink);
            (ending, answerer.end())
        }
    }
}

/// Answers the request lines of the source, of which 4,294,967,296 bytes at most are taken, over this
/// board, each goal searched with so many turns: one reply for each line that has bytes, written whole
/// before the next line is read, up to the end of the source or to a quit. The board is handed back, and
/// is to be closed.
///
/// Where it is done, the sink holds what it held, followed by the replies of a session over all lines,
/// or over those up to the quit. Where a read fails, or a byte past the total was read, it holds the
/// replies to the whole lines that were taken before; where a write fails, a front of the replies; where
/// there is no memory for a line or a reply, those to the first lines. `ReadFault` and `WriteFault` come
/// only where the source's or the sink's count of faults rose in this call, `Full` exactly where the
/// total was taken and a further byte was read.
///
/// In each reply to a report the lines are the report from scratch of the program that is open then,
/// with the same turns, and no execution of a procedure that they call correct fails from an entry
/// state. On a board that workers share the calls are those of the lines, one line's after another's.
pub fn serve<B: GoalBoard + Drop, S: Source, K: Sink>(
    alloc: Global,
    turns: u64,
    board: B,
    source: &mut S,
    sink: &mut K,
) -> (Ending, B)
    requires first { B.state board ≡ first settled }
    requires unnoted { B.noted board ≡ [] }
    ensures serves { Serves turns B.workers (B.noted result.1 ++ made close closed_now ∷ []) (S.left source.old) (S.left source.new) (K.held sink.old) (K.held sink.new) result.0 }
    ensures within { ¬ (result.0 ≡ Ending.Full) → IsWithin (S.left source.old) (S.left source.new) }
    ensures read { result.0 ≡ Ending.ReadFault → HasRisen (S.faults source.old) (S.faults source.new) }
    ensures read_quiet { ¬ (result.0 ≡ Ending.ReadFault) → S.faults source.new ≡ S.faults source.old }
    ensures write { result.0 ≡ Ending.WriteFault → HasRisen (K.faults sink.old) (K.faults sink.new) }
    ensures write_quiet { ¬ (result.0 ≡ Ending.WriteFault) → K.faults sink.new ≡ K.faults sink.old }
{
    serve_in::<B, Brand, S, K>(alloc, turns, board, Blank::new(1), source, sink)
}
