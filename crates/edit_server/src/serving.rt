// A command on a board that is shared with workers.
ghost use Rattle.std.specs.Prelude.{◌≡◌, ◌≢◌, ◌⊎◌, ◌≤◌, true, [], ◌∷◌, ◌++◌};
ghost use Rattle.bv_base.specs.Known.{HasRisen};
ghost use Rattle.turn_lock.specs.Lock.{above, mine, splits};
ghost use Rattle.tableau.specs.Settled.{Settled as settled};
ghost use Rattle.board_core.specs.Board.{first, close, closed_now};
ghost use Rattle.goal_board.specs.Calls.{made};
ghost use Rattle.obligation_board.specs.Passes.{IsPassOf, StaysPassOf};
ghost use Rattle.shared_goals.specs.Known.{by_opener};
ghost use Rattle.shared_goals.specs.Beside.{own_calls};
ghost use Rattle.command_words.specs.Limits.{most_size};
ghost use Rattle.text_answers.specs.Exit.{IsAnswering, IsSilent};
ghost use Rattle.edit_server.specs.Modes.{IsCommand, is_shared};
ghost use Rattle.edit_server.specs.Generated.{IsStarvedBy};
ghost use Rattle.edit_server.specs.Run.{BrokenSummary, Generated};
ghost use Rattle.edit_server.specs.Ran.{Outside, outside, Ran};
ghost use Rattle.shared_goals.specs.Unused.{IsUnused};

use crate::generated::generated_on;
use crate::session::serve_session;
use bv_base::{Sink, Source, write_all};
use command_words::{Command, Mode};
use edit_session::laws::sessions_are_worth;
use edit_session::line_laws::{any_workers_serve, nothing_is_served};
use goal_board::GoalBoard;
use obligation_board::{Gate, Pass, SharedBoard};
use report_laws::generated_laws::proved_are_safe;
use shared_goals::{Beside, Naming};
use std::alloc::Global;
use std::marker::Brand;
use std::mem;
use std::sync::Wait;
use tableau::settled::Settled;
use text_answers::Status;

// Makes the program and writes its summary, by a board that is shared with workers. Nothing is read.
fn generate_on<B: GoalBoard, K: Sink>(
    alloc: Global,
    command: &Command,
    board: &mut B,
    sink: &mut K,
) -> Status
    requires size { command.now.size ≤ most_size }
    requires shared { B.workers ≢ 0 }
    requires unnoted { B.noted board.old ≡ [] }
    ensures generated { IsAnswering result → Generated command.now (B.noted board.new ++ made close closed_now ∷ []) (K.held sink.old) (K.held sink.new) result }
    ensures never_usage { ¬ (result ≡ Status.Usage) }
    ensures never_read_fault { ¬ (result ≡ Status.ReadFault) }
    ensures never_full { ¬ (result ≡ Status.SessionFull) }
    ensures silent { IsSilent result → K.held sink.new ≡ K.held sink.old }
    ensures write_fault { result ≡ Status.WriteFault → HasRisen (K.faults sink.old) (K.faults sink.new) }
    ensures write_quiet { ¬ (result ≡ Status.WriteFault) → K.faults sink.new ≡ K.faults sink.old }
    ensures front { result ≡ Status.WriteFault → BrokenSummary command.now (B.noted board.new ++ made close closed_now ∷ []) (K.held sink.old) (K.held sink.new) }
    ensures starved { result ≡ Status.Memory → IsStarvedBy command.now.turns (B.noted board.new ++ made close closed_now ∷ []) }
    ensures complete { ¬ HasRisen (K.faults sink.old) (K.faults sink.new) → IsAnswering result ⊎ (result ≡ Status.Memory) }
{
    match generated_on(alloc, command, board) {
        Err(_) => Status::Memory,
        Ok(answer) => match write_all(sink, answer.written.as_slice()) {
            Ok(()) => answer.status,
            Err(_) => Status::WriteFault,
        },
    }
}

// Sums up a generated program on the board, which is handed back.
fn sum_up_shared<B: GoalBoard + Drop, S: Source, K: Sink>(
    alloc: Global,
    command: &Command,
    board: B,
    source: &mut S,
    sink: &mut K,
) -> (Status, B)
    requires generates { command.now.mode ≡ Mode.Gen }
    requires size { command.now.size ≤ most_size }
    requires shared { B.workers ≢ 0 }
    requires unnoted { B.noted board ≡ [] }
    ensures ran { Ran command.now (B.noted result.1 ++ made close closed_now ∷ []) (outside S.left S.faults K.held K.faults source.old sink.old) (outside S.left S.faults K.held K.faults source.new sink.new) result.0 }
    ensures unread { source.new ≡ source.old }
{
    // A law, on which the clause rests; it does nothing.
    proved_are_safe();
    let mut board = board;
    let status = generate_on(alloc, command, &mut board, sink);
    (status, board)
}

// Answers the lines of the input over the board, which is handed back.
fn serve_shared<B: GoalBoard + Drop, S: Source, K: Sink>(
    alloc: Global,
    command: &Command,
    board: B,
    source: &mut S,
    sink: &mut K,
) -> (Status, B)
    requires serves { command.now.mode ≡ Mode.Serve }
    requires workers { command.now.workers ≢ 0 }
    requires shared { B.workers ≢ 0 }
    requires first { B.state board ≡ first settled }
    requires unnoted { B.noted board ≡ [] }
    ensures ran { Ran command.now (B.noted result.1 ++ made close closed_now ∷ []) (outside S.left S.faults K.held K.faults source.old sink.old) (outside S.left S.faults K.held K.faults source.new sink.new) result.0 }
{
    // Laws, on which the clause rests; they do nothing.
    any_workers_serve();
    sessions_are_worth();
    let (status, board) = serve_session(alloc, command.turns, board, source, sink);
    (status, board)
}

// Runs the command on the board, which is handed back.
fn run_on<B: GoalBoard + Drop, S: Source, K: Sink>(
    alloc: Global,
    command: &Command,
    board: B,
    source: &mut S,
    sink: &mut K,
) -> (Status, B)
    requires command { IsCommand command.now }
    requires workers { is_shared command.now ≡ true }
    requires shared { B.workers ≢ 0 }
    requires first { B.state board ≡ first settled }
    requires unnoted { B.noted board ≡ [] }
    ensures ran { Ran command.now (B.noted result.1 ++ made close closed_now ∷ []) (outside S.left S.faults K.held K.faults source.old sink.old) (outside S.left S.faults K.held K.faults source.new sink.new) result.0 }
    ensures unread { command.now.mode ≡ Mode.Gen → source.new ≡ source.old }
{
    match command.mode {
        Mode::Gen => sum_up_shared(alloc, command, board, source, sink),
        _ => serve_shared(alloc, command, board, source, sink),
    }
}

// The same, where the opener goes into the board that the command works on, and out again, behind the
// close.
fn run_in<N: Naming, R: AllocGlobal + Wait, S: Source, K: Sink, G: Gate>(
    rt: &R,
    command: &Command,
    source: &mut S,
    sink: &mut K,
    gate: &G,
    board: &SharedBoard<Settled>,
    opener: Pass<Settled>,
) -> (Status, Pass<Settled>)
    requires command { IsCommand command.now }
    requires workers { is_shared command.now ≡ true }
    requires pass { IsPassOf board.now opener }
    requires unused { IsUnused opener }
    requires table { opener.table_id ≡ N.table }
    requires passes { (above opener ≡ N.known) × (splits opener ≡ N.parted) }
    ensures pass { StaysPassOf board.now opener result.1 }
    ensures above { above result.1 ≡ above opener }
    ensures splits { splits result.1 ≡ splits opener }
    ensures opener { mine result.1 ≡ by_opener (own_calls result.1) }
    ensures ran { Ran command.now (own_calls result.1) (outside S.left S.faults K.held K.faults source.old sink.old) (outside S.left S.faults K.held K.faults source.new sink.new) result.0 }
    ensures unread { command.now.mode ≡ Mode.Gen → source.new ≡ source.old }
{
    let goals = Beside::<R, G, N>::new(rt, rt.alloc(), board, opener, gate);
    let (status, goals) = run_on(rt.alloc(), command, goals, source, sink);
    (status, goals.end())
}

/// Runs a command that some words are, `serve` or `gen` with workers, on the opener of a board that
/// others work on. The opener has made no call; what it has seen makes no difference. What it does is
/// said of `run`; `Usage` never comes. On the board it makes exactly the calls of its lines, one line's
/// after another's, and then one close, whatever the status: for an open or an edit that is accepted
/// the open of its goals; for a status one look, whose numbers are the reply's; for a report and for
/// proofs claims, each deposited, and looks, and then the gather of whose answers the reply is made;
/// for a line that is answered with want of memory claims, each deposited or given back, and looks, and
/// at most a gather; for every other line none. In `gen` they are those of an open and a report; where
/// the text has a fault, the close alone.
pub fn serve_on<R: AllocGlobal + Wait, S: Source, K: Sink, G: Gate>(
    rt: &R,
    command: &Command,
    source: &mut S,
    sink: &mut K,
    gate: &G,
    board: &SharedBoard<Settled>,
    opener: &mut Pass<Settled>,
) -> Status
    requires command { IsCommand command.now }
    requires workers { is_shared command.now ≡ true }
    requires pass { IsPassOf board.now opener.old }
    requires unused { IsUnused opener.old }
    ensures ran { Ran command.now (own_calls opener.new) (outside S.left S.faults K.held K.faults source.old sink.old) (outside S.left S.faults K.held K.faults source.new sink.new) result }
    ensures unread { command.now.mode ≡ Mode.Gen → source.new ≡ source.old }
    ensures pass { StaysPassOf board.now opener.old opener.new }
    ensures above { above opener.new ≡ above opener.old }
    ensures splits { splits opener.new ≡ splits opener.old }
    ensures opener { mine opener.new ≡ by_opener (own_calls opener.new) }
{
    // A law, on which the clauses rest; it does nothing.
    nothing_is_served();
    match SharedBoard::<Settled>::new(rt.alloc()) {
        Err(_) => {
            board.close(rt, opener);
            Status::Memory
        }
        Ok((_elsewhere, other)) => {
            let own = mem::replace(opener, other);
            let (status, own) = run_in::<Brand, R, S, K, G>(
                rt, command, source, sink, gate, board, own,
            );
            let _other = mem::replace(opener, own);
            status
        }
    }
}
