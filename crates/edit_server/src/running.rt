// A command beside workers, on a board of its own.
ghost use Rattle.std.specs.Prelude.{◌≡◌, true, ◌∷◌, []};
ghost use Rattle.board_core.specs.Board.{close, closed_now};
ghost use Rattle.goal_board.specs.Calls.{made};
ghost use Rattle.command_words.specs.declared.command.Mode.TheVariants.{Gen};
ghost use Rattle.edit_server.specs.Modes.{IsCommand, is_shared};
ghost use Rattle.edit_server.specs.Ran.{Outside, outside};
ghost use Rattle.edit_server.specs.Shared.{Runs};

use crate::serving::serve_on;
use bv_base::{Sink, Source};
use command_words::{Command, Mode};
use edit_session::line_laws::nothing_is_served;
use obligation_board::{Gate, Pass, SharedBoard};
use shared_goals::workers::{Opening, run_beside};
use std::sync::Wait;
use std::thread::Threads;
use tableau::settled::Settled;
use text_answers::Status;

// What the command is given; a closure of a scope may hold it.
#[derive(Drop)]
struct Running<'a, 'b, 'c, S, K, G> {
    command: &'c Command,
    source: &'a mut S,
    sink: &'b mut K,
    gate: &'c G,
}

// The status, and the source and the sink again.
#[derive(Drop)]
struct Finished<'a, 'b, S, K> {
    status: Status,
    source: &'a mut S,
    sink: &'b mut K,
}

impl<'a, 'b, 'c, S: Source, K: Sink, G: Gate> Opening for Running<'a, 'b, 'c, S, K, G> {
    type Output = Finished<'a, 'b, S, K>;

    ghost ready = { λ t. IsCommand t.command.now × (is_shared t.command.now ≡ true) };

    ghost gives = { λ t r. (r.source.ghost_name ≡ t.source.ghost_name) × (r.sink.ghost_name ≡ t.sink.ghost_name) × Runs t.command.now (outside S.left S.faults K.held K.faults t.source.now t.sink.now) (outside S.left S.faults K.held K.faults r.source.now r.sink.now) r.status × (t.command.now.mode ≡ Gen → r.source.now ≡ t.source.now) };

    fn run<R: AllocGlobal + Wait>(
        self,
        rt: &R,
        board: &SharedBoard<Settled>,
        mut opener: Pass<Settled>,
    ) -> Finished<'a, 'b, S, K> {
        let Running {
            command,
            source,
            sink,
            gate,
        } = self;
        let status = serve_on(rt, command, source, sink, gate, board, &mut opener);
        Finished {
            status,
            source,
            sink,
        }
    }
}

// Does nothing; this use of a reference that came back ties it to the parameter that lent it.
fn take_back<T>(x: &mut T)
    ensures { x.new ≡ x.old }
{}

/// Runs the command beside the workers that it asks for, on a board of its own.
pub fn run_shared<R: AllocGlobal + Threads + Wait + Sync, S: Source, K: Sink, G: Gate + Sync>(
    rt: &R,
    command: &Command,
    source: &mut S,
    sink: &mut K,
    gate: &G,
) -> Status
    requires command { IsCommand command.now }
    requires workers { is_shared command.now ≡ true }
    ensures ran { Runs command.now (outside S.left S.faults K.held K.faults source.old sink.old) (outside S.left S.faults K.held K.faults source.new sink.new) result }
    ensures unread { command.now.mode ≡ Mode.Gen → source.new ≡ source.old }
{
    // A law, on which the clauses rest; it does nothing.
    nothing_is_served();
    match SharedBoard::<Settled>::new(rt.alloc()) {
        Err(_) => Status::Memory,
        Ok((board, opener)) => {
            let workers = command.workers;
            let finished = run_beside(
                rt,
                &board,
                opener,
                gate,
                workers,
                Running {
                    command,
                    source,
                    sink,
                    gate,
                },
            );
            let Finished {
                status,
                source,
                sink,
            } = finished;
            take_back(source);
            take_back(sink);
            status
        }
    }
}
