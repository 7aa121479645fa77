//! The call that the program makes.
ghost use Rattle.std.specs.Prelude.{◌≡◌, ◌≢◌, ◌⊎◌, ◌≤◌, None, Some, true, false, [], ◌∷◌, map, string_bytes};
ghost use Rattle.bv_base.specs.Known.{HasRisen};
ghost use Rattle.command_words.specs.Limits.{most_size};
ghost use Rattle.command_words.specs.Reading.{reading};
ghost use Rattle.command_words.specs.declared.command.Command.{Command as command};
ghost use Rattle.text_answers.specs.Exit.{IsAnswering, IsSilent};
ghost use Rattle.edit_server.specs.Modes.{IsCommand, is_shared};
ghost use Rattle.edit_server.specs.Run.{BrokenSummary, Generated};
ghost use Rattle.edit_server.specs.Ran.{outside, Refuses};
ghost use Rattle.edit_server.specs.Shared.{Runs};

use crate::generated::generated;
use crate::modes::is_shared;
use crate::running::run_shared;
use crate::session::serve_session;
use crate::writing::refuse_words;
use bv_base::{Sink, Source, write_all};
use command_words::{Command, Mode, Usage, read_words};
use edit_session::laws::sessions_are_worth;
use edit_session::line_laws::nothing_is_served;
use obligation_board::Gate;
use own_goals::Alone;
use report_laws::generated_laws::proved_are_safe;
use std::alloc::Global;
use std::sync::Wait;
use std::thread::Threads;
use text_answers::{Status, answer_input};

// Makes the program and writes its summary. Nothing is read.
fn answer_generated<K: Sink>(alloc: Global, command: &Command, sink: &mut K) -> Status
    requires size { command.now.size ≤ most_size }
    requires alone { command.now.workers ≡ 0 }
    ensures generated { IsAnswering result → Generated command.now [] (K.held sink.old) (K.held sink.new) result }
    ensures never_usage { ¬ (result ≡ Status.Usage) }
    ensures never_read_fault { ¬ (result ≡ Status.ReadFault) }
    ensures never_full { ¬ (result ≡ Status.SessionFull) }
    ensures silent { IsSilent result → K.held sink.new ≡ K.held sink.old }
    ensures write_fault { result ≡ Status.WriteFault → HasRisen (K.faults sink.old) (K.faults sink.new) }
    ensures write_quiet { ¬ (result ≡ Status.WriteFault) → K.faults sink.new ≡ K.faults sink.old }
    ensures front { result ≡ Status.WriteFault → BrokenSummary command.now [] (K.held sink.old) (K.held sink.new) }
    ensures complete { ¬ HasRisen (K.faults sink.old) (K.faults sink.new) → IsAnswering result ⊎ (result ≡ Status.Memory) }
{
    match generated(alloc, command) {
        Err(_) => Status::Memory,
        Ok(answer) => match write_all(sink, answer.written.as_slice()) {
            Ok(()) => answer.status,
            Err(_) => Status::WriteFault,
        },
    }
}

// Answers the lines of the input, one by one, over a board of its own.
fn serve_alone<R: AllocGlobal, S: Source, K: Sink>(
    rt: &R,
    command: &Command,
    source: &mut S,
    sink: &mut K,
) -> Status
    requires serves { command.now.mode ≡ Mode.Serve }
    requires alone { command.now.workers ≡ 0 }
    ensures ran { Runs command.now (outside S.left S.faults K.held K.faults source.old sink.old) (outside S.left S.faults K.held K.faults source.new sink.new) result }
{
    // A law, on which the clause rests; it does nothing.
    sessions_are_worth();
    let board = Alone::new(rt.alloc());
    let (status, _board) = serve_session(rt.alloc(), command.turns, board, source, sink);
    status
}

/// Runs a command that some words are, alone: no other thread works beside it, and nothing waits. What
/// it does is said of `run`; `Usage` never comes.
pub fn run_alone<R: AllocGlobal, S: Source, K: Sink>(
    rt: &R,
    command: &Command,
    source: &mut S,
    sink: &mut K,
) -> Status
    requires command { IsCommand command.now }
    requires alone { is_shared command.now ≡ false }
    ensures ran { Runs command.now (outside S.left S.faults K.held K.faults source.old sink.old) (outside S.left S.faults K.held K.faults source.new sink.new) result }
    ensures unread { command.now.mode ≡ Mode.Gen → source.new ≡ source.old }
{
    // A law, on which the clause rests; it does nothing.
    proved_are_safe();
    match command.mode {
        Mode::Gen => answer_generated(rt.alloc(), command, sink),
        Mode::Serve => serve_alone(rt, command, source, sink),
        _ => answer_input(rt.alloc(), command, source, sink),
    }
}

// Runs the command, beside workers or alone.
fn run_command<R: AllocGlobal + Threads + Wait + Sync, S: Source, K: Sink, G: Gate + Sync>(
    rt: &R,
    command: &Command,
    source: &mut S,
    sink: &mut K,
    gate: &G,
) -> Status
    requires command { IsCommand command.now }
    ensures ran { Runs command.now (outside S.left S.faults K.held K.faults source.old sink.old) (outside S.left S.faults K.held K.faults source.new sink.new) result }
    ensures unread { command.now.mode ≡ Mode.Gen → source.new ≡ source.old }
{
    if is_shared(command) {
        run_shared(rt, command, source, sink, gate)
    } else {
        run_alone(rt, command, source, sink)
    }
}

/// Runs the command that the words are, those after the program's name, over this input and output.
/// `check` reads a program to its end and writes the report on it; `recheck` reads a program, a line
/// `%%` and a line for each of its goals, and writes whether these are accepted proofs of them; `smoke`
/// reads a program and writes which of its points the search shows to be unreachable. `gen` reads
/// nothing: it makes a program from a seed and a size, and writes how many of its goals are proved.
/// `serve` answers request lines, one by one.
///
/// With `--workers` 1 to 64, `serve` and `gen` share the board of their goals with so many threads, each
/// of which claims goals, searches them and deposits the answers; where a thread can't be started there
/// is one fewer, and what is left the command's own thread proves. What is promised is the same for every
/// number of workers, whatever they do and in whatever order: the bytes, the statuses and their causes,
/// and what a reply or a line is worth; the two numbers of a reply to `status` alone tell how far they
/// came. Of the calls on the board more is said by `serve_on`.
///
/// `Usage` comes exactly where the words are no command; then nothing is read, and `WriteFault` or
/// `Memory` alone may come in its place. `ReadFault` and `WriteFault` come only where the
/// source's or the sink's count of faults rose in this call, and with any other status the counts are
/// those before. `SessionFull` comes exactly where 16,777,216 bytes were taken and a further one was read.
/// `Memory` is the one free answer. `Done`, `NotAll` and `Refused` come only where the input was read to
/// its end and the whole answer was written: exactly the report from scratch, what is said of the proofs
/// or of the points, or the line of the program's first fault. Where no count rises and the input tells
/// its bytes and is within the total, one of these three comes, or `Memory`. Of `gen` the answer is
/// exactly the summary of the generated program, and neither `ReadFault` nor `SessionFull` comes.
///
/// In `serve` what is written are exactly the replies of a session over the lines of the input (clause
/// `served`): with `Done` to all of them, up to the end or to the quit that ended it; with `ReadFault`, and
/// with `SessionFull`, which comes exactly where 4,294,967,296 bytes were taken and a further one was read,
/// to the whole lines taken before; with `WriteFault` a front of the replies, and with `Memory` those to
/// the first lines. `NotAll` and `Refused` never come; where no count rises and the input tells its bytes
/// and is within the total, `Done` comes, or `Memory`.
///
/// Where the text isn't refused, no execution of a procedure that a line of the report calls correct
/// fails from an entry state; where `accepted` is written, none of any procedure; and none comes to a
/// point that `smoke` names. In a reply to a report of a session the same holds of the program that is open
/// then.
pub fn run<R: AllocGlobal + Threads + Wait + Sync, S: Source, K: Sink, G: Gate + Sync>(
    rt: &R,
    words: &[String],
    source: &mut S,
    sink: &mut K,
    gate: &G,
) -> Status
    ensures usage_only { result ≡ Status.Usage → reading (map string_bytes words.now) ≡ None }
    ensures refused { reading (map string_bytes words.now) ≡ None → Refuses (outside S.left S.faults K.held K.faults source.old sink.old) (outside S.left S.faults K.held K.faults source.new sink.new) result }
    ensures refused_unread { reading (map string_bytes words.now) ≡ None → source.new ≡ source.old }
    ensures ran { (c : command) → reading (map string_bytes words.now) ≡ Some c → Runs c (outside S.left S.faults K.held K.faults source.old sink.old) (outside S.left S.faults K.held K.faults source.new sink.new) result }
    ensures unread { (c : command) → reading (map string_bytes words.now) ≡ Some c → c.mode ≡ Mode.Gen → source.new ≡ source.old }
{
    match read_words(rt.alloc(), words) {
        Ok(command) => run_command(rt, &command, source, sink, gate),
        Err(Usage::NoReading) => refuse_words(sink),
        Err(Usage::Memory) => {
            // A law, on which the clauses rest; it does nothing.
            nothing_is_served();
            Status::Memory
        }
    }
}
