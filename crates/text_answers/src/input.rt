// What is answered to an input that is one text.
ghost use Rattle.std.specs.Prelude.{◌≡◌, ◌⊎◌, true};
ghost use Rattle.bv_base.specs.Known.{HasRisen};
ghost use Rattle.text_answers.specs.Exit.{IsAnswering, IsSilent};
ghost use Rattle.text_answers.specs.Modes.{answers_text};
ghost use Rattle.text_answers.specs.Answered.{Answered, Broken, IsFull, IsShort, IsWithin};

use crate::answer::answer_to;
use crate::status::Status;
use bv_base::{LineFault, Sink, Source, read_all, write_all};
use command_words::Command;
use std::alloc::Global;

/// The most bytes of input that a command reads which answers its input as a whole.
pub const TOTAL: u64 = 16_777_216;

/// Reads the input to its end, and then writes the command's answer to it.
pub fn answer_input<S: Source, K: Sink>(
    alloc: Global,
    command: &Command,
    source: &mut S,
    sink: &mut K,
) -> Status
    requires { answers_text command.now.mode ≡ true }
    ensures answered { IsAnswering result → Answered command.now (S.left source.old) (S.left source.new) (K.held sink.old) (K.held sink.new) result }
    ensures never_usage { ¬ (result ≡ Status.Usage) }
    ensures silent { IsSilent result → K.held sink.new ≡ K.held sink.old }
    ensures read_fault { result ≡ Status.ReadFault → HasRisen (S.faults source.old) (S.faults source.new) }
    ensures read_quiet { ¬ (result ≡ Status.ReadFault) → S.faults source.new ≡ S.faults source.old }
    ensures write_fault { result ≡ Status.WriteFault → HasRisen (K.faults sink.old) (K.faults sink.new) }
    ensures write_quiet { ¬ (result ≡ Status.WriteFault) → K.faults sink.new ≡ K.faults sink.old }
    ensures front { result ≡ Status.WriteFault → Broken command.now (S.left source.old) (S.left source.new) (K.held sink.old) (K.held sink.new) }
    ensures full { result ≡ Status.SessionFull → IsFull (S.left source.old) (S.left source.new) }
    ensures within { ¬ (result ≡ Status.SessionFull) → IsWithin (S.left source.old) (S.left source.new) }
    ensures complete { ¬ HasRisen (S.faults source.old) (S.faults source.new) → ¬ HasRisen (K.faults sink.old) (K.faults sink.new) → IsShort (S.left source.old) → IsAnswering result ⊎ (result ≡ Status.Memory) }
{
    let text = match read_all(alloc, source, TOTAL) {
        Ok(text) => text,
        Err(LineFault::Read) => return Status::ReadFault,
        Err(LineFault::Full) => return Status::SessionFull,
        Err(LineFault::Memory) => return Status::Memory,
    };
    match answer_to(alloc, command, text.as_slice()) {
        Err(_) => Status::Memory,
        Ok(answer) => match write_all(sink, answer.written.as_slice()) {
            Ok(()) => answer.status,
            Err(_) => Status::WriteFault,
        },
    }
}
