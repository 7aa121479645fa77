// What is written where nothing is read.
ghost use Rattle.std.specs.Prelude.{◌≡◌, ◌⊎◌};
ghost use Rattle.bv_base.specs.Known.{Adds, HasRisen};
ghost use Rattle.text_answers.specs.Answered.{WroteFront};
ghost use Rattle.edit_server.specs.Run.{usage_line};

use bv_base::{Sink, write_all};
use text_answers::Status;

/// The line for words that are no command.
pub fn refuse_words<K: Sink>(sink: &mut K) -> Status
    ensures answer { (result ≡ Status.Usage) ⊎ (result ≡ Status.WriteFault) }
    ensures usage { result ≡ Status.Usage → Adds (K.held sink.old) (K.held sink.new) usage_line }
    ensures front { result ≡ Status.WriteFault → WroteFront (K.held sink.old) (K.held sink.new) usage_line }
    ensures fault { result ≡ Status.WriteFault → HasRisen (K.faults sink.old) (K.faults sink.new) }
    ensures quiet { ¬ (result ≡ Status.WriteFault) → K.faults sink.new ≡ K.faults sink.old }
{
    match write_all(sink, b"fault Usage - 0:0 -\n") {
        Ok(()) => Status::Usage,
        Err(_) => Status::WriteFault,
    }
}
