// The replies that refuse a program.
ghost use Rattle.std.specs.Prelude.{◌≡◌, List, IfOk, string_bytes};
ghost use Rattle.std.specs.Option.{option_map};
ghost use Rattle.request_text.specs.Request.{fault};
ghost use Rattle.request_text.specs.ReplyView.{reply_view};
ghost use Rattle.bpl_ast.specs.Statement.{Decl as decl};
ghost use Rattle.request_text.specs.Request as asked;
ghost use Rattle.program_edits.specs.Refusals.{IsRefused};
ghost use Rattle.edit_session.specs.Asking.{fault_reply, text_reply, denied, Asks};

use crate::lines::text_of;
use bv_base::place::Place;
use fault_text::Written;
use program_edits::EditFault;
use request_text::Reply;
use std::alloc::AllocError;

// A fault, in the declaration of this name.
fn fault_in(decl: String, kind: Vec<u8>, place: Place, word: Vec<u8>) -> Result<Reply, AllocError>
    ensures { IfOk result (λ r. reply_view r ≡ fault (kind.items) (string_bytes decl) place.line place.col word.items) }
{
    Ok(Reply::Fault {
        kind: text_of(kind)?,
        decl,
        place,
        word: text_of(word)?,
    })
}

/// A program's fault.
pub fn fault_reply(fault: Written) -> Result<Reply, AllocError>
    ensures { IfOk result (λ r. reply_view r ≡ fault_reply fault) }
{
    fault_in(text_of(fault.decl)?, fault.kind, fault.place, fault.word)
}

/// A text's fault; of one that is put in the put's name is told.
pub fn text_reply(put: Option<String>, fault: Written) -> Result<Reply, AllocError>
    ensures { IfOk result (λ r. reply_view r ≡ text_reply (option_map string_bytes put) fault) }
{
    match put {
        Some(put) => fault_in(put, fault.kind, fault.place, fault.word),
        None => fault_reply(fault),
    }
}

/// The reply to a refused edit. Want of memory is want of memory here.
#[tactic(auto, using(crate::proofs::RefusedEdits::absent_asks, crate::proofs::RefusedEdits::name_asks, crate::proofs::RefusedEdits::parse_asks))]
pub fn refusal(fault: EditFault) -> Result<Reply, AllocError>
    ensures { IfOk result (λ x. (old : List decl) (r : asked.Request) → IsRefused old r fault → Asks old r (denied (reply_view x))) }
{
    match fault {
        EditFault::Absent(name) => Ok(Reply::Absent(name)),
        EditFault::Name(name) => Ok(Reply::Name(name)),
        EditFault::Parse { put, written, .. } => text_reply(put, written),
        EditFault::Memory => Err(AllocError),
    }
}
