// Why an edit is refused.
ghost use Rattle.std.specs.Prelude.{◌≡◌, ◌≢◌, ◌-◌, ◌^◌, ◌<◌, Some, option_map, length, string_bytes};
ghost use Rattle.bpl_grammar.specs.Fault.{Fault as Told};
ghost use Rattle.bpl_parse.specs.Program.{IsFaultOf};

use bpl_parse::Fault;
use fault_text::{Written, written_of_text};
use std::alloc::{AllocError, AllocFailed, Global};
use std::fmt;
use thiserror::Error;

/// Why an edit is refused: the first of its drops that is wrong, or else the first of its puts.
#[derive(Drop, Error)]
pub enum EditFault {
    /// No declaration has the name that is to be dropped.
    #[error("there is no declaration of the dropped name")]
    Absent(String),
    /// The text has a fault: the put's name where it is a put's, the fault, and how it is written.
    #[error("the text has a fault")]
    Parse {
        put: Option<String>,
        fault: Fault,
        written: Written,
    },
    /// The put's text isn't exactly one declaration of its name.
    #[error("the text is not one declaration of its name")]
    Name(String),
    /// Memory ran out.
    #[error("out of memory")]
    Memory,
}

impl fmt::Debug for EditFault {
    fn fmt<W: fmt::Write>(&self, f: &mut fmt::Formatter<W>) -> fmt::Result {
        match self {
            EditFault::Absent(name) => write!(f, "Absent({name:?})"),
            EditFault::Parse { put, fault, .. } => {
                write!(f, "Parse {{ put: {put:?}, fault: {fault:?} }}")
            }
            EditFault::Name(name) => write!(f, "Name({name:?})"),
            EditFault::Memory => write!(f, "Memory"),
        }
    }
}

impl From<AllocError> for EditFault {
    ghost use Rattle.program_edits.specs.declared.fault.EditFault.TheVariants.{Memory};

    ghost from_gives = { λ _ e. e ≡ Memory };

    fn from(_: AllocError) -> EditFault {
        EditFault::Memory
    }
}

impl<T: Drop> From<AllocFailed<T>> for EditFault {
    ghost use Rattle.program_edits.specs.declared.fault.EditFault.TheVariants.{Memory};

    ghost from_gives = { λ _ e. e ≡ Memory };

    fn from(_: AllocFailed<T>) -> EditFault {
        EditFault::Memory
    }
}

ghost use Rattle.program_edits.specs.Edited.{lacking, faulty, other_name};
ghost use Rattle.program_edits.specs.Refusals.{IsTold, Tells};

/// That no declaration has this name.
pub(crate) fn absent(alloc: Global, name: &str) -> EditFault
    ensures { Tells result (lacking name.now) }
{
    match String::from_str(alloc, name) {
        Ok(name) => EditFault::Absent(name),
        Err(AllocError) => EditFault::Memory,
    }
}

/// That the text of the put of this name isn't one declaration of it.
pub(crate) fn misnamed(alloc: Global, name: &str) -> EditFault
    ensures { Tells result (other_name name.now) }
{
    match String::from_str(alloc, name) {
        Ok(name) => EditFault::Name(name),
        Err(AllocError) => EditFault::Memory,
    }
}

/// That a text has this fault.
pub(crate) fn faulty(alloc: Global, put: Option<String>, text: &[u8], fault: Fault) -> EditFault
    requires short { length text.now < 2 ^ 32 - 1 }
    requires there { IsFaultOf text.now fault }
    ensures { (f : Told) → IsTold fault f → Tells result (faulty (option_map string_bytes put) text.now f) }
{
    match written_of_text(alloc, text, fault) {
        Ok(written) => EditFault::Parse {
            put,
            fault,
            written,
        },
        Err(AllocError) => EditFault::Memory,
    }
}
