// Requests, and why a line is none.
ghost use Rattle.std.specs.Prelude.{◌≡◌};

use std::alloc::{AllocError, AllocFailed};

/// A declaration that an edit puts in.
#[derive(Drop)]
pub struct Put {
    /// The name of the declaration whose place it takes, or that it is to have.
    pub name: String,
    /// Its text.
    pub text: String,
}

/// What a line asks for.
#[derive(Drop)]
pub enum Request {
    /// A whole program.
    Open { text: String },
    /// Declarations that are put in, and names of those that are dropped.
    Edit { put: Vec<Put>, drop: Vec<String> },
    /// How many goals are answered.
    Status,
    /// The report on each procedure.
    Report,
    /// A checksum of each goal.
    Sums,
    /// The proof of each goal.
    Proofs,
    /// The end of the session.
    Quit,
}

/// Why a line is no request.
#[derive(Clone, Copy, PartialEq, Eq, Debug, Drop)]
pub enum BadRequest {
    /// It is no JSON value.
    Json,
    /// It has none of the seven ops.
    Op,
    /// A field that the op needs is absent or not of its kind, or a name stands twice in an edit.
    Field,
    /// It is too long.
    Long,
    /// There was no memory to read it.
    Memory,
}

impl From<AllocError> for BadRequest {
    ghost use Rattle.request_text.specs.declared.request.BadRequest.TheVariants.{Memory};

    ghost from_gives = { λ _ e. e ≡ Memory };

    fn from(_: AllocError) -> BadRequest {
        BadRequest::Memory
    }
}

impl<T: Drop> From<AllocFailed<T>> for BadRequest {
    ghost use Rattle.request_text.specs.declared.request.BadRequest.TheVariants.{Memory};

    ghost from_gives = { λ _ e. e ≡ Memory };

    fn from(_: AllocFailed<T>) -> BadRequest {
        BadRequest::Memory
    }
}
