// Replies.
use crate::request::BadRequest;
use bv_base::place::Place;

/// What a session answers to a line.
#[derive(Drop)]
pub enum Reply {
    /// The program was taken: how many goals it has, how many procedures were built again, and its
    /// version.
    Accepted {
        goals: u64,
        rebuilt: u64,
        version: u64,
    },
    /// How many goals are answered, and how many are not.
    Status {
        done: u64,
        pending: u64,
        version: u64,
    },
    /// The report's lines.
    Report {
        lines: Vec<String>,
        version: u64,
    },
    /// The goals' checksums.
    Sums {
        lines: Vec<String>,
        version: u64,
    },
    /// The goals' proofs.
    Proofs {
        lines: Vec<String>,
        version: u64,
    },
    /// The session ends.
    Quit,
    /// The line is no request.
    Bad(BadRequest),
    /// There was no memory.
    Memory,
    /// No declaration has the name that is to be dropped.
    Absent(String),
    /// The text that was put in is not one declaration of this name.
    Name(String),
    /// The program has a fault: its kind, the declaration that has it, its place there, and the
    /// word at the place.
    Fault {
        kind: String,
        decl: String,
        place: Place,
        word: String,
    },
}
