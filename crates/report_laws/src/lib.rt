//! What the report on a program is, and the summary of a generated one, from scratch; and what they are
//! worth: no execution of a procedure that a report's bytes call correct fails from an entry state, nor
//! any of a program whose goals the search all says to be proved.
#![tactic(auto)]

// What a report is worth.
pub mod laws;

// What the summary of a generated program is worth.
pub mod generated_laws;
