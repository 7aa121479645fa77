//! The goals of a program on a board that a session shares with workers, as the session speaks to it:
//! it opens goals, looks how many are answered, and settles them beside the workers, each on a thread of
//! its own.
//!
//! `searcher` is the search as a prover; `opener` has the session's own calls, `settling` what they come to
//! until each goal is answered, `beside` the board of a session; `laws` what holds of every legal history;
//! `workers` starts the threads, and runs what is done beside them.
#![tactic(auto)]

pub mod beside;
pub mod laws;
mod opener;
pub mod searcher;
mod settling;
pub mod workers;

pub use beside::{Beside, Naming};
