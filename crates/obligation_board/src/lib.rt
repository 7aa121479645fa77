//! The board of claims and answers that several threads share, and the workers at it: each call is one
//! turn under the turn lock, and one entry of the one history of all calls.
//!
//! `posted` has the board as the lock keeps it; `bell` what idle threads sleep on; `shared` the
//! shared board and its passes; `calls` the calls, `waits` how a thread sleeps until there is
//! something new, `endings` how turns end, `laws` what holds of every history.
//!
//! Workers are threads that claim questions from the board, answer them and deposit the answers. `gate`
//! is called before each search; `prover` has what answers questions; `round` is one claim and what
//! becomes of it, `worker` the rounds of a worker up to the end.
#![tactic(auto)]

mod bell;
mod calls;
mod endings;
mod gate;
mod laws;
mod posted;
mod prover;
mod round;
mod shared;
mod waits;
mod worker;

pub use gate::{Gate, OpenGate};
pub use posted::Posted;
pub use prover::Prover;
pub use round::work_once;
pub use shared::{Pass, Receipt, SharedBoard};
pub use worker::{Ended, Worked, work};
