//! The answer of `recheck`: whether the lines are accepted proofs of the goals, one for each, or what is
//! wrong with the first that isn't. Where they are all accepted, every goal is valid, and every
//! procedure is safe.
//!
//! A program and the proofs of its goals come in one text: the program, a line `%%`, and behind it a line
//! for each goal. `cut` gives exactly the two parts, and `take_line` one line after another.
#![tactic(auto)]

// A program and lines of proofs.
pub mod line;
pub mod parts;

// A line as the proof of a goal.
mod goal;

// The answer on all goals.
pub mod answer;

// What the answer is worth.
pub mod laws;

pub use answer::{Rechecked, recheck};
pub use line::take_line;
pub use parts::{Parts, cut};
