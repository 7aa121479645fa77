//! What is answered to an input that is one text, a program or a program with proofs: the report on it,
//! what is said of the proofs, or the points that no execution reaches; or else the line of its first
//! fault. `answer_to` gives exactly the defined answer, which is worth what it says of executions;
//! `answer_input` reads the input, and writes the answer. An input has one answer, and one status.
#![tactic(auto)]

// How a run ends.
pub mod status;

// What is answered to a text.
pub mod answer;

// What is answered to an input.
mod input;

// That an input has one answer.
pub mod laws;

pub use answer::answer_to;
pub use input::answer_input;
pub use status::Status;
