//! The lines of a report: a goal's head, its line with the verdict, and whether each procedure is
//! correct. Proved: `head`, `push_proc` and `report` give exactly the lines of `specs/Report.antt`, and a line that
//! says that a procedure is correct stands in a report's bytes only where each of that procedure's goals
//! is proved.
#![tactic(auto)]

// A goal's head.
mod heads;

// The report on procedures, and its bytes.
mod reports;

// What a line of a report says.
pub mod laws;

pub use heads::head;
pub use reports::{all_proved, is_proof, push_proc, report, text};
