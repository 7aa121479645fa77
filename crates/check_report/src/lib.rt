//! The report on a program: each goal is searched with the same turns, and the lines
//! say what was found. `report` gives exactly the report from scratch. Of a generated program one line
//! says how many goals have each verdict: `sum_up` gives exactly that line, and whether every goal is
//! proved; `sum_up_on` does so by a board on which workers search too.
#![tactic(auto)]

// What the search says of goals.
pub mod verdicts;

// The report on a program.
pub mod reports;

// How many goals have each verdict.
mod counts;

// The goals on a board that is shared with workers.
mod answering;
mod questions;

// The summary of a generated program.
pub mod summing;

pub use reports::{Reported, report};
pub use summing::{Drawn, Summary, sum_up, sum_up_on};
