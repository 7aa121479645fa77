//! From a text to its program: the module, with the goals of each procedure that has a body, or the
//! first fault of the text as it is written. `open` gives exactly what the text is by the grammar, by
//! the faults of names and types, and by the limits on goals.
#![tactic(auto)]

// The goals of a program, procedure by procedure.
pub mod goals;

// What declarations are by names and types, and what a text is.
pub mod opening;
pub mod size;
pub mod typing;

// That a text is one thing, and what a program's module keeps.
pub mod laws;

pub use goals::{ProcGoals, program_goals};
pub use opening::{Opened, open};
pub use typing::{Typed, type_check};
