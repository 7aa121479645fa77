//! A program's fault as it is written: its kind, the declaration, the place there and the word that
//! stands there; and its line. The first fault of a text is told by the byte at which it stands, that
//! of declarations by names and sorts by the declaration and the place there. Each is exactly as
//! `specs/` has it.
#![tactic(auto)]

// The parts of a fault, and its line.
pub mod written;

// The names of kinds, and the words at places.
mod kinds;
mod words;

// A fault of a text, of a declaration, and of a program that is too large.
pub mod faults;

// The first fault of a text, and that of its declarations.
pub mod fault;

pub use fault::{written_of_program, written_of_text};
pub use faults::{fault_in_decl, fault_in_text, fault_of_size};
pub use written::Written;
