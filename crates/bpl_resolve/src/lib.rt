//! Names and sorts of programs: a program stands for a typed module, or has a first fault, by
//! declaration, then place, then kind. The module of a program without faults has its constants,
//! axioms, functions, global variables and procedures, with a term for each expression, and the texts
//! of its declarations. It is typed, and its gotos go forward. (Rules of names and types: Leino, This is
//! Boogie 2, 2008.)
#![tactic(auto)]

// The first fault of a program.
pub mod type_fault;

// Statements with their terms, from names up.
mod names;
mod stmts;
mod targets;

// The parts of procedures.
pub mod implementations;
pub mod procedures;
mod specs;
mod variables;

// The other declarations.
mod arguments;
pub mod constants;
pub mod functions;
mod globals;
mod places;
pub mod texts;

// The module of declarations without faults, and what holds of it.
pub mod laws;
pub mod module;

// The module, or the first fault.
pub mod fault;
pub mod resolving;

pub use fault::ResolveFault;
pub use module::parts;
pub use resolving::resolve;
pub use type_fault::{TypeFault, first_fault, first_fault_in};
