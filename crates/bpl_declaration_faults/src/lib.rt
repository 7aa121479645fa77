//! The faults of the parts of declarations by names and sorts, but for cycles: of constants, global
//! variables, functions, procedures and implementations.
#![tactic(auto)]

// What declarations stand in, and what stands before one.
pub mod before;
pub mod declared;
pub mod variables;

// The faults of each form of declaration.
mod bodies;
pub mod functions;
pub mod globals;
pub mod implementations;
pub mod procedures;

pub use before::Before;
pub use declared::Declared;
