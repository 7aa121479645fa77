//! Gotos removed from typed modules: what stands before a label that a goto names becomes a
//! statement that a break leaves. `remove_gotos` gives exactly the module so defined, in which every
//! procedure fails as before.
#![tactic(auto)]

// The labels of bodies.
pub mod labels;

// Statements, lists and modules without gotos.
pub mod list;
pub mod module;
mod wrapper;

// What is promised of every module.
pub mod laws;

pub use module::remove_gotos;
