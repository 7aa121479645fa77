//! The faults of the statements of a body by names and sorts. Statements are walked once, and the
//! first fault by place and kind is kept.
#![tactic(auto)]

// Labels: those around a statement and ahead of it, those of a body, and those that gotos name.
pub mod label_stack;
mod labels;

// Where a body stands, and what its statements set and call.
pub mod body;
pub mod calls;
pub mod names;
pub mod targets;

// The walk over statements.
pub mod stmts;

pub use body::BodyScope;
