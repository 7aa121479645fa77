//! The faults of expressions by names and sorts, and their sorts: each expression is walked once, and
//! the first fault by place and kind is kept.
#![tactic(auto)]

// Scopes, and what names mean in them.
pub mod meaning;
pub mod scope;
pub mod vars;

// The faults of names, of sorts and of patterns.
pub mod listed;
pub mod name_faults;
mod patterns;
pub mod sorts;

// The walk over expressions, and over what they have several of.
pub mod exprs;
mod parts;

pub use meaning::Meaning;
pub use scope::Scope;
pub use vars::{Var, Vars};
