//! What functions and synonyms depend on: the functions that a body applies, the synonyms in a
//! type, which of them lead to themselves, which functions are logical, and in which order functions
//! are numbered. What is declared in a program is made once, and lent to all that asks.
#![tactic(auto)]

// The variables that hide names, the names that an expression applies and a type names, and whether
// a quantifier stands in an expression.
pub mod applied;
mod named;
pub mod quantified;
pub mod variables;

// What leads to what.
pub mod dependencies;
mod edges;
mod flags;
mod numbers;
mod ranks;
mod reach;
mod walk;

// What is declared in a program.
pub mod declarations;

pub use applied::applied_in_body;
pub use declarations::Declarations;
pub use dependencies::Dependencies;
pub use quantified::is_quantified;
pub use variables::{Variables, argument_names};
