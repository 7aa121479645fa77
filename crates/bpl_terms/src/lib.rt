//! The terms of expressions: each name in an expression stands for the variable or the function that
//! it names, and each construct for its term.
#![tactic(auto)]

// Sorts, and the numbers of variables and functions.
pub mod numbers;
pub mod sorts;

// Terms of parts: runs of operands, comparisons, stores.
mod joined;
pub mod stores;

// The walk over expressions.
pub mod terms;

pub use sorts::{sort_of, sort_or_int};
pub use stores::stored;
pub use terms::{term_of, terms_in};
