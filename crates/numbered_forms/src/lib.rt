//! Normal forms by number: the order of terms, sums, And, Or, Not, equations, and the normal form of a
//! term whose numbers' terms stand in a store, against the same definitions as those of trees; a binder
//! taken away, and the term of a number.
#![tactic(auto)]

// How terms stand in their order.
pub mod order;

// Sums, products and inequalities.
pub mod arithmetic;
pub mod sum;

// And, Or, Not, If and Eq.
pub mod equation;
pub mod junction;
pub mod negation;

// The normal form.
pub mod binders;
mod constructs;
mod listed;
pub mod normal;
pub mod sorts;

// Walks.
pub mod substitute;
pub mod tree;
