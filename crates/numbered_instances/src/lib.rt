//! The rules instantiate and rewrite over the numbers of terms.
//!
//! Triggers are matched against ground terms by number: a variable's match is a number, and two terms
//! are one exactly where their numbers are. A function of `found`, `pattern` and `trigger` says what
//! the numbers that it finds stand for, against the definitions of matching terms.
//!
//! What the rules look for in a branch they list first: `ground` its ground terms, `marks` the tuples with
//! which a ForAll was instantiated, `shared` in how many facts each atom occurs, which is kept from branch
//! to branch. Each list is exactly what a walk through the branch finds, so that no list shows in what a
//! rule gives.
#![tactic(auto)]

// The sort of a term.
pub mod sorts;

// Matching.
pub mod found;
pub mod passed;
pub mod pattern;
pub mod trigger;

// The rule instantiate.
pub mod candidates;
pub mod ground;
pub mod instantiating;
pub mod marks;
pub mod tuples;

// The rule rewrite.
mod counts;
pub mod lefts;
mod near;
pub mod rewriting;
pub mod shared;
pub mod within;
