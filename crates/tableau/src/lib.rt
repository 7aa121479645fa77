//! The search for a proof of an obligation, defined: branches of facts, on which a step applies the first rule
//! that can be applied, until a fact and its Not stand on each. What it answers is a verdict and, where it
//! is Proved, a proof that is accepted. Written here are its first branch, and the proof of its moves.
#![tactic(auto)]

// The rules, the first branch, and what a search ends with.
pub mod ended;
pub mod rules;
pub mod search;
pub mod settled;
pub mod start;

// The proof of its moves.
pub mod assembly;
pub mod partial;

// Laws of the search.
pub mod laws;
