//! The search for a proof of an obligation, over the numbers of terms: its steps are those of the
//! definition, and so are its verdict and its proof. `rules` has the rules, in their order; those that
//! are rare go through trees, `by_trees`. `first` makes the branch with which a run begins.
#![tactic(auto)]

// The rules, and a step.
pub mod by_trees;
pub mod rare;
pub mod rules;

// The search.
pub mod ended;
mod first;
mod left;
pub mod packed;
pub mod run;
pub mod search;
