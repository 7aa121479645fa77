//! The search as its definition reads, over terms: each rule is tried on a branch and gives the branch back as it
//! was, exactly where it can't be applied, or the move that its definition gives; a step takes the first
//! that can be applied. `search_plain` is slow, and the program never calls it: the search over numbers is
//! compared with it.
#![tactic(auto)]

// What a step adds and changes, and what is looked for in facts.
mod additions;
mod branch_forms;
mod formulas;
mod left_sides;
mod outside;
mod replacing;

// The rules for connectives, equations, definitions and quantifiers.
pub mod closing;
pub mod flattening;
mod found_forms;
pub mod instantiating;
pub mod rewriting;
pub mod skolem;
pub mod splitting;
pub mod unfolding;

// The rules for integers and maps.
pub mod back;
pub mod combining;
pub mod entries;
pub mod past;
pub mod trichotomy;

// The table of rules, and the search.
pub mod rules;
pub mod run;
pub mod search;
