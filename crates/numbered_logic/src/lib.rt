//! The rules of the search for connectives, equations and definitions over the numbers of a store's
//! terms: close, flatten, skolem, unfold and split. A rule is tried on a branch of numbers: it gives the branch
//! back as it was, exactly where it can't be applied, or the move that its definition gives.
#![tactic(auto)]

// What is found in facts, and normal forms of several formulas.
pub mod apart;
pub mod closing;
pub mod flattening;
mod forms;
mod found;
pub mod skolemizing;
pub mod splitting;
pub mod unfolding;
