//! What the rules of the search stand on: facts and branches, what a step adds to a branch and changes
//! in it, what is looked for in facts, and moves. Each function gives exactly what the definition of
//! the same name in specs/ gives; where it runs out of memory its error says so.
#![tactic(auto)]

// Facts and branches.
mod applications;
pub mod branch;
pub mod fact;
pub mod found;
pub mod variables;

// What is looked for in facts, and formulas that are made.
pub mod build;
pub mod forms;
pub mod oriented;
pub mod outside;

// What a step adds and changes, and moves.
pub mod change;
pub mod changing;
pub mod on_one;
pub mod played;
