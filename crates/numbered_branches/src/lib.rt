//! Branches and moves over the numbers of terms: data, what they stand for, and how rules change
//! branches. Each function that changes a branch says which change of terms it stands for.
#![tactic(auto)]

// Branches and moves of numbers, and what they stand for.
pub mod branch;
pub mod played;
pub mod step;
pub mod to_trees;

// Branches of numbers changed.
pub mod append;
pub mod cases;
pub mod change;
pub mod on_one;
mod passing;
pub mod replacing;

// Numbers for branches and moves.
pub mod moves_to_numbers;
pub mod to_numbers;
