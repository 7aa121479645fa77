//! What the rules of the search ask of facts by number: a store of terms with the sorts of the variables
//! and the definitions, their normal forms, and what they find in a fact. What was found of a number is
//! kept, and found again at once.
#![tactic(auto)]

// What is found once, and kept.
mod atoms;
mod bodies;
mod heads;
mod left;
mod lefts;
mod memo;
mod negations;
mod numbers;
mod occurring;
mod replacements;
mod rising;
mod saying;
mod sorts;
mod standing;
mod tightening;
mod tights;
mod width;

// The store, and what is left of it for the next.
pub mod kept;
pub mod store;

// What it gives of terms.
pub mod forms;
pub mod inside;
pub mod linear;
pub mod sides;

pub use kept::Kept;
pub use store::Store;
