//! The equations of a passive graph's blocks (Barnett and Leino, PASTE 2005): one definition for
//! each block from which an assertion is reached, and a goal over them. An assignment that breaks
//! the assertion along a path makes the goal false.
#![tactic(auto)]

// Sequents.
pub mod sequent;

// The blocks from which another is reached, and the equations.
mod bodies;
mod formulas;
mod goal;
mod reached;
mod successors;

// What the equations keep.
pub mod laws;

pub use goal::equations;
pub use sequent::Sequent;
