//! Loops cut by their invariants (Barnett and Leino, PASTE 2005): the invariants are read before each
//! edge to a loop's head, and the head takes any values for what the loop may set. Each failing run
//! of a plain graph, whose targets cover their loops, has a failing run of the cut graph.
#![tactic(auto)]

// The commands at a head and before the edges to one.
mod invariants;

// A block, and the graph.
mod block;
pub mod graph;

// What cutting keeps.
pub mod laws;

pub use graph::cut;
