//! The passive form of rising graphs (Barnett and Leino, PASTE 2005): blocks that only assert and
//! assume, in which each assignment, each havoc and each join of unequal values makes new
//! incarnations of its variables. A failing run of the graph has an assignment of incarnations that
//! breaks the same assertion along the same path.
#![tactic(auto)]

// Passive graphs.
pub mod passive;

// Incarnations, and the commands over them.
pub mod incarnations;
mod made;

// Joins, blocks and whole graphs.
mod blocks;
mod done;
mod graph;
mod joins;
mod predecessors;

// What the passive form keeps.
pub mod laws;

pub use graph::passify;
pub use passive::{Passive, PassiveBlock};
