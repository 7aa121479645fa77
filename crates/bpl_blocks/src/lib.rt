//! The blocks of a procedure whose calls are replaced, in the order of the text: a graph whose loops
//! have heads with their invariants and with what they may set (Barnett and Leino, PASTE 2005). What
//! `to_blocks` gives is exactly the graph of `specs/Blocks`, and each failing execution has a failing
//! run of it.
#![tactic(auto)]

// What a body sets, and how many blocks it makes.
mod size;
mod targets;

// The clauses that are assumed.
mod clauses;
mod entry;
mod reach;

// Blocks, from the scopes of breaks up.
mod block;
mod drawn;
mod scope;

// The graph.
pub mod graph;

// What the graph keeps.
pub mod laws;

pub use graph::{procedure_graph, to_blocks};
