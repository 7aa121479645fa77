//! Control-flow graphs of blocks of commands, whose loops have heads with invariants: their parts,
//! their runs, and whether a graph is rising or plain (Barnett and Leino, PASTE 2005).
#![tactic(auto)]

// The parts of graphs, and graphs.
pub mod block;
pub mod command;
pub mod graph;
pub mod mark;

// Runs.
pub mod laws;

// Rising graphs.
mod rising;

// Plain graphs.
mod branches;
mod calls;
mod edges;
mod heads;
mod loops;
mod plain;
mod reading;

pub use block::{Block, Invariant, LoopHead};
pub use command::Command;
pub use graph::Graph;
pub use mark::{GoalKind, Mark};
