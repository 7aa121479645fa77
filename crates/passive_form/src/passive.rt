// Passive graphs.
use flow_core::Command;
use logic_core::{Sequence, Sort};

/// A block that only asserts and assumes, over incarnations, and then an edge to any of its
/// successors.
#[derive(Drop)]
pub struct PassiveBlock {
    /// The assertions and assumptions, in order.
    pub commands: Sequence<Command>,
    /// The numbers of the blocks to which its edges go.
    pub next: Sequence<u64>,
}

/// A passive graph; its blocks go by their numbers from 0 on.
#[derive(Drop)]
pub struct Passive {
    /// The blocks, by number.
    pub blocks: Sequence<PassiveBlock>,
    /// The sorts of all incarnations, by number.
    pub vars: Sequence<Sort>,
}
