// Blocks, and the heads of loops.
use crate::command::Command;
use bv_base::place::Place;
use logic_core::{Formula, Sequence};

/// An invariant of a loop.
pub struct Invariant {
    /// Whether it is only assumed, and never checked.
    pub free: bool,
    /// Where it stands in its declaration.
    pub place: Place,
    /// What it says.
    pub formula: Formula,
}

// Written out: a derived drop is proved again wherever a value is dropped.
impl Drop for Invariant {
    fn drop(self) {
        let Invariant {
            free: _,
            place: _,
            formula,
        } = self;
        drop(formula);
    }
}

/// What stands at the head of a loop.
pub struct LoopHead {
    /// The invariants of the loop, in order.
    pub invariants: Sequence<Invariant>,
    /// The variables that the loop may set.
    pub targets: Sequence<u64>,
}

// Written out: a derived drop is proved again wherever a value is dropped.
impl Drop for LoopHead {
    fn drop(self) {
        let LoopHead {
            invariants,
            targets,
        } = self;
        drop(invariants);
        drop(targets);
    }
}

/// A block: commands one after another, and then an edge to any of its successors.
pub struct Block {
    /// The commands, in order.
    pub commands: Sequence<Command>,
    /// The numbers of the blocks to which its edges go.
    pub next: Sequence<u64>,
    /// What it is the head of, if it is the head of a loop.
    pub head: Option<LoopHead>,
}

// Written out: a derived drop is proved again wherever a value is dropped.
impl Drop for Block {
    fn drop(self) {
        let Block {
            commands,
            next,
            head,
        } = self;
        drop(commands);
        drop(next);
        drop(head);
    }
}
