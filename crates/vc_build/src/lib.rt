//! Verification conditions: the goals of a procedure, one obligation for each of its assertions, made
//! by the passes in turn (gotos removed, calls replaced by contracts, blocks, loops cut, incarnations,
//! equations of blocks: Barnett and Leino, PASTE 2005), with chosen triggers and canonical numbers.
//! Where an execution from an entry state fails, some goal of the same mark isn't valid. Goals are
//! well-sorted obligations, so each that has an accepted proof is valid. `marks_of` gives their marks
//! in their order by the procedure's text alone, and no pass is run.
#![tactic(auto)]

// Goals, and the limits on them.
pub mod fault;
pub mod goal;
pub mod tally;

// The goals of a procedure, from the obligation of an assertion up.
pub mod axioms;
mod graph;
mod obligation;
pub mod procedure;

// What valid goals promise, and what accepted proofs of goals show.
pub mod laws;
pub mod proved_goals;

// The marks of clauses, and then of statements; and that they are those of the goals.
mod clauses;
pub mod mark_laws;
pub mod marks;

pub use fault::{BuildFault, Measure};
pub use goal::Goal;
pub use marks::marks_of;
pub use procedure::build;
