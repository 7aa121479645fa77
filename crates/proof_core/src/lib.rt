//! Proofs of obligations, when one is accepted, and that an accepted proof shows its goal. A proof
//! refutes the axioms and the Not of the goal: its steps append facts, and its ends close a branch or
//! split it. Contracts see a proof as data of their own.
#![tactic(auto)]

pub mod copy;
pub mod proof;
pub mod rule;
pub mod says;
pub mod soundness;
