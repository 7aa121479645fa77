//! The checker of proofs: whether every node meets its rule and every branch ends in a close, and
//! otherwise which node is the first that doesn't. One function a rule, and one walk.
#![tactic(auto)]

// Faults, facts, and where a node stands.
mod context;
mod fact;
mod fault;

// The rules.
mod access;
mod children;
mod rules;

// The walk.
mod walk;

pub use fault::CheckFault;
pub use proof_core::rule::Rule;
pub use walk::check;
