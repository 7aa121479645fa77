//! Laws over definitions alone: what obligations are made of may take new numbers, and they stay the
//! same. So procedures of two programs without faults have equal obligations where their dependency
//! texts are equal.
#![tactic(auto)]

// What new numbers and places keep.
pub mod laws;

// What names stand for.
pub mod scopes;

// Programs whose dependency texts are equal.
pub mod dependency_texts;
