//! Shared terms: each distinct term has one number, and its node has numbers for parts.
//!
//! A bank keeps a term once, however many terms in it have numbers: `places` finds a term within a
//! kept one, `table` has the terms and nodes by number, which `hash_index` finds by `hash`, and
//! `number` numbers the terms in a term, the parts before the whole.
#![tactic(auto)]

// Nodes whose parts are numbers.
pub mod node;

// Hashes of terms.
pub mod hash;
pub mod hash_index;

// Terms at places.
pub mod places;

// Terms by number.
pub mod bank;
pub mod made;
mod number;
mod table;

pub use bank::Bank;
pub use node::{Node, TermId};
