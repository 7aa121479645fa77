//! Terms by number, without trees: nodes over the numbers of their parts, and the number of a node.
//!
//! `nodes` keeps each distinct node once and finds it by its hash, and `terms` keeps beside it its
//! size and how far its bound variables reach. Parts have lower numbers than what they stand in.
#![tactic(auto)]

// Laws of terms by number.
pub mod stored;
pub mod unchanged;

// Nodes: what they have, whether two are one, their hashes and measures.
pub mod hash;
pub mod look;
pub mod measure;
pub mod renumber;
pub mod same;

// The store.
pub mod nodes;
pub mod terms;

// What nodes have over the store's terms, and numbers of terms.
pub mod number;
pub mod parts;

// Walks.
pub mod replace;

// What is kept of numbers, and numbers, each once.
pub mod number_set;
pub mod slots;

pub use terms::Terms;
