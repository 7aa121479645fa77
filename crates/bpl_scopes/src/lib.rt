//! Names and types of a Boogie program: what is declared under which name, what a type stands for,
//! and the faults of types. Faults are kept as the first by place and kind.
#![tactic(auto)]

// The kinds of fault, and the first that was found.
pub mod fault;

// What is declared under which name.
pub mod declare;
pub mod hidden;
pub mod names;
pub mod part;
pub mod table;

// What a type stands for, and its faults.
pub mod shape;
mod synonym_order;
mod synonyms;
pub mod types;

// All of it, with the logical functions.
pub mod environment;

pub use declare::{Counts, declare_all};
// Laws of faults.
pub mod laws;

pub use environment::Environment;
pub use fault::{Construct, Fault, Faults, TypeKind};
pub use hidden::{Bound, Hidden};
pub use names::Positions;
pub use part::{Part, Role};
pub use shape::{Base, Shape, is};
pub use table::{Entity, Entry, Table};
pub use types::Types;
