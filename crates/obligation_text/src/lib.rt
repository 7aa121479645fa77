//! Obligations: what is to be proved, over which signature; with canonical numbers for variables and
//! definitions; and their texts and keys, as bytes. Equal texts are texts of equal obligations, equal
//! keys of equal questions, and canonical numbers keep well-sortedness and validity.
#![tactic(auto)]

// Obligations.
pub mod obligation;

// Canonical numbers.
mod canonical;
mod numbering;
mod order;

// Texts, keys, and the questions that have them.
pub mod asked;
pub mod printing;
pub mod text;

// Laws of numbers and texts.
pub mod laws;

pub use asked::Asked;
pub use obligation::Obligation;
