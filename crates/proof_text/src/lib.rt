//! The texts of proofs: which text a proof has, and which proof is read from bytes, or the place at
//! which they are bad. Bytes are read one by one, without recursion: texts may be hostile.
#![tactic(auto)]

// What is open in a text that is being read.
mod digit;
mod hole;
mod node;
mod parts;
mod stack;

// The state behind one more byte.
mod branch;
mod closing;
mod quantifier_sorts;
mod state;
mod term_behind;
mod term_heads;
mod term_state;

// From bytes to proofs, and back.
pub mod fault;
mod ranges;
mod reading;
mod writing;

// Laws of texts.
pub mod laws;

pub use fault::ProofFault;
pub use reading::read;
pub use writing::write;
