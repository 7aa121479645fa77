//! The checksums of goals: a chain of digests over a body's canonical lines, each with the declarations
//! that its names lead to. A goal's checksum is the chain after its statement's line, so it stays as it
//! is where neither a line up to there nor what such a line leads to was changed. (Statement checksums:
//! Leino and Wüstholz, Fine-grained caching of verification results, CAV 2015.)
#![tactic(auto)]

// Of each line of a declaration, the names in it and the place of what may be asserted there.
mod bodies;
mod parts;
mod stmts;
mod texts;

// The chain of digests.
mod chain;
mod digests;
mod lines;

// The checksums of goals.
pub mod checksums;

// That each line has its part.
pub mod laws;

pub use checksums::{sum_lines, sums};
