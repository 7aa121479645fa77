//! The rules of the search for integers and maps over the numbers of terms: combine, trichotomy, back and
//! past. A rule is tried on a branch of numbers: it gives the branch back as it was, exactly where it can't
//! be applied, or the move that its definition gives for what the numbers stand for.
#![tactic(auto)]

// Linear forms, the linear facts that are combined and their pairs that were tried, and the ways of a number.
pub mod entries;
pub mod leads;
pub mod linear;
pub mod tried;
pub mod ways;

// Reads of Writes.
pub mod reads;

// The rules.
pub mod back;
pub mod combining;
pub mod past;
pub mod trichotomy;
pub mod undecided;
