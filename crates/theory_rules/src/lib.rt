//! The rules of the search for integers, maps and conditions, defined: back, combine, trichotomy, condition,
//! past and differ. Those that are rarely tried, condition and differ, are written here: a rule gives the
//! branch back as it was, exactly where it can't be applied, or the move that its definition gives.
#![tactic(auto)]

pub mod condition;
pub mod counting;
pub mod differ;
