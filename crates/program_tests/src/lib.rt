//! Tests of programs: one procedure on its whole way from statements to the text of an obligation, and
//! a chosen trigger, in a crate of their own, so that the crates that they test are proved once. Beside
//! them the checker computes graphs after loops are cut, and the first faults of small programs.
#![tactic(auto)]

#[cfg(test)]
mod tests;
