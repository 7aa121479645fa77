//! Calls of the crates of logic, which are to succeed: what their contracts leave open is whether
//! they answer at all where there is memory. What they answer is proved, so these tests are few, and
//! stand in a crate of their own, so that the crates of logic are proved once.
#![tactic(auto)]

#[cfg(test)]
mod tests;
