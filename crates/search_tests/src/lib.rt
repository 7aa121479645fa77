//! Tests of both searches beside each other: of each goal of programs that were worked out by hand
//! they say the same, which is the verdict that is expected, and find the same proof to the byte. In a
//! crate of their own, so that the crates that they test are proved once.
#![tactic(auto)]

#[cfg(test)]
mod tests;
