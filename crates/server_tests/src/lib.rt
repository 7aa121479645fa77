//! Tests of the server: of reads and lines, of the lock, of caches, boards and workers, of the program's words, and of
//! whole runs, in a crate of their own, so that the crates that they test are proved once.
#![tactic(auto)]

#[cfg(test)]
mod tests;
