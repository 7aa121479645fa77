// A proof by every rule, which is accepted, and one that isn't; copies and other numbers; triggers.
mod axioms;
mod build;
mod obligations;
mod proofs;
mod terms;
mod triggers;
