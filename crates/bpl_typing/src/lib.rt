//! Whether the parts of a module are a typed module's: the definition of what a module keeps, as a
//! test. The program's own modules are typed by what it proves of them, and need no test.
#![tactic(auto)]

mod parts;
mod procedures;
mod statements;
mod terms;

pub use parts::is_typed;
