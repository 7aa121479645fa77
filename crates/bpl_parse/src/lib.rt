//! The parser of Boogie (Leino, This is Boogie 2, 2008): a cursor over tokens, one method a production.
//! It gives the program that the grammar's tokens spell, or the first token at which none goes on.
#![tactic(auto)]

mod actions;
mod atoms;
mod attributes;
mod cursor;
mod declarations;
pub mod fault;
mod names;
mod naming;
mod operators;
pub mod program;
mod quantifiers;
mod signatures;
mod spans;
mod statements;
mod stop;
mod types;

pub use fault::Fault;
pub use program::{parse, parse_decls};
