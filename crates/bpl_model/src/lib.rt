//! Typed modules of Boogie, the variables of their procedures, and what their executions are (Leino,
//! This is Boogie 2, 2008; Barnett and Leino, Weakest-precondition of unstructured programs, 2005).
//! Contracts see modules and statements as the data of `specs/`.
#![tactic(auto)]

// Modules, from names up.
pub mod decl;
pub mod module;
pub mod name;
pub mod proc;
pub mod spec;
pub mod stmt;

// The variables of procedures, by number.
pub mod variables;

// Numbers.
pub mod number;

// What a procedure's names reach, from sets of names up.
pub mod declarations;
pub mod links;
mod marking;
mod mentions;
pub mod name_set;
pub mod reach;
mod walk;

// Copies.
pub mod copy_decls;
pub mod copy_module;
pub mod copy_stmts;

pub use bv_base::place::Place;
pub use decl::{Const, Function, Global, Local};
pub use flow_core::{GoalKind, Invariant, Mark};
pub use links::Links;
pub use module::{DeclText, DeclaredProc, Module, Parts};
pub use name::Name;
pub use proc::Proc;
pub use spec::{Spec, SpecForm};
pub use stmt::{Stmt, StmtForm};
pub use variables::Variables;
