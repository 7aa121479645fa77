//! The trees of Boogie programs: types, expressions, statements and declarations, each with the
//! places in its declaration at which faults and goals point. Contracts see the trees of `specs/`. (The
//! constructs: Leino, This is Boogie 2, 2008.)
#![tactic(auto)]

// The trees, from names up.
pub mod decl;
pub mod expr;
pub mod name;
pub mod numeral;
pub mod stmt;
pub mod types;

// Copies, and what copies share.
pub mod copy_decls;
pub mod copy_exprs;
pub mod copy_names;
pub mod copy_stmts;
pub mod shared_decls;

pub use bv_base::place::{Place, Span};
pub use decl::{Argument, Body, Decl, DeclBody, Program, Signature, Spec, SpecForm};
pub use expr::{Expr, ExprForm, Group, Index, Quantifier, Relation, Term, Trigger, Where};
pub use name::{Name, TypeParams};
pub use numeral::Numeral;
pub use stmt::{Branch, Invariant, Stmt, StmtForm, Target};
pub use types::{Type, TypeForm};
