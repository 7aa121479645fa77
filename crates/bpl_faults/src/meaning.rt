// What a name means.
use crate::vars::Var;
use bpl_scopes::{Entity, Shape};

/// What a name means in an expression.
#[derive(Clone, Copy)]
pub enum Meaning<'a> {
    /// The bound variable so far out from the innermost, and its sort.
    Bound(u64, Option<Shape>),
    /// A parameter or local.
    Variable(Var<'a>),
    /// What is declared.
    Declared(Entity<'a>),
    /// Nothing.
    Nothing,
}
