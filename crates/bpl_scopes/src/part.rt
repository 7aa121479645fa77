// Where expressions stand, and what parameters and locals are.

/// Where an expression stands; the last four are the where clauses of a global, an in-parameter,
/// an out-parameter and a local.
#[derive(Clone, Copy)]
pub enum Part {
    Axiom,
    Function,
    Requires,
    Ensures,
    Body,
    ClauseOfGlobal,
    ClauseOfIn,
    ClauseOfOut,
    ClauseOfLocal,
}

/// What a variable of a procedure is.
#[derive(Clone, Copy)]
pub enum Role {
    In,
    Out,
    Local,
}
