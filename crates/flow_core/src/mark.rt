// Marks: where a formula that is to be shown stands, and why it is to be shown.
use bv_base::place::Place;

/// Why a formula is to be shown.
#[derive(Clone, Copy, PartialEq, Eq, Debug)]
pub enum GoalKind {
    /// An `assert` says it.
    Assert,
    /// It is an invariant where its loop is first reached.
    InvariantEntry,
    /// It is an invariant where its loop is reached again.
    InvariantKept,
    /// It is what a called procedure requires: of its checked `requires`, the one of this number,
    /// from 1.
    Requires(u64),
    /// The procedure ensures it where it ends.
    Ensures,
    /// It is false, and shows that the point of this number is never reached.
    Point(u64),
}

/// What a failure of a formula is known by.
#[derive(Clone, Copy, PartialEq, Eq, Debug)]
pub struct Mark {
    /// Where the clause stands in its declaration.
    pub place: Place,
    /// Why it is to be shown.
    pub kind: GoalKind,
}
