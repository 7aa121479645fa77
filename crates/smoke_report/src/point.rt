// Points.
use flow_core::Mark;

/// Which of a procedure's lists ends there.
#[derive(Clone, Copy, PartialEq, Eq, Debug)]
pub enum PointKind {
    /// The branch of this number, from 1, of an `if` with the `else if`s that follow it.
    Branch(u64),
    /// The `else` behind these branches.
    Else,
    /// The body of a loop.
    Loop,
    /// The whole body.
    End,
}

/// A point: the mark of an assertion there, and which list ends there.
#[derive(Clone, Copy, PartialEq, Eq, Debug)]
pub struct Point {
    pub mark: Mark,
    pub kind: PointKind,
}
