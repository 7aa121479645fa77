// The grammar's productions for expressions, by which parentheses are decided.
ghost use Rattle.std.specs.Prelude.{◌≡◌};
ghost use Rattle.canonical_text.specs.Level.{rank, is_looser};

/// A production for expressions. Each takes in the ones that come after it.
#[derive(Clone, Copy, Drop)]
pub enum Level {
    Equivalence,
    Implication,
    Junction,
    Comparison,
    Sum,
    Product,
    Unary,
    Postfix,
    Atom,
}

impl Level {
    /// How many productions take this one in.
    fn rank(self) -> usize
        ensures { result ≡ rank self }
    {
        match self {
            Level::Equivalence => 0,
            Level::Implication => 1,
            Level::Junction => 2,
            Level::Comparison => 3,
            Level::Sum => 4,
            Level::Product => 5,
            Level::Unary => 6,
            Level::Postfix => 7,
            Level::Atom => 8,
        }
    }

    /// Whether the production takes in the other one, but not the other way round.
    pub fn is_looser(self, other: Level) -> bool
        ensures { result ≡ is_looser self other }
    {
        self.rank() < other.rank()
    }
}
