// The rules of the search.

/// The rules, in the order in which a step tries them.
#[derive(Clone, Copy)]
pub enum Rule {
    /// A fact is false, or of two facts one is the other's Not: the branch is done.
    Close,
    /// An And gives its parts.
    Flatten,
    /// An Exists gives its body, with new variables.
    Skolem,
    /// The left side of an oriented fact becomes its right side in all others.
    Rewrite,
    /// A read of a write at a constant distance is what it reads.
    Back,
    /// A closed call is its definition's body.
    Unfold,
    /// Two linear facts of opposite leads give the sum in which the lead falls away.
    Combine,
    /// A difference is below zero, zero, or above.
    Trichotomy,
    /// An Or, or an equation of truth values, gives a branch for each case.
    Split,
    /// An If's condition holds, or doesn't.
    Condition,
    /// The index of a write is below, at, or above that of the read past it.
    Past,
    /// Two maps that aren't equal are read differently at a new index.
    Differ,
    /// A ForAll gives an instance for terms that its trigger matches.
    Instantiate,
}
