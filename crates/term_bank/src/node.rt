// Nodes of terms, whose parts are numbers.
use logic_core::Sort;
use std::marker::Model;

/// The number of a term in a bank.
#[derive(Clone, Copy, PartialEq, Eq, PartialOrd, Ord, Hash)]
pub struct TermId {
    pub number: usize,
}

impl Model for TermId {
    ghost use Rattle.std.specs.Prelude.{ℕ};

    ghost Value = { ℕ };

    ghost view = { λ a. a.number };

    ghost inverse = { λ n. record { number = n } };
}

/// The constructs of terms, as logic_core's `Node`, with a number for each part.
#[derive(Drop)]
pub enum Node {
    /// A number.
    Num(i128),
    /// A truth value.
    Truth(bool),
    /// The signature's variable of this number.
    Free(u64),
    /// A bound variable; 0 is the last variable of the nearest binder.
    Bound(u64),
    /// Atoms times their coefficients, and a constant.
    Sum(Vec<(i128, TermId)>, i128),
    /// A product.
    Mul(TermId, TermId),
    /// What a map holds at an index.
    Read(TermId, TermId),
    /// A map that holds a value at an index, and elsewhere what the first map holds.
    Write(TermId, TermId, TermId),
    /// The second part where the first holds, and else the third.
    If(TermId, TermId, TermId),
    /// The definition of this number, applied to its arguments.
    Call(u64, Vec<TermId>),
    /// A formula denied.
    Not(TermId),
    /// All parts hold; without parts it is true.
    And(Vec<TermId>),
    /// Some part holds; without parts it is false.
    Or(Vec<TermId>),
    /// Two terms of one sort are equal.
    Eq(TermId, TermId),
    /// One integer is at most another.
    Le(TermId, TermId),
    /// The body holds for all values of the sorts; the second part is the triggers.
    ForAll(Vec<Sort>, Vec<Vec<TermId>>, TermId),
    /// The body holds for some values of the sorts; the second part is the triggers.
    Exists(Vec<Sort>, Vec<Vec<TermId>>, TermId),
}
