// Sorts stay.
ghost use Rattle.logic_laws.specs.SortLaws.{NormalKeepsSorts, NegatedKeepsSorts};

/// A normal form has the sort of its term.
pub fn normal_keeps_sorts()
    ensures { NormalKeepsSorts }
{}

/// The normal `Not` of a formula is a formula.
pub fn negated_keeps_sorts()
    ensures { NegatedKeepsSorts }
{}
