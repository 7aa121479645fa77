// What the tuples of a trigger are. The function does nothing; its contract is a law.
ghost use Rattle.quantifier_triggers.specs.MatchLaws.{TuplesHaveSorts};

/// A tuple has a closed, well-sorted term for each variable, of the variable's sort.
pub fn tuples_have_sorts()
    ensures { TuplesHaveSorts }
{}
