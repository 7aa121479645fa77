//! What names stand for, and what they reach. Each function does nothing; its contract is a law.
ghost use Rattle.rebuild_laws.specs.Declared.{SameExpressionsHaveOneTerm, WhatIsReachedIsClosed};
ghost use Rattle.rebuild_laws.specs.SameButForPlaces.{SameProceduresDifferInPlaces};

/// Two expressions that are the same but for their places have one term in a scope.
pub fn same_expressions_have_one_term()
    ensures { SameExpressionsHaveOneTerm }
{}

/// A declaration to which one that a procedure reaches leads on is reached, too: the rounds by which
/// what is reached is found are enough.
pub fn what_is_reached_is_closed()
    ensures { WhatIsReachedIsClosed }
{}

/// Two procedures whose declarations are the same but for places are, elaborated over one table, the
/// same but for places.
pub fn same_procedures_differ_in_places()
    ensures { SameProceduresDifferInPlaces }
{}
