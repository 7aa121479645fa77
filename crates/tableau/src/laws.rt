// The laws of the search.
ghost use Rattle.tableau.specs.Search.{FindsAccepted, FindsWhereProved};

/// The proof that the search finds for a well-sorted obligation is accepted.
pub fn finds_accepted()
    ensures { FindsAccepted }
{}

/// The search finds a proof exactly where its verdict is Proved.
pub fn finds_where_proved()
    ensures { FindsWhereProved }
{}
