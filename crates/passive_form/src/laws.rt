//! What the passive form keeps, over all graphs.
ghost use Rattle.passive_form.specs.Kept.{PassifyKeepsFailures};

/// Where a graph rises and is plain, its edges name blocks that are there, its terms are well sorted
/// and its pairs are of one sort, each failing run has an assignment of incarnations: each
/// variable's first incarnation has the value that the variable has where the run begins, and along
/// the run's path every formula before the failed one holds, and the failed one doesn't.
pub fn passify_keeps_failures()
    ensures { PassifyKeepsFailures }
{}
