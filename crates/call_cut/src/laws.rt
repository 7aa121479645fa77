//! What the replacement of calls keeps. The function does nothing; its contract is a law.
ghost use Rattle.call_cut.specs.Kept.{CutCallsKeepsFailures};

/// Of a procedure of a typed module in which no goto stands, each failing execution has a failing
/// execution of the procedure without calls, with the same mark and from an entry state of the same
/// world; and no call is left.
pub fn cut_calls_keeps_failures()
    ensures { CutCallsKeepsFailures }
{}
