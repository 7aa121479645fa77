// What holds of chosen triggers.
ghost use Rattle.quantifier_triggers.specs.Kept.{ChosenTriggersMeetTheRules, LeftOutOnlyUncovered, ObligationsAreKept};

/// Each pattern of a chosen trigger is a read or an application of a plain function, built of reads, applications,
/// variables and literals, and together they mention all variables of the quantifier.
pub fn chosen_triggers_meet_the_rules()
    ensures { ChosenTriggersMeetTheRules }
{}

/// A quantifier is left without a trigger exactly where it had none and its candidates together don't mention all its
/// variables.
pub fn left_out_only_uncovered()
    ensures { LeftOutOnlyUncovered }
{}

/// An obligation with chosen triggers is well sorted where it was, and valid only where it was.
pub fn obligations_are_kept()
    ensures { ObligationsAreKept }
{}
