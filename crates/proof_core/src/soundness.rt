// The rules are sound, and an accepted proof shows that its goal is valid.
ghost use Rattle.proof_core.specs.Soundness.{CloseIsSound, SplitIsSound, CasesAreSound, ConditionIsSound, InstantiateIsSound, SkolemIsSound, ReplaceIsSound, UnfoldIsSound, BackIsSound, PastIsSound, DifferIsSound, CombineIsSound, TightenIsSound, TrichotomyIsSound, StartIsSound, AcceptanceIsSound};
ghost use Rattle.proof_core.specs.Verdict.{RefusesTheOthers};

/// Close: facts of which one is the Not of another don't all hold, nor does a fact that is false.
pub fn close_is_sound()
    ensures { CloseIsSound }
{}

/// Split of an And: its parts are formulas that hold where it holds.
pub fn split_is_sound()
    ensures { SplitIsSound }
{}

/// Split of an Or, of an Eq of Bool or of the Not of one: where the facts can't hold with any one
/// of its cases, they don't hold.
pub fn cases_are_sound()
    ensures { CasesAreSound }
{}

/// Split by the condition of an If: where the facts can hold neither with it nor with its Not, they
/// don't hold.
pub fn condition_is_sound()
    ensures { ConditionIsSound }
{}

/// Instantiate: where a ForAll holds, so does its body with terms of its sorts.
pub fn instantiate_is_sound()
    ensures { InstantiateIsSound }
{}

/// Skolem: where an Exists holds, so does its body for some values of new variables.
pub fn skolem_is_sound()
    ensures { SkolemIsSound }
{}

/// Replace: where both facts hold, so does the first with the term replaced.
pub fn replace_is_sound()
    ensures { ReplaceIsSound }
{}

/// Unfold: a call may be replaced by its definition's body.
pub fn unfold_is_sound()
    ensures { UnfoldIsSound }
{}

/// Back: a Read of a Write at a constant distance may be replaced by what it reads.
pub fn back_is_sound()
    ensures { BackIsSound }
{}

/// Past: a Read of a Write reads what was written, or what stood there before, by the order of the
/// two indices.
pub fn past_is_sound()
    ensures { PastIsSound }
{}

/// Differ: maps that aren't equal differ at some index.
pub fn differ_is_sound()
    ensures { DifferIsSound }
{}

/// Combine: where two linear facts hold, so does the sum of multiples of them.
pub fn combine_is_sound()
    ensures { CombineIsSound }
{}

/// Tighten: a linear fact of integers holds where its tightened form does.
pub fn tighten_is_sound()
    ensures { TightenIsSound }
{}

/// Trichotomy: an integer is below, at or above zero.
pub fn trichotomy_is_sound()
    ensures { TrichotomyIsSound }
{}

/// The start: where the axioms can't hold with the Not of the goal, the goal is valid.
pub fn start_is_sound()
    ensures { StartIsSound }
{}

/// An accepted proof of a well-sorted obligation shows that the obligation is valid.
pub fn acceptance_is_sound()
    ensures { AcceptanceIsSound }
{}

/// The verdict refuses no node exactly where the proof is accepted.
pub fn refuses_the_others()
    ensures { RefusesTheOthers }
{}
