//! What the goals promise, over all modules. Each function does nothing; its contract is a law.
ghost use Rattle.vc_build.specs.Sound.{SequentsAreSorted, FailuresHaveGoalsByPasses, FailuresHaveGoals, ValidGoalsAreSafe};

use loop_cut::laws::cut_keeps_failures;

/// In a typed module, of a procedure without gotos: the equations of its assertions, beside the axioms
/// that its names reach, are well-sorted obligations.
pub fn sequents_are_sorted()
    ensures { SequentsAreSorted }
{
    cut_keeps_failures();
}

/// There, where an execution of the procedure from an entry state fails with a mark, some goal of the
/// procedure with that mark isn't valid.
pub fn failures_have_goals_by_passes()
    ensures { FailuresHaveGoalsByPasses }
{
    cut_keeps_failures();
}

/// In a typed module whose labels are distinct and whose gotos go forward: where an execution of a
/// procedure from an entry state fails with a mark, some goal of the procedure, its gotos removed, with
/// that mark isn't valid.
pub fn failures_have_goals()
    ensures { FailuresHaveGoals }
{
    failures_have_goals_by_passes();
}

/// There, where all goals of a procedure are valid, no execution of it from an entry state fails.
pub fn valid_goals_are_safe()
    ensures { ValidGoalsAreSafe }
{
    failures_have_goals();
}
