//! What accepted proofs of goals show. Each function does nothing; its contract is a law.
ghost use Rattle.vc_build.specs.Proved.{GoalsAreSorted, ProvedGoalsAreValid};

use crate::laws::sequents_are_sorted;
use bpl_goto::laws::{remove_gotos_keeps_failures, remove_gotos_stays_typed};
use obligation_text::laws::canonical_keeps;
use proof_core::soundness::acceptance_is_sound;
use quantifier_triggers::obligations_are_kept;

/// In a typed module whose labels are distinct and whose gotos go forward, the goals of each procedure
/// are well-sorted obligations.
pub fn goals_are_sorted()
    ensures { GoalsAreSorted }
{
    sequents_are_sorted();
    remove_gotos_stays_typed();
    remove_gotos_keeps_failures();
    obligations_are_kept();
    canonical_keeps();
}

/// There, where each goal of a procedure has an accepted proof, each is valid.
pub fn proved_goals_are_valid()
    ensures { ProvedGoalsAreValid }
{
    acceptance_is_sound();
    goals_are_sorted();
}
