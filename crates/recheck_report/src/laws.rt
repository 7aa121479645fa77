//! What the answer is worth, over the definitions alone.
ghost use Rattle.recheck_report.specs.Worth.{OneAnswer, AcceptedExactly, AcceptedIsSafe};

use program_opening::laws::{modules_are_sound, programs_are_sound};
use proof_core::soundness::refuses_the_others;
use proof_text::laws::{one_bad_place, one_proof_a_text_has};
use vc_build::proved_goals::proved_goals_are_valid;

/// Goals and lines have one answer at most.
pub fn one_answer()
    ensures { OneAnswer }
{
    one_proof_a_text_has();
    one_bad_place();
}

/// The answer is `accepted` exactly where the k-th line is the text of an accepted proof of the k-th
/// goal, for each goal.
pub fn accepted_exactly()
    ensures { AcceptedExactly }
{
    one_proof_a_text_has();
    one_bad_place();
}

/// Where the answer on a program is `accepted`, each of its goals is valid, and no execution of a
/// procedure of it, from an entry state, fails.
pub fn accepted_is_safe()
    ensures { AcceptedIsSafe }
{
    refuses_the_others();
    proved_goals_are_valid();
    modules_are_sound();
    programs_are_sound();
}
