//! What is promised of the definitions, over all inputs.
ghost use Rattle.text_answers.specs.Laws.{HasOneAnswer};

use program_opening::laws::opens_once;
use recheck_report::laws::one_answer;

/// An input has one answer, and one status.
pub fn has_one_answer()
    ensures { HasOneAnswer }
{
    opens_once();
    one_answer();
}
