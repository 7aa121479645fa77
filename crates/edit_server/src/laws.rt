//! What is promised of the definitions, over all inputs.
ghost use Rattle.edit_server.specs.Laws.{HasOneSummary};

use program_opening::laws::opens_once;

/// A generated program has one summary, and one status.
pub fn has_one_summary()
    ensures { HasOneSummary }
{
    opens_once();
}
