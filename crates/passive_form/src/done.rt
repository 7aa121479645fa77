// Blocks that are done.
ghost use Rattle.std.specs.Prelude.{◌≡◌, slice_index_or};
ghost use Rattle.passive_form.specs.Incarnations.{incarnation, nothing_done};

use crate::incarnations::Incarnations;
use flow_core::Command;
use logic_core::Sequence;

/// The variables that got a new incarnation where the block's predecessors join, each with it; the
/// formulas; the incarnations at the end.
#[derive(Drop)]
pub struct Done {
    pub joined: Sequence<(u64, u64)>,
    pub commands: Sequence<Command>,
    pub last: Incarnations,
}

/// The incarnation of the variable at the end of the block.
pub fn last_of(done: &[Done], block: u64, variable: u64) -> u64
    ensures { result ≡ incarnation (slice_index_or done.now block nothing_done).last variable }
{
    match done.get(block as usize) {
        Some(done) => done.last.of(variable),
        None => variable,
    }
}
