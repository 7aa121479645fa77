// Whether the variables of replaced calls are plain.
ghost use Rattle.std.specs.Prelude.{◌≡◌, [], ◌↔◌, IsTrue};
ghost use Rattle.std.specs.List.{list_any};
ghost use Rattle.logic_core.specs.Subterm.{has};
ghost use Rattle.flow_core.specs.Reading.{is_unset};
ghost use Rattle.flow_core.specs.Plain.{SetsBeforeReading, InvariantsAvoid, OwnsItsCalls, CallsArePlain};

use crate::block::{Block, Invariant, LoopHead};
use crate::command::Command;
use crate::reading::mentions_unset;

/// Whether each block sets a variable from number `own` on before it reads it, and no invariant
/// reads one.
pub fn calls_are_plain(own: u64, blocks: &[Block]) -> bool
    ensures { IsTrue result ↔ CallsArePlain own blocks.now }
{
    for block in blocks {
        if !owns_its_calls(own, block) {
            return false;
        }
    }
    true
}

fn owns_its_calls(own: u64, block: &Block) -> bool
    ensures { IsTrue result ↔ OwnsItsCalls own block.now }
{
    sets_before_reading(own, block.commands.as_slice()) && invariants_avoid(own, &block.head)
}

fn sets_before_reading(own: u64, commands: &[Command]) -> bool
    ensures { IsTrue result ↔ SetsBeforeReading own commands.now }
{
    for (i, command) in commands.iter().enumerate() {
        if command.reads_unset(own, &commands[..i]) {
            return false;
        }
    }
    true
}

fn invariants_avoid(own: u64, head: &Option<LoopHead>) -> bool
    ensures { IsTrue result ↔ InvariantsAvoid own head.now }
{
    match head {
        None => true,
        Some(head) => !any_invariant_mentions(own, head.invariants.as_slice()),
    }
}

// Whether one of the invariants mentions a variable from number `own` on.
fn any_invariant_mentions(own: u64, invariants: &[Invariant]) -> bool
    ensures { result ≡ list_any (λ i. has (is_unset own []) i.formula) invariants.now }
{
    invariants
        .iter()
        .any(|invariant| mentions_unset(&invariant.formula, own, &[]))
}
