// Blocks cut.
ghost use Rattle.std.specs.Prelude.{◌≡◌, ◌++◌, IfOk, OnOk, nat_lt, filter};
ghost use Rattle.loop_cut.specs.Cut.{cut_block};

use crate::invariants::{push_at_head, push_before_edges};
use flow_core::{Block, Command};
use logic_core::Sequence;
use std::alloc::{AllocError, Global};

/// A block cut: at a head its targets take any values with which the invariants hold, before the
/// edges the invariants of their heads are read, and edges back are left out.
pub fn cut_block(
    alloc: Global,
    blocks: &[Block],
    b: u64,
    block: &Block,
) -> Result<Block, AllocError>
    ensures { IfOk result (λ k. k ≡ cut_block blocks.now b block.now) }
{
    let next = block.next.as_slice();
    let mut commands = Vec::new(alloc);
    push_at_head(alloc, &block.head, &mut commands)?;
    push_copies(alloc, block.commands.as_slice(), &mut commands)?;
    push_before_edges(alloc, blocks, b, next, &mut commands)?;
    Ok(Block {
        commands: Sequence::of(commands),
        next: rising_edges(alloc, b, next)?,
        head: None,
    })
}

fn push_copies(
    alloc: Global,
    commands: &[Command],
    copies: &mut Vec<Command>,
) -> Result<(), AllocError>
    ensures { OnOk result (copies.new.items ≡ copies.old.items ++ commands.now) }
{
    for command in commands {
        copies.push(command.copy(alloc)?)?;
    }
    Ok(())
}

// The edges of block `b` that go to a higher number.
fn rising_edges(alloc: Global, b: u64, next: &[u64]) -> Result<Sequence<u64>, AllocError>
    ensures { IfOk result (λ s. s ≡ filter (nat_lt b) next.now) }
{
    let mut kept = Vec::new(alloc);
    for c in next {
        if b < *c {
            kept.push(*c)?;
        }
    }
    Ok(Sequence::of(kept))
}
