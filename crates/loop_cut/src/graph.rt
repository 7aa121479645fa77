// Graphs cut.
ghost use Rattle.std.specs.Prelude.{◌≡◌, IfOk};
ghost use Rattle.flow_core.specs.Plain.{IsRising};
ghost use Rattle.loop_cut.specs.Cut.{cut, cut_from};

use crate::block::cut_block;
use flow_core::{Block, Graph};
use logic_core::Sequence;
use std::alloc::{AllocError, Global};

/// The graph with its loops cut by their invariants. Every edge goes to a higher number; `laws` says
/// what becomes of failing runs.
///
/// An error is want of memory.
pub fn cut(alloc: Global, graph: &Graph) -> Result<Graph, AllocError>
    ensures exact { IfOk result (λ c. c ≡ cut graph.now) }
    ensures rising { IfOk result (λ c. IsRising c.blocks) }
{
    let blocks = cut_blocks(alloc, graph.blocks())?;
    let olds = Sequence::of(Vec::from_slice(alloc, graph.olds())?);
    Ok(Graph::new(blocks, graph.own(), olds))
}

fn cut_blocks(alloc: Global, blocks: &[Block]) -> Result<Sequence<Block>, AllocError>
    ensures { IfOk result (λ s. s ≡ cut_from blocks.now 0 blocks.now) }
{
    let mut cuts = Vec::new(alloc);
    for (b, block) in blocks.iter().enumerate() {
        cuts.push(cut_block(alloc, blocks, b as u64, block)?)?;
    }
    Ok(Sequence::of(cuts))
}
