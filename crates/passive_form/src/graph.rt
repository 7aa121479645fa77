// The passive form of a graph.
ghost use Rattle.std.specs.Prelude.{◌≡◌, IfOk};
ghost use Rattle.passive_form.specs.Incarnations.{passify};

use crate::blocks::{do_blocks, passive_block};
use crate::passive::Passive;
use flow_core::Graph;
use logic_core::{Sequence, Sort};
use std::alloc::{AllocError, Global};

/// The passive form of the graph, over variables of these sorts. A variable begins with its own
/// number, and an entry value with its global's. Each assignment and havoc makes new incarnations,
/// and so does a block whose predecessors disagree on a variable; a block without predecessor reads
/// first incarnations. The edges stay.
pub fn passify(alloc: Global, graph: &Graph, vars: &[Sort]) -> Result<Passive, AllocError>
    ensures { IfOk result (λ p. p ≡ passify graph.now vars.now) }
{
    let done = do_blocks(alloc, graph, vars)?;
    let mut blocks = Vec::new(alloc);
    for number in 0..graph.blocks().len() as u64 {
        let block = passive_block(alloc, graph, done.blocks.as_slice(), number)?;
        blocks.push(block)?;
    }
    Ok(Passive {
        blocks: Sequence::of(blocks),
        vars: done.sorts,
    })
}
