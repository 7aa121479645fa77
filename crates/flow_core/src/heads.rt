// Whether the heads of loops are plain.
ghost use Rattle.std.specs.Prelude.{◌↔◌, ℕ, IsTrue};
ghost use Rattle.flow_core.specs.Graph.{Edge};
ghost use Rattle.flow_core.specs.Plain.{Branches, HeadIsPlain, HeadsArePlain};

use crate::block::Block;
use crate::edges::entry_limit;

/// Whether an edge goes back to each head, none is block 0, and none is a successor of a block with
/// several edges.
pub fn heads_are_plain(blocks: &[Block]) -> bool
    ensures { IsTrue result ↔ HeadsArePlain blocks.now }
{
    for (h, block) in blocks.iter().enumerate() {
        if block.head.is_some() && !head_is_plain(blocks, h as u64) {
            return false;
        }
    }
    true
}

fn head_is_plain(blocks: &[Block], head: u64) -> bool
    ensures { IsTrue result ↔ HeadIsPlain blocks.now head }
{
    head != 0 && head < entry_limit(blocks, head) && !is_branched_to(blocks, head)
}

// Whether a block with several edges has one to this block.
fn is_branched_to(blocks: &[Block], target: u64) -> bool
    ensures { IsTrue result ↔ ((b : ℕ) × Edge blocks.now b target × Branches blocks.now b) }
{
    for block in blocks {
        if block.next.len() > 1 && block.leads_to(target) {
            return true;
        }
    }
    false
}
