// Whether the blocks with several edges are plain.
ghost use Rattle.std.specs.Prelude.{◌↔◌, ℕ, ◌≢◌, ◌<◌, IsTrue, length};
ghost use Rattle.flow_core.specs.Graph.{Edge};
ghost use Rattle.flow_core.specs.Plain.{IsOnlyEdge, BranchesArePlain};

use crate::block::Block;

/// Whether each block with several edges is the only predecessor, by one edge, of each of its
/// successors.
pub fn branches_are_plain(blocks: &[Block]) -> bool
    ensures { IsTrue result ↔ BranchesArePlain blocks.now }
{
    for (b, block) in blocks.iter().enumerate() {
        if block.next.len() > 1 && !has_only_edges(blocks, b) {
            return false;
        }
    }
    true
}

fn has_only_edges(blocks: &[Block], b: usize) -> bool
    requires { b < length blocks.now }
    ensures { IsTrue result ↔ ((c : ℕ) → Edge blocks.now b c → IsOnlyEdge blocks.now b c) }
{
    for c in blocks[b].next.as_slice() {
        if !is_only_edge(blocks, b, *c) {
            return false;
        }
    }
    true
}

fn is_only_edge(blocks: &[Block], b: usize, c: u64) -> bool
    requires { b < length blocks.now }
    ensures { IsTrue result ↔ IsOnlyEdge blocks.now b c }
{
    blocks[b].edges_to(c) == 1 && !has_other_predecessor(blocks, b, c)
}

// Whether another block than `b` has an edge to `c`.
fn has_other_predecessor(blocks: &[Block], b: usize, c: u64) -> bool
    ensures { IsTrue result ↔ ((a : ℕ) × (a ≢ b) × Edge blocks.now a c) }
{
    for (a, block) in blocks.iter().enumerate() {
        if a != b && block.leads_to(c) {
            return true;
        }
    }
    false
}
