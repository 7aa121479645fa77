// Ranks of entries, by which most are seen at once not to lead to themselves: no edge leads to a lower
// rank, so an entry whose edges all lead to higher ones has no way back.
ghost use Rattle.std.specs.Prelude.{◌≡◌, IfOk, IsTrue, nat_lt};
ghost use Rattle.bpl_dependencies.specs.Reach.{edges_seen};
ghost use Rattle.bpl_dependencies.specs.Ranks.{rank_of, falls, NeverFall};

use crate::reach::row;
use crate::walk::ranks_by_walks;
use std::alloc::{AllocError, Global};

/// The rank of an entry.
pub(crate) fn rank_of(ranks: &[usize], at: usize) -> usize
    ensures { result ≡ rank_of ranks.now at }
{
    match ranks.get(at) {
        Some(rank) => *rank,
        None => 0,
    }
}

fn is_lower(ranks: &[usize], at: usize, rank: usize) -> bool
    ensures { result ≡ nat_lt (rank_of ranks.now at) rank }
{
    rank_of(ranks, at) < rank
}

/// Whether an edge leads below a rank.
pub(crate) fn falls(ranks: &[usize], rank: usize, edges: &[usize]) -> bool
    ensures { result ≡ falls ranks.now rank edges.now }
{
    for edge in edges {
        if is_lower(ranks, *edge, rank) {
            return true;
        }
    }
    false
}

// Whether no edge leads below the rank of its entry.
fn never_fall(ranks: &[usize], edges: &[Vec<usize>]) -> bool
    ensures { IsTrue result → NeverFall ranks.now (edges_seen edges.now) }
{
    for i in 0..edges.len() {
        if falls(ranks, rank_of(ranks, i), row(edges, i)) {
            return false;
        }
    }
    true
}

/// Ranks that never fall along an edge. The time is that of two walks over the edges.
pub(crate) fn ranks(alloc: Global, edges: &[Vec<usize>]) -> Result<Vec<usize>, AllocError>
    ensures { IfOk result (λ v. NeverFall v.items (edges_seen edges.now)) }
{
    let ranks = ranks_by_walks(alloc, edges)?;
    if never_fall(&ranks, edges) {
        return Ok(ranks);
    }
    Ok(Vec::new(alloc))
}
