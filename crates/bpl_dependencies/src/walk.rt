// Walks over the edges of entries. No contract speaks of their orders, since only time rests on them.
use crate::reach::row;
use std::alloc::{AllocError, Global};

// The position of an entry, and whether what it leads to has been visited.
type Visit = (usize, bool);

// Whether an entry is there and seen for the first time. From now on it is seen.
fn is_new(seen: &mut [bool], at: usize) -> bool {
    if at >= seen.len() || seen[at] {
        return false;
    }
    seen[at] = true;
    true
}

// An edge to that entry from each of these, turned round.
fn turn_edges(rows: &mut Vec<Vec<usize>>, edges: &[usize], at: usize) -> Result<(), AllocError> {
    for edge in edges {
        if *edge < rows.len() {
            rows[*edge].push(at)?;
        }
    }
    Ok(())
}

fn no_edges(alloc: Global, count: usize) -> Result<Vec<Vec<usize>>, AllocError> {
    let mut rows = Vec::new(alloc);
    for _row in 0..count {
        rows.push(Vec::new(alloc))?;
    }
    Ok(rows)
}

// For each entry those that lead to it.
fn turned(alloc: Global, edges: &[Vec<usize>]) -> Result<Vec<Vec<usize>>, AllocError> {
    let mut rows = no_edges(alloc, edges.len())?;
    for at in 0..edges.len() {
        turn_edges(&mut rows, row(edges, at), at)?;
    }
    Ok(rows)
}

// Those of the entries that are new come behind the order.
fn push_new(edges: &[usize], seen: &mut [bool], order: &mut Vec<usize>) -> Result<(), AllocError> {
    for edge in edges {
        if is_new(seen, *edge) {
            order.push(*edge)?;
        }
    }
    Ok(())
}

// What the entries from here on in the order lead to comes behind them.
fn follow(
    edges: &[Vec<usize>],
    from: usize,
    seen: &mut [bool],
    order: &mut Vec<usize>,
) -> Result<(), AllocError> {
    for i in from..usize::MAX {
        if i >= order.len() {
            return Ok(());
        }
        let at = order[i];
        push_new(row(edges, at), seen, order)?;
    }
    Ok(())
}

// The entries with a flag.
fn push_flagged(
    flags: &[bool],
    seen: &mut [bool],
    order: &mut Vec<usize>,
) -> Result<(), AllocError> {
    for at in 0..flags.len() {
        if flags[at] {
            push_new(&[at], seen, order)?;
        }
    }
    Ok(())
}

/// The entries with a flag, and those from which edges lead to one of these, each behind one to which
/// it leads.
pub(crate) fn reached_order(
    alloc: Global,
    flags: &[bool],
    edges: &[Vec<usize>],
) -> Result<Vec<usize>, AllocError> {
    let back = turned(alloc, edges)?;
    let mut seen = vec![in alloc; false; edges.len()]?;
    let mut order = Vec::new(alloc);
    push_flagged(flags, &mut seen, &mut order)?;
    follow(&back, 0, &mut seen, &mut order)?;
    Ok(order)
}

// What the entry leads to is to be visited.
fn push_next(edges: &[usize], stack: &mut Vec<Visit>) -> Result<(), AllocError> {
    for edge in edges {
        stack.push((*edge, false))?;
    }
    Ok(())
}

// An entry that is visited first is to be visited again behind those to which it leads; then it stands
// in the order.
fn visit(
    edges: &[Vec<usize>],
    visit: Visit,
    seen: &mut [bool],
    stack: &mut Vec<Visit>,
    order: &mut Vec<usize>,
) -> Result<(), AllocError> {
    let (at, is_behind) = visit;
    if is_behind {
        order.push(at)?;
        return Ok(());
    }
    if !is_new(seen, at) {
        return Ok(());
    }
    stack.push((at, true))?;
    push_next(row(edges, at), stack)
}

fn visit_all(
    edges: &[Vec<usize>],
    seen: &mut [bool],
    stack: &mut Vec<Visit>,
    order: &mut Vec<usize>,
) -> Result<(), AllocError> {
    for _step in 0..u64::MAX {
        let Some(next) = stack.pop() else {
            return Ok(());
        };
        visit(edges, next, seen, stack, order)?;
    }
    Ok(())
}

// The entries in the order in which a walk leaves them: each behind those to which it leads, as far as
// none leads to itself.
fn leaving_order(alloc: Global, edges: &[Vec<usize>]) -> Result<Vec<usize>, AllocError> {
    let mut seen = vec![in alloc; false; edges.len()]?;
    let mut order = Vec::new(alloc);
    let mut stack = Vec::new(alloc);
    for at in 0..edges.len() {
        stack.push((at, false))?;
        visit_all(edges, &mut seen, &mut stack, &mut order)?;
    }
    Ok(order)
}

// The entries from here on in the order take a rank.
fn put_rank(ranks: &mut [usize], order: &[usize], from: usize, rank: usize) {
    for i in from..order.len() {
        let at = order[i];
        if at < ranks.len() {
            ranks[at] = rank;
        }
    }
}

/// Ranks of the entries: entries that lead to each other have one, and other edges lead to higher ones.
/// The last entry that a walk leaves is one of those to which no others lead but they themselves, and
/// so it is with the last of the rest.
pub(crate) fn ranks_by_walks(
    alloc: Global,
    edges: &[Vec<usize>],
) -> Result<Vec<usize>, AllocError> {
    let left = leaving_order(alloc, edges)?;
    let back = turned(alloc, edges)?;
    let mut seen = vec![in alloc; false; edges.len()]?;
    let mut ranks: Vec<usize> = vec![in alloc; 0; edges.len()]?;
    let mut order = Vec::new(alloc);
    for rank in 0..left.len() {
        let before = order.len();
        push_new(&[left[left.len() - 1 - rank]], &mut seen, &mut order)?;
        follow(&back, before, &mut seen, &mut order)?;
        put_rank(&mut ranks, &order, before, rank);
    }
    Ok(ranks)
}
