// Flags of entries: an entry has the flag where it always has it, or an edge leads to one that has it.
// Each takes its flag behind one that gives it, and then one round over all shows that these are the
// flags.
ghost use Rattle.std.specs.Prelude.{◌≡◌, IfOk, IsTrue, length, []};
ghost use Rattle.bpl_dependencies.specs.Reach.{edges_seen};
ghost use Rattle.bpl_dependencies.specs.Rounds.{flag_of, row, leads_on, round_of, rounds_of, put_flag, IsUnder, has_edge, edges_into, comes_back};

use crate::walk::reached_order;
use std::alloc::{AllocError, Global};

// Whether the entry has the flag.
fn is_set(flags: &[bool], at: usize) -> bool
    ensures { result ≡ flag_of flags.now at }
{
    match flags.get(at) {
        Some(flag) => *flag,
        None => false,
    }
}

/// The edges of the entry at a position.
pub(crate) fn row(edges: &[Vec<usize>], at: usize) -> &[usize]
    ensures { result.now ≡ row (edges_seen edges.now) at }
{
    match edges.get(at) {
        Some(found) => found,
        None => &[],
    }
}

fn leads_on(edges: &[usize], flags: &[bool]) -> bool
    ensures { result ≡ leads_on edges.now flags.now }
{
    for edge in edges {
        if is_set(flags, *edge) {
            return true;
        }
    }
    false
}

fn round(
    alloc: Global,
    base: &[bool],
    edges: &[Vec<usize>],
    flags: &[bool],
) -> Result<Vec<bool>, AllocError>
    ensures { IfOk result (λ v. v.items ≡ round_of base.now (edges_seen edges.now) flags.now) }
{
    let mut next = Vec::new(alloc);
    let mut rest = edges;
    for flag in base {
        match rest.split_first() {
            Some((first, others)) => {
                next.push(*flag || leads_on(first, flags))?;
                rest = others;
            }
            None => return Ok(next),
        }
    }
    Ok(next)
}

fn are_same(mine: &[bool], others: &[bool]) -> bool
    ensures { IsTrue result → mine.now ≡ others.now }
{
    if mine.len() != others.len() {
        return false;
    }
    for i in 0..mine.len() {
        if mine[i] != others[i] {
            return false;
        }
    }
    true
}

// Whether the entry has the flag after a round.
#[tactic(auto, using(crate::proofs::InOrder::round_there, crate::proofs::InOrder::past_edges, crate::proofs::InOrder::past_base))]
fn is_next(base: &[bool], edges: &[Vec<usize>], flags: &[bool], at: usize) -> bool
    ensures { result ≡ flag_of (round_of base.now (edges_seen edges.now) flags.now) at }
{
    if at >= edges.len() {
        return false;
    }
    if at >= base.len() {
        return false;
    }
    is_set(base, at) || leads_on(row(edges, at), flags)
}

// The entry takes the flag that a round gives it.
fn put_flag(base: &[bool], edges: &[Vec<usize>], flags: &mut Vec<bool>, at: usize)
    ensures { flags.new.items ≡ put_flag base.now (edges_seen edges.now) flags.old.items at }
{
    if is_next(base, edges, flags, at) {
        if at < flags.len() {
            flags[at] = true;
        }
    }
}

// The entries in this order take their flags, each by those so far.
fn put_flags(base: &[bool], edges: &[Vec<usize>], order: &[usize], flags: &mut Vec<bool>)
    requires { IsUnder flags.old.items [] }
    ensures { IsUnder flags.new.items (rounds_of base.now (edges_seen edges.now) (length base.now)) }
{
    for i in 0..base.len() {
        let Some(at) = order.get(i) else {
            return;
        };
        put_flag(base, edges, flags, *at);
    }
}

// Flags of which each is right.
fn flags_in_order(
    alloc: Global,
    base: &[bool],
    edges: &[Vec<usize>],
) -> Result<Vec<bool>, AllocError>
    ensures { IfOk result (λ v. IsUnder v.items (rounds_of base.now (edges_seen edges.now) (length base.now))) }
{
    let order = reached_order(alloc, base, edges)?;
    let mut flags = vec![in alloc; false; base.len()]?;
    put_flags(base, edges, &order, &mut flags);
    Ok(flags)
}

// Whether one round more finds nothing new.
fn are_settled(
    alloc: Global,
    base: &[bool],
    edges: &[Vec<usize>],
    flags: &[bool],
) -> Result<bool, AllocError>
    ensures { IfOk result (λ b. IsTrue b → round_of base.now (edges_seen edges.now) flags.now ≡ flags.now) }
{
    let next = round(alloc, base, edges, flags)?;
    Ok(are_same(&next, flags))
}

// The flags in rounds, each of which follows one edge more, until one finds nothing new.
fn flags_in_rounds(
    alloc: Global,
    base: &[bool],
    edges: &[Vec<usize>],
) -> Result<Vec<bool>, AllocError>
    ensures { IfOk result (λ v. v.items ≡ rounds_of base.now (edges_seen edges.now) (length base.now)) }
{
    let mut flags = Vec::new(alloc);
    for k in 0..base.len() {
        let next = round(alloc, base, edges, &flags)?;
        if are_same(&next, &flags) {
            return Ok(flags);
        }
        flags = next;
    }
    Ok(flags)
}

/// The flags of entries: those that always have it, and those from which edges lead to one of these. The
/// time is that of one walk over the edges.
pub(crate) fn reached(
    alloc: Global,
    base: &[bool],
    edges: &[Vec<usize>],
) -> Result<Vec<bool>, AllocError>
    ensures { IfOk result (λ v. v.items ≡ rounds_of base.now (edges_seen edges.now) (length base.now)) }
{
    let flags = flags_in_order(alloc, base, edges)?;
    if are_settled(alloc, base, edges, &flags)? {
        return Ok(flags);
    }
    flags_in_rounds(alloc, base, edges)
}

// Whether each entry has an edge to that one.
fn edges_into(alloc: Global, edges: &[Vec<usize>], at: usize) -> Result<Vec<bool>, AllocError>
    ensures { IfOk result (λ v. v.items ≡ edges_into (edges_seen edges.now) at) }
{
    let mut flags = Vec::new(alloc);
    for next in edges {
        flags.push(has_edge(next, at))?;
    }
    Ok(flags)
}

#[tactic(auto, unfolding(crate::specs::Rounds::has_edge))]
fn has_edge(edges: &[usize], at: usize) -> bool
    ensures { result ≡ has_edge at edges.now }
{
    edges.contains(&at)
}

/// Whether edges lead from an entry back to it. The time is that of one walk over the edges.
pub(crate) fn comes_back(alloc: Global, edges: &[Vec<usize>], at: usize) -> Result<bool, AllocError>
    ensures { IfOk result (λ b. b ≡ comes_back (edges_seen edges.now) at) }
{
    let into = edges_into(alloc, edges, at)?;
    let reached = reached(alloc, &into, edges)?;
    Ok(is_set(&reached, at))
}
