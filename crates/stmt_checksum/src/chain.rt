// The chain over a procedure's lines, and where a goal's checksum stands in it.
ghost use Rattle.std.specs.Prelude.{◌≡◌, ◌++◌, map, IfOk};
ghost use Rattle.bpl_scopes.specs.Scopes.{table_of};
ghost use Rattle.stmt_checksum.specs.Chain.{same_place, is_ensures, with_parts, chain_lines, first_sum, links, last_sum, sum_at, goal_sum};
ghost use Rattle.stmt_checksum.specs.PartsView.{parts_seen};

use crate::digests::digest;
use crate::lines::Leads;
use crate::parts::Part;
use crate::texts::{procedure_lines, procedure_parts};
use bpl_ast::{Decl, Place};
use bpl_model::{GoalKind, Mark};
use std::alloc::{AllocError, Global};

/// The place of what may be asserted in a line, and the chain after the line.
#[derive(Clone, Copy)]
pub struct Link {
    pub place: Option<Place>,
    pub sum: [u8; 32],
}

// The chain before the first line.
fn first_sum() -> [u8; 32]
    ensures { result ≡ first_sum }
{
    digest(&[])
}

// The chain after each line.
fn chain(
    alloc: Global,
    leads: &Leads<'_, '_>,
    lines: &[Vec<u8>],
    parts: &[Part<'_>],
) -> Result<Vec<Link>, AllocError>
    ensures { IfOk result (λ v. v.items ≡ links leads.now.links first_sum (with_parts leads.now.links leads.now.table (map (λ l. l.items) lines.now) (parts_seen parts.now))) }
{
    let mut sum = first_sum();
    let mut found = Vec::new(alloc);
    for i in 0..lines.len().min(parts.len()) {
        let part = &parts[i];
        sum = leads.next(alloc, &sum, &lines[i], part)?;
        found.push(Link {
            place: part.place,
            sum,
        })?;
    }
    Ok(found)
}

/// The chain over the lines of the procedure of this name, and of its implementation behind them.
pub fn procedure_chain(
    alloc: Global,
    leads: &Leads<'_, '_>,
    decls: &[Decl],
    name: &[u8],
) -> Result<Vec<Link>, AllocError>
    requires { leads.now.table ≡ table_of decls.now }
    ensures { IfOk result (λ v. v.items ≡ links leads.now.links first_sum (chain_lines leads.now.links decls.now name.now)) }
{
    let lines = procedure_lines(alloc, decls, name)?;
    let parts = procedure_parts(alloc, decls, name)?;
    chain(alloc, leads, &lines, &parts)
}

// Whether the places are the same.
fn is_same_place(place: Place, other: Option<Place>) -> bool
    ensures { result ≡ same_place place other }
{
    match other {
        Some(other) => place.line == other.line && place.col == other.col,
        None => false,
    }
}

// The chain after the last line.
fn last_sum(links: &[Link]) -> [u8; 32]
    ensures { result ≡ last_sum first_sum links.now }
{
    let mut sum = first_sum();
    for link in links {
        sum = link.sum;
    }
    sum
}

// The chain after the first line with this place.
fn sum_at(links: &[Link], place: Place) -> [u8; 32]
    ensures { result ≡ sum_at place first_sum links.now }
{
    let mut sum = first_sum();
    for link in links {
        sum = link.sum;
        if is_same_place(place, link.place) {
            return sum;
        }
    }
    sum
}

// Whether the goal is of an ensures.
fn is_ensures(kind: GoalKind) -> bool
    ensures { result ≡ is_ensures kind }
{
    match kind {
        GoalKind::Ensures => true,
        GoalKind::Assert
        | GoalKind::InvariantEntry
        | GoalKind::InvariantKept
        | GoalKind::Requires(_)
        | GoalKind::Point(_) => false,
    }
}

/// The checksum of the goal with this mark: the chain after its statement's line.
pub fn goal_sum(links: &[Link], mark: &Mark) -> [u8; 32]
    ensures { result ≡ goal_sum links.now mark.now }
{
    if is_ensures(mark.kind) {
        last_sum(links)
    } else {
        sum_at(links, mark.place)
    }
}
