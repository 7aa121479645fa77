// Whether a pattern matches a term, and what is then found.
ghost use Rattle.std.specs.Prelude.{◌≡◌, IfOk, false, option_map};
ghost use Rattle.logic_core.specs.View.{trees_of};
ghost use Rattle.quantifier_triggers.specs.Match.{as_call, as_read, matched, matched_each, root};

use crate::found::{Found, find_variable};
use logic_core::def::Def;
use logic_core::sort::Sort;
use logic_core::term::{Node, Term};
use std::alloc::{AllocError, Global};

// The root of a map: of a Write that of the map written, and of any other the map itself.
fn root(map: &Term) -> &Term
    ensures { result.now ≡ root map.now }
{
    match &map.node {
        Node::Write(written, _, _) => root(written),
        _ => map,
    }
}

// The map and the index of a Read.
fn as_read(term: &Term) -> Option<(&Term, &Term)>
    ensures { option_map (λ p. (p.0.now, p.1.now)) result ≡ as_read term.now }
{
    match &term.node {
        Node::Read(map, index) => Some((map, index)),
        _ => None,
    }
}

// The number and the arguments of a Call.
fn as_call(term: &Term) -> Option<(u64, &[Term])>
    ensures { option_map (λ p. (p.0, trees_of p.1.now)) result ≡ as_call term.now }
{
    match &term.node {
        Node::Call(number, terms) => Some((*number, terms)),
        _ => None,
    }
}

/// What is found where the pattern matches the term: the roots of the maps read match and the indices,
/// or the parts of two calls of one definition, or the two are equal.
#[cycle(matched)]
pub fn matched(
    alloc: Global,
    vars: &[Sort],
    defs: &[Def],
    kinds: &[Sort],
    pattern: &Term,
    term: &Term,
    found: Found,
) -> Result<Option<Found>, AllocError>
    ensures { IfOk result (λ o. o ≡ matched vars.now defs.now kinds.now false pattern.now term.now found) }
{
    match &pattern.node {
        Node::Bound(number) => find_variable(alloc, vars, defs, kinds, *number, term, found),
        Node::Read(map, index) => {
            let Some((read, at)) = as_read(term) else {
                return Ok(None);
            };
            match matched(alloc, vars, defs, kinds, root(map), root(read), found)? {
                Some(found) => matched(alloc, vars, defs, kinds, index, at, found),
                None => Ok(None),
            }
        }
        Node::Call(number, parts) => {
            let Some((called, terms)) = as_call(term) else {
                return Ok(None);
            };
            if *number != called {
                return Ok(None);
            }
            matched_each(alloc, vars, defs, kinds, parts, terms, found)
        }
        _ => {
            if pattern.equals(term) {
                Ok(Some(found))
            } else {
                Ok(None)
            }
        }
    }
}

// What is found where the patterns match the terms one by one, and are as many.
#[cycle(matched)]
fn matched_each(
    alloc: Global,
    vars: &[Sort],
    defs: &[Def],
    kinds: &[Sort],
    patterns: &[Term],
    terms: &[Term],
    mut found: Found,
) -> Result<Option<Found>, AllocError>
    ensures { IfOk result (λ o. o ≡ matched_each vars.now defs.now kinds.now (trees_of patterns.now) (trees_of terms.now) found) }
{
    let shared = patterns.len().min(terms.len());
    for i in 0..shared {
        match matched(alloc, vars, defs, kinds, &patterns[i], &terms[i], found)? {
            Some(more) => found = more,
            None => return Ok(None),
        }
    }
    if patterns.len() == terms.len() {
        Ok(Some(found))
    } else {
        Ok(None)
    }
}
