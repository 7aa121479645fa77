// Whether a pattern matches a term, and what is then found.
ghost use Rattle.std.specs.Prelude.{◌≡◌, ◌<◌, ◌≤◌, false, length, option_map, IfOk, IfSome, OnOk};
ghost use Rattle.std.specs.List.{AllByRecursion};
ghost use Rattle.logic_core.specs.View.{trees_of};
ghost use Rattle.logic_core.specs.Wide.{when};
ghost use Rattle.term_bank.specs.Numbered.{at};
ghost use Rattle.term_bank.specs.Node.{tree_over, numbers_in};
ghost use Rattle.quantifier_triggers.specs.Match.{as_call, as_read, matched, matched_each, root};
ghost use Rattle.numbered_terms.specs.Lists.{terms_at};
ghost use Rattle.numbered_instances.specs.Finding.{found_at, IsFoundBelow};

use crate::found::find_variable;
use logic_core::{Def, Sort};
use numbered_terms::Terms;
use std::alloc::AllocError;
use term_bank::{Node, TermId};

// The root of a map: of a Write that of the map written, and of any other the map itself.
fn root(terms: &Terms, map: TermId) -> TermId
    requires { map < length terms.now }
    ensures is { at terms.now result ≡ root (at terms.now map) }
    ensures lower { result ≤ map }
{
    match terms.node(map) {
        Node::Write(written, _, _) => root(terms, *written),
        _ => map,
    }
}

// The map and the index of a Read.
fn as_read(terms: &Terms, node: &Node) -> Option<(TermId, TermId)>
    requires { AllByRecursion (λ j. j < length terms.now) (numbers_in node.now) }
    ensures is { option_map (λ p. (at terms.now p.0, at terms.now p.1)) result ≡ as_read (tree_over (at terms.now) node.now) }
    ensures map { IfSome result (λ p. p.0 < length terms.now) }
    ensures index { IfSome result (λ p. p.1 < length terms.now) }
{
    match node {
        Node::Read(map, index) => Some((*map, *index)),
        _ => None,
    }
}

// The number and the arguments of a Call.
fn as_call<'n>(terms: &Terms, node: &'n Node) -> Option<(u64, &'n [TermId])>
    requires { AllByRecursion (λ j. j < length terms.now) (numbers_in node.now) }
    ensures is { option_map (λ p. (p.0, trees_of (terms_at terms.now p.1.now))) result ≡ as_call (tree_over (at terms.now) node.now) }
    ensures within { IfSome result (λ p. AllByRecursion (λ j. j < length terms.now) p.1.now) }
{
    match node {
        Node::Call(number, args) => Some((*number, args)),
        _ => None,
    }
}

/// Whether the pattern matches the term, and what is found then: the roots of the maps read match and
/// the indices, or the parts of two calls of one definition, or the two are one.
#[cycle(matched)]
pub fn matched(
    terms: &Terms,
    vars: &[Sort],
    defs: &[Def],
    kinds: &[Sort],
    pattern: TermId,
    term: TermId,
    found: &mut Vec<Option<TermId>>,
) -> Result<bool, AllocError>
    requires pattern { pattern < length terms.now }
    requires term { term < length terms.now }
    requires within { IsFoundBelow (length terms.now) found.old.items }
    ensures gives { IfOk result (λ b. matched vars.now defs.now kinds.now false (at terms.now pattern) (at terms.now term) (found_at terms.now found.old.items) ≡ when b (Some (found_at terms.now found.new.items))) }
    ensures within { OnOk result (IsFoundBelow (length terms.now) found.new.items) }
{
    match terms.node(pattern) {
        Node::Bound(number) => find_variable(terms, vars, defs, kinds, *number, term, found),
        Node::Read(map, index) => {
            let Some((read, at)) = as_read(terms, terms.node(term)) else {
                return Ok(false);
            };
            let map = root(terms, *map);
            let read = root(terms, read);
            let meets = matched(terms, vars, defs, kinds, map, read, found)?;
            if meets {
                return matched(terms, vars, defs, kinds, *index, at, found);
            }
            Ok(false)
        }
        Node::Call(number, parts) => {
            let Some((called, args)) = as_call(terms, terms.node(term)) else {
                return Ok(false);
            };
            if *number != called {
                return Ok(false);
            }
            matched_each(terms, vars, defs, kinds, pattern.number, parts, args, found)
        }
        _ => Ok(terms.is_same(pattern, term)),
    }
}

// The same of patterns, one by one, and as many terms.
#[cycle(matched)]
fn matched_each(
    terms: &Terms,
    vars: &[Sort],
    defs: &[Def],
    kinds: &[Sort],
    below: usize,
    patterns: &[TermId],
    args: &[TermId],
    found: &mut Vec<Option<TermId>>,
) -> Result<bool, AllocError>
    requires below { below ≤ length terms.now }
    requires patterns { AllByRecursion (λ j. j < below) patterns.now }
    requires args { AllByRecursion (λ j. j < length terms.now) args.now }
    requires within { IsFoundBelow (length terms.now) found.old.items }
    ensures gives { IfOk result (λ b. matched_each vars.now defs.now kinds.now (trees_of (terms_at terms.now patterns.now)) (trees_of (terms_at terms.now args.now)) (found_at terms.now found.old.items) ≡ when b (Some (found_at terms.now found.new.items))) }
    ensures within { OnOk result (IsFoundBelow (length terms.now) found.new.items) }
{
    let shared = patterns.len().min(args.len());
    for i in 0..shared {
        if !matched(terms, vars, defs, kinds, patterns[i], args[i], found)? {
            return Ok(false);
        }
    }
    Ok(patterns.len() == args.len())
}
