// A binder taken away, by number: closed terms stand for its variables in its body.
ghost use Rattle.std.specs.Prelude.{◌≡◌, ◌<◌, ◌≤◌, ◌+◌, None, nat_le, length, IfOk, OnOk};
ghost use Rattle.std.specs.List.{AllByRecursion};
ghost use Rattle.logic_core.specs.Substitute.{bound_within, put_within, substitute};
ghost use Rattle.term_bank.specs.Numbered.{at, Begins};
ghost use Rattle.term_bank.specs.Node.{numbers_in};
ghost use Rattle.term_bank.specs.Table.{IsNodeAt};
ghost use Rattle.term_bank.specs.declared.node.Node.{Node};
ghost use Rattle.numbered_terms.specs.At.{IsAt};
ghost use Rattle.numbered_terms.specs.Reach.{reach};
ghost use Rattle.numbered_forms.specs.Binders.{as_bound, binders};
ghost use Rattle.numbered_terms.specs.Lists.{terms_at};
ghost use Rattle.numbered_terms.specs.Renumbered.{IsFound, AreFound, Covers};

use indexmap::IndexMap;
use numbered_terms::Terms;
use numbered_terms::renumber::{copy_numbers, is_there, new_number, note, numbers, renumbered};
use std::alloc::AllocError;
use term_bank::{Node, TermId};

// Whether the term's bound variables reach no further than these.
fn is_within(terms: &Terms, depth: u64, id: TermId) -> bool
    requires { id < length terms.now }
    ensures { result ≡ nat_le (reach (at terms.now id)) depth }
{
    terms.reach(id) <= depth as u128
}

// The number of a bound variable.
fn bound(terms: &Terms, id: TermId) -> Option<u64>
    requires { id < length terms.now }
    ensures { result ≡ as_bound (at terms.now id) }
{
    match terms.node(id) {
        Node::Bound(v) => Some(*v),
        _ => None,
    }
}

// How many variables the term binds.
fn binders(terms: &Terms, id: TermId) -> u64
    requires { id < length terms.now }
    ensures { result ≡ binders (at terms.now id) }
{
    match terms.node(id) {
        Node::ForAll(sorts, _, _) | Node::Exists(sorts, _, _) => sorts.len() as u64,
        _ => 0,
    }
}

// The variable of that number: an inner one, the term of one of the binder's, or one from outside
// it, which is nearer by as many.
fn put_bound(terms: &mut Terms, args: &[TermId], depth: u64, v: u64) -> Result<TermId, AllocError>
    requires { AllByRecursion (λ j. j < length terms.old) args.now }
    ensures grows { Begins terms.old terms.new }
    ensures gives { IfOk result (λ i. IsAt terms.new i (bound_within (terms_at terms.old args.now) depth v)) }
{
    if v < depth {
        return terms.make(Node::Bound(v));
    }
    match args.get((v - depth) as usize) {
        Some(id) => Ok(*id),
        None => terms.make(Node::Bound(v - args.len() as u64)),
    }
}

// So many variables, and so many more.
fn more_variables(depth: u64, inner: u64) -> Result<u64, AllocError>
    ensures { IfOk result (λ n. n ≡ depth + inner) }
{
    depth.checked_add(inner).ok_or(AllocError)
}

// Finds what a term becomes, below `depth` inner variables. A term whose variables don't reach the
// binder stays.
#[cycle(substitute)]
fn put_in(
    terms: &mut Terms,
    found: &mut IndexMap<usize, TermId>,
    args: &[TermId],
    depth: u64,
    id: TermId,
) -> Result<(), AllocError>
    requires args { AllByRecursion (λ j. j < length terms.old) args.now }
    requires id { id < length terms.old }
    requires right { AreFound (put_within (terms_at terms.old args.now) depth) terms.old found.old.entries }
    ensures grows { Begins terms.old terms.new }
    ensures right { OnOk result (AreFound (put_within (terms_at terms.old args.now) depth) terms.new found.new.entries) }
    ensures covers { OnOk result (Covers found.old.entries found.new.entries) }
    ensures found { OnOk result (IsFound (put_within (terms_at terms.old args.now) depth) terms.new found.new.entries id) }
{
    if is_within(terms, depth, id) {
        return Ok(());
    }
    if is_there(found, id) {
        return Ok(());
    }
    let made = put_term(terms, found, args, depth, id)?;
    note(found, id, made)
}

// The number of what a term becomes.
#[cycle(substitute)]
fn put_term(
    terms: &mut Terms,
    found: &mut IndexMap<usize, TermId>,
    args: &[TermId],
    depth: u64,
    id: TermId,
) -> Result<TermId, AllocError>
    requires args { AllByRecursion (λ j. j < length terms.old) args.now }
    requires id { id < length terms.old }
    requires right { AreFound (put_within (terms_at terms.old args.now) depth) terms.old found.old.entries }
    ensures grows { Begins terms.old terms.new }
    ensures right { OnOk result (AreFound (put_within (terms_at terms.old args.now) depth) terms.new found.new.entries) }
    ensures covers { OnOk result (Covers found.old.entries found.new.entries) }
    ensures gives { IfOk result (λ i. IsAt terms.new i (put_within (terms_at terms.old args.now) depth (at terms.old id))) }
{
    if let Some(v) = bound(terms, id) {
        return put_bound(terms, args, depth, v);
    }
    let inner = binders(terms, id);
    if inner == 0 {
        return put_node(terms, found, args, depth, depth, id);
    }
    put_under(terms, args, depth, inner, id)
}

// The same of a quantifier of so many variables, in which the binder's are further away.
#[cycle(substitute)]
fn put_under(
    terms: &mut Terms,
    args: &[TermId],
    depth: u64,
    inner: u64,
    id: TermId,
) -> Result<TermId, AllocError>
    requires args { AllByRecursion (λ j. j < length terms.old) args.now }
    requires id { id < length terms.old }
    requires other { as_bound (at terms.old id) ≡ None }
    requires inner { inner ≡ binders (at terms.old id) }
    ensures grows { Begins terms.old terms.new }
    ensures gives { IfOk result (λ i. IsAt terms.new i (put_within (terms_at terms.old args.now) depth (at terms.old id))) }
{
    let deeper = more_variables(depth, inner)?;
    let mut found = IndexMap::new(terms.alloc());
    put_node(terms, &mut found, args, depth, deeper, id)
}

// The same of a term that is no bound variable, whose parts stand below `deeper` inner variables.
#[cycle(substitute)]
fn put_node(
    terms: &mut Terms,
    found: &mut IndexMap<usize, TermId>,
    args: &[TermId],
    depth: u64,
    deeper: u64,
    id: TermId,
) -> Result<TermId, AllocError>
    requires args { AllByRecursion (λ j. j < length terms.old) args.now }
    requires id { id < length terms.old }
    requires other { as_bound (at terms.old id) ≡ None }
    requires deeper { deeper ≡ depth + binders (at terms.old id) }
    requires right { AreFound (put_within (terms_at terms.old args.now) deeper) terms.old found.old.entries }
    ensures grows { Begins terms.old terms.new }
    ensures right { OnOk result (AreFound (put_within (terms_at terms.old args.now) deeper) terms.new found.new.entries) }
    ensures covers { OnOk result (Covers found.old.entries found.new.entries) }
    ensures gives { IfOk result (λ i. IsAt terms.new i (put_within (terms_at terms.old args.now) depth (at terms.old id))) }
{
    terms.are_stored();
    let parts = numbers(terms.alloc(), terms.node(id))?;
    put_each(terms, found, args, deeper, id.number, &parts)?;
    put_whole(terms, found, args, depth, deeper, id)
}

// Finds what terms of numbers below this one become.
#[cycle(substitute)]
fn put_each(
    terms: &mut Terms,
    found: &mut IndexMap<usize, TermId>,
    args: &[TermId],
    depth: u64,
    below: usize,
    ids: &[TermId],
) -> Result<(), AllocError>
    requires args { AllByRecursion (λ j. j < length terms.old) args.now }
    requires below { below ≤ length terms.old }
    requires lower { AllByRecursion (λ j. j < below) ids.now }
    requires right { AreFound (put_within (terms_at terms.old args.now) depth) terms.old found.old.entries }
    ensures grows { Begins terms.old terms.new }
    ensures right { OnOk result (AreFound (put_within (terms_at terms.old args.now) depth) terms.new found.new.entries) }
    ensures covers { OnOk result (Covers found.old.entries found.new.entries) }
    ensures found { OnOk result (AllByRecursion (IsFound (put_within (terms_at terms.old args.now) depth) terms.new found.new.entries) ids.now) }
{
    for id in ids {
        put_in(terms, found, args, depth, *id)?;
    }
    Ok(())
}

// The number of what a term becomes that is no bound variable and whose parts are found.
fn put_whole(
    terms: &mut Terms,
    found: &IndexMap<usize, TermId>,
    args: &[TermId],
    depth: u64,
    deeper: u64,
    id: TermId,
) -> Result<TermId, AllocError>
    requires id { id < length terms.old }
    requires other { as_bound (at terms.old id) ≡ None }
    requires deeper { deeper ≡ depth + binders (at terms.old id) }
    requires parts { (m : Node) → IsNodeAt terms.old id m → AllByRecursion (IsFound (put_within (terms_at terms.old args.now) deeper) terms.old found.now.entries) (numbers_in m) }
    ensures grows { Begins terms.old terms.new }
    ensures gives { IfOk result (λ i. IsAt terms.new i (put_within (terms_at terms.old args.now) depth (at terms.old id))) }
{
    let node = renumbered(terms.alloc(), found, terms.node(id))?;
    terms.make(node)
}

/// The number of a binder's body with these terms for the binder's variables, the first for the
/// first. The terms are meant to be closed: inner binders don't move the bound variables in them.
pub fn substitute(terms: &mut Terms, body: TermId, args: &[TermId]) -> Result<TermId, AllocError>
    requires args { AllByRecursion (λ j. j < length terms.old) args.now }
    requires body { body < length terms.old }
    ensures grows { Begins terms.old terms.new }
    ensures gives { IfOk result (λ i. IsAt terms.new i (substitute (at terms.old body) (terms_at terms.old args.now))) }
{
    let mut reversed = copy_numbers(terms.alloc(), args)?;
    reversed.reverse();
    let mut found = IndexMap::new(terms.alloc());
    put_in(terms, &mut found, &reversed, 0, body)?;
    Ok(new_number(&found, body))
}
