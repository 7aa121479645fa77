// The rule close, over numbers.
ghost use Rattle.std.specs.Prelude.{◌≡◌, [], nat_eq, false, find, map, length, take, option_map, Some, None, IfOk, OnOk, IfSome};
ghost use Rattle.std.specs.List.{list_any, AllByRecursion};
ghost use Rattle.logic_core.specs.Junction.{is_truth};
ghost use Rattle.term_bank.specs.Numbered.{at};
ghost use Rattle.proof_core.specs.Close.{is_negation_of};
ghost use Rattle.tableau_branch.specs.Branch.{gives, with_facts};
ghost use Rattle.logic_rules.specs.Closing.{are_opposed, pair_from, close_by, close};
ghost use Rattle.logic_rules.specs.View.{close_of};
ghost use Rattle.numbered_terms.specs.Stored.{Grows};
ghost use Rattle.numbered_branches.specs.Applied.{TriesAt};
ghost use Rattle.numbered_branches.specs.Branches.{branch_at, IsFactBelow, IsBranchOver};
ghost use Rattle.numbered_logic.specs.Forms.{branch_over};
ghost use Rattle.numbered_logic.specs.Apart.{AreApart, IsListed};
ghost use Rattle.numbered_logic.specs.Denied.{IsDenied, AreDenied, denied_at};

use crate::apart::Apart;
use crate::found::term_of;
use logic_core::NormalFault;
use numbered_branches::branch::{Branch, Fact};
use numbered_branches::played::{Attempt, Ending, Move};
use numbered_facts::Store;
use numbered_forms::junction::is_truth;
use numbered_terms::Terms;
use numbered_terms::number_set::NumberSet;
use std::alloc::AllocError;
use term_bank::TermId;

/// A fact with the number of its normal Not, where there is one.
#[derive(Clone, Copy)]
pub struct Denied {
    pub fact: Fact,
    pub negation: Option<TermId>,
}

// The fact, with this number of its normal Not.
fn denied_by(fact: &Fact, negation: Option<TermId>) -> Denied
    ensures { result ≡ record { fact = fact.now; negation = negation } }
{
    Denied {
        fact: *fact,
        negation,
    }
}

// The facts with their normal Nots.
fn with_negations(store: &mut Store, facts: &[Fact]) -> Result<Vec<Denied>, AllocError>
    requires { AllByRecursion (IsFactBelow (length store.old.terms)) facts.now }
    ensures grows { Grows store.old store.new }
    ensures denied { IfOk result (λ v. AreDenied store.new.terms v.items facts.now) }
{
    let mut all = Vec::new(store.alloc());
    for fact in facts {
        let id = term_of(fact);
        let negation = store.negation(id)?;
        all.push(denied_by(fact, negation))?;
    }
    Ok(all)
}

// Whether the fact is false.
fn is_false(terms: &Terms, one: &Denied) -> bool
    requires { IsDenied terms.now one.now }
    ensures { result ≡ is_truth false (at terms.now one.now.fact.term) }
{
    is_truth(terms, one.fact.term, false)
}

// Whether the first fact is the normal Not of the second.
fn is_negation_of(terms: &Terms, g: &Denied, f: &Denied) -> bool
    requires g { IsDenied terms.now g.now }
    requires f { IsDenied terms.now f.now }
    ensures { result ≡ is_negation_of (at terms.now g.now.fact.term) (at terms.now f.now.fact.term) }
{
    match f.negation {
        Some(negation) => terms.is_same(negation, g.fact.term),
        None => false,
    }
}

// Whether one of the facts is the normal Not of the other.
fn are_opposed(terms: &Terms, f: &Denied, g: &Denied) -> bool
    requires f { IsDenied terms.now f.now }
    requires g { IsDenied terms.now g.now }
    ensures { result ≡ are_opposed (denied_at terms.now f.now) (denied_at terms.now g.now) }
{
    is_negation_of(terms, g, f) || is_negation_of(terms, f, g)
}

// The first of the facts that is opposed to this one.
fn first_opposed<'a>(terms: &Terms, denied: &'a [Denied], one: &Denied) -> Option<&'a Denied>
    requires denied { AllByRecursion (IsDenied terms.now) denied.now }
    requires one { IsDenied terms.now one.now }
    ensures first { option_map (λ d. denied_at terms.now d.now) result ≡ find (λ f. are_opposed f (denied_at terms.now one.now)) (map (denied_at terms.now) denied.now) }
    ensures denied { IfSome result (λ d. IsDenied terms.now d.now) }
{
    for other in denied {
        if are_opposed(terms, other, one) {
            return Some(other);
        }
    }
    None
}

// Whether the fact is among these.
fn is_listed(numbers: &NumberSet, one: &Denied) -> bool
    ensures { result ≡ list_any (nat_eq one.now.fact.term) numbers.now }
{
    numbers.contains(one.fact.term)
}

// How many facts, from the first on, are among these.
fn count_listed(numbers: &NumberSet, denied: &[Denied]) -> usize
    ensures { AllByRecursion (λ d. IsListed numbers.now d.fact) (take result denied.now) }
{
    for (i, one) in denied.iter().enumerate() {
        let listed = is_listed(numbers, one);
        if !listed {
            return i;
        }
    }
    denied.len()
}

// The first pair of opposed facts by its later fact, and then by its earlier one, where the facts before
// `start` have none. A fact that is false pairs with itself.
fn pair_behind<'a>(
    terms: &Terms,
    denied: &'a [Denied],
    start: usize,
) -> Option<(&'a Denied, &'a Denied)>
    requires denied { AllByRecursion (IsDenied terms.now) denied.now }
    requires start { pair_from [] (map (denied_at terms.now) (take start denied.now)) ≡ None }
    ensures pair { option_map (λ p. (denied_at terms.now p.0.now, denied_at terms.now p.1.now)) result ≡ pair_from [] (map (denied_at terms.now) denied.now) }
    ensures denied { IfSome result (λ p. IsDenied terms.now p.0.now × IsDenied terms.now p.1.now) }
{
    for i in start..denied.len() {
        let one = &denied[i];
        if let Some(earlier) = first_opposed(terms, &denied[..i], one) {
            return Some((earlier, one));
        }
        if is_false(terms, one) {
            return Some((one, one));
        }
    }
    None
}

// The same pair. Facts that are known to be apart have none.
fn closing_pair<'a>(
    terms: &Terms,
    apart: &Apart,
    denied: &'a [Denied],
) -> Option<(&'a Denied, &'a Denied)>
    requires apart { AreApart terms.now apart.now }
    requires denied { AllByRecursion (IsDenied terms.now) denied.now }
    ensures pair { option_map (λ p. (denied_at terms.now p.0.now, denied_at terms.now p.1.now)) result ≡ pair_from [] (map (denied_at terms.now) denied.now) }
    ensures denied { IfSome result (λ p. IsDenied terms.now p.0.now × IsDenied terms.now p.1.now) }
{
    terms.are_stored();
    let start = count_listed(&apart.facts, denied);
    pair_behind(terms, denied, start)
}

// The numbers by which two facts, of which the first has the smaller number, close the branch: the
// first stands first, unless only it is the normal Not of the second.
fn close_by(terms: &Terms, f: &Denied, g: &Denied) -> (u64, u64)
    requires f { IsDenied terms.now f.now }
    requires g { IsDenied terms.now g.now }
    ensures { close_of (Some result) ≡ gives (close_by (denied_at terms.now f.now) (denied_at terms.now g.now)) }
{
    if f.fact.number == g.fact.number || is_negation_of(terms, g, f) {
        (f.fact.number, g.fact.number)
    } else {
        (g.fact.number, f.fact.number)
    }
}

// The numbers of two facts that close a branch with these facts, as a close names them.
fn closing_numbers(terms: &Terms, apart: &Apart, denied: &[Denied]) -> Option<(u64, u64)>
    requires apart { AreApart terms.now apart.now }
    requires denied { AllByRecursion (IsDenied terms.now) denied.now }
    ensures { close_of result ≡ close (with_facts (branch_over []) (map (denied_at terms.now) denied.now)) }
{
    match closing_pair(terms, apart, denied) {
        Some((f, g)) => {
            if f.fact.number <= g.fact.number {
                Some(close_by(terms, f, g))
            } else {
                Some(close_by(terms, g, f))
            }
        }
        None => None,
    }
}

// The pair that closes the branch is looked for among all pairs of facts of which the later one isn't known
// to be apart from those before it.
fn close_among(store: &mut Store, apart: &Apart, branch: Branch) -> Result<Attempt, NormalFault>
    requires apart { AreApart store.old.terms apart.now }
    requires branch { IsBranchOver store.old.terms branch }
    ensures grows { Grows store.old store.new }
    ensures tries { TriesAt store.new.terms (branch_at store.old.terms branch) result (close (branch_at store.old.terms branch)) }
{
    let denied = with_negations(store, &branch.facts)?;
    match closing_numbers(store.terms(), apart, &denied) {
        Some((first, second)) => Ok(Attempt::Gives(Move {
            ending: Ending::Closes { first, second },
            made: Vec::new(store.alloc()),
        })),
        None => Ok(Attempt::Passes(branch)),
    }
}

/// A fact that is false, or two facts of which one is the normal Not of the other, close the branch.
pub fn close(store: &mut Store, apart: &mut Apart, branch: Branch) -> Result<Attempt, NormalFault>
    requires branch { IsBranchOver store.old.terms branch }
    requires apart { AreApart store.old.terms apart.old }
    ensures grows { Grows store.old store.new }
    ensures apart { OnOk result (AreApart store.new.terms apart.new) }
    ensures tries { TriesAt store.new.terms (branch_at store.old.terms branch) result (close (branch_at store.old.terms branch)) }
{
    if apart.are_apart(store, &branch.facts)? {
        return Ok(Attempt::Passes(branch));
    }
    close_among(store, apart, branch)
}
