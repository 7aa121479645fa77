// The rule split, over numbers.
ghost use Rattle.std.specs.Prelude.{◌≡◌, ◌<◌, [], ◌∷◌, length, map, option_map, IfOk};
ghost use Rattle.std.specs.List.{AllByRecursion};
ghost use Rattle.logic_core.specs.Tree.{negation, equal};
ghost use Rattle.logic_core.specs.View.{trees_of};
ghost use Rattle.proof_core.specs.Split.{both, disjuncts, equal_cases, unequal_cases, cases};
ghost use Rattle.term_bank.specs.Numbered.{at};
ghost use Rattle.tableau_branch.specs.Branch.{context_of, first_from};
ghost use Rattle.tableau_branch.specs.Cases.{case};
ghost use Rattle.logic_rules.specs.Splitting.{cases_of, split_at, split};
ghost use Rattle.numbered_terms.specs.At.{IsAt};
ghost use Rattle.numbered_terms.specs.Stored.{Grows};
ghost use Rattle.numbered_facts.specs.Answers.{AreAt};
ghost use Rattle.numbered_branches.specs.Applied.{TriesAt, GivesMoveAt};
ghost use Rattle.numbered_branches.specs.Branches.{branch_at, fact_at, IsFactBelow, IsBranchOver};
ghost use Rattle.numbered_branches.specs.Standing.{AreMadeAt};
ghost use Rattle.numbered_logic.specs.Forms.{AreSome, at_least_one, branch_over};
ghost use Rattle.numbered_logic.specs.Found.{found_at, IsFoundIn, Finds};

use crate::forms::normal_forms;
use crate::found::{Found, term_of, without};
use logic_core::NormalFault;
use numbered_branches::branch::{Branch, Fact};
use numbered_branches::cases::case;
use numbered_branches::played::{Attempt, Ending, Made, Move};
use numbered_facts::Store;
use numbered_terms::renumber::copy_numbers;
use std::alloc::{AllocError, Global};
use term_bank::{Node, TermId};

// Not t.
fn not(store: &mut Store, t: TermId) -> Result<TermId, AllocError>
    requires { t < length store.old.terms }
    ensures grows { Grows store.old store.new }
    ensures is { IfOk result (λ i. IsAt store.new.terms i (negation (at store.old.terms t))) }
{
    store.make(Node::Not(t))
}

// That both hold.
fn both(store: &mut Store, s: TermId, t: TermId) -> Result<TermId, AllocError>
    requires s { s < length store.old.terms }
    requires t { t < length store.old.terms }
    ensures grows { Grows store.old store.new }
    ensures is { IfOk result (λ i. IsAt store.new.terms i (both (at store.old.terms s) (at store.old.terms t))) }
{
    let parts = Vec::from_array(store.alloc(), [s, t])?;
    store.make(Node::And(parts))
}

// The Nots of two terms.
fn nots(store: &mut Store, p: TermId, q: TermId) -> Result<(TermId, TermId), AllocError>
    requires p { p < length store.old.terms }
    requires q { q < length store.old.terms }
    ensures grows { Grows store.old store.new }
    ensures first { IfOk result (λ r. IsAt store.new.terms r.0 (negation (at store.old.terms p))) }
    ensures second { IfOk result (λ r. IsAt store.new.terms r.1 (negation (at store.old.terms q))) }
{
    let no_p = not(store, p)?;
    let no_q = not(store, q)?;
    Ok((no_p, no_q))
}

// That both hold of the first two, or both of the others.
fn two_cases(
    store: &mut Store,
    first: (TermId, TermId),
    second: (TermId, TermId),
) -> Result<Vec<TermId>, AllocError>
    requires first { first.0 < length store.old.terms }
    requires first_other { first.1 < length store.old.terms }
    requires second { second.0 < length store.old.terms }
    requires second_other { second.1 < length store.old.terms }
    ensures grows { Grows store.old store.new }
    ensures cases { IfOk result (λ v. AreAt store.new.terms v.items (both (at store.old.terms first.0) (at store.old.terms first.1) ∷ both (at store.old.terms second.0) (at store.old.terms second.1) ∷ [])) }
{
    let one = both(store, first.0, first.1)?;
    let other = both(store, second.0, second.1)?;
    Ok(Vec::from_array(store.alloc(), [one, other])?)
}

// Of an Eq of Bool: both sides hold, or neither does.
fn equal_cases(store: &mut Store, p: TermId, q: TermId) -> Result<Option<Vec<TermId>>, AllocError>
    requires p { p < length store.old.terms }
    requires q { q < length store.old.terms }
    ensures grows { Grows store.old store.new }
    ensures cases { IfOk result (λ o. AreSome store.new.terms o (option_map (λ c. c.0 ∷ c.1) (equal_cases store.old.defs (context_of (branch_over store.old.vars)) (at store.old.terms p) (at store.old.terms q)))) }
{
    let boolean = store.is_boolean(p)?;
    if !boolean {
        return Ok(None);
    }
    let sides = nots(store, p, q)?;
    let cases = two_cases(store, (p, q), sides)?;
    Ok(Some(cases))
}

// Of an Eq of Bool that isn't: the first side alone holds, or the second.
fn differing_cases(
    store: &mut Store,
    p: TermId,
    q: TermId,
) -> Result<Option<Vec<TermId>>, AllocError>
    requires p { p < length store.old.terms }
    requires q { q < length store.old.terms }
    ensures grows { Grows store.old store.new }
    ensures cases { IfOk result (λ o. AreSome store.new.terms o (option_map (λ c. c.0 ∷ c.1) (unequal_cases store.old.defs (context_of (branch_over store.old.vars)) (equal (at store.old.terms p) (at store.old.terms q))))) }
{
    let boolean = store.is_boolean(p)?;
    if !boolean {
        return Ok(None);
    }
    let sides = nots(store, p, q)?;
    let cases = two_cases(store, (p, sides.1), (sides.0, q))?;
    Ok(Some(cases))
}

// Of the Not of an Eq of Bool: the first side alone holds, or the second.
fn unequal_cases(store: &mut Store, t: TermId) -> Result<Option<Vec<TermId>>, AllocError>
    requires { t < length store.old.terms }
    ensures grows { Grows store.old store.new }
    ensures cases { IfOk result (λ o. AreSome store.new.terms o (option_map (λ c. c.0 ∷ c.1) (unequal_cases store.old.defs (context_of (branch_over store.old.vars)) (at store.old.terms t)))) }
{
    match store.terms().node(t) {
        Node::Eq(p, q) => {
            let p = *p;
            let q = *q;
            differing_cases(store, p, q)
        }
        _ => Ok(None),
    }
}

// The parts of an Or, of which there is one at least.
fn disjuncts(alloc: Global, parts: &[TermId]) -> Result<Option<Vec<TermId>>, AllocError>
    ensures { IfOk result (λ o. option_map (λ v. v.items) o ≡ at_least_one parts.now) }
{
    if parts.is_empty() {
        return Ok(None);
    }
    Ok(Some(copy_numbers(alloc, parts)?))
}

// The formulas of which one holds where the fact does.
fn cases(store: &mut Store, fact: TermId) -> Result<Option<Vec<TermId>>, AllocError>
    requires { fact < length store.old.terms }
    ensures grows { Grows store.old store.new }
    ensures cases { IfOk result (λ o. AreSome store.new.terms o (option_map (λ c. c.0 ∷ c.1) (cases store.old.defs (context_of (branch_over store.old.vars)) (at store.old.terms fact)))) }
{
    match store.terms().node(fact) {
        Node::Or(parts) => disjuncts(store.alloc(), parts),
        Node::Eq(p, q) => {
            let p = *p;
            let q = *q;
            equal_cases(store, p, q)
        }
        Node::Not(t) => {
            let t = *t;
            unequal_cases(store, t)
        }
        _ => Ok(None),
    }
}

// The cases of a fact that isn't oriented.
fn cases_of(store: &mut Store, fact: &Fact) -> Result<Option<Vec<TermId>>, AllocError>
    requires { IsFactBelow (length store.old.terms) fact.now }
    ensures grows { Grows store.old store.new }
    ensures cases { IfOk result (λ o. AreSome store.new.terms o (cases_of store.old.defs (branch_over store.old.vars) (fact_at store.old.terms fact.now))) }
{
    let id = term_of(fact);
    let left = store.left_side(id)?;
    match left {
        Some(_) => Ok(None),
        None => cases(store, id),
    }
}

// The oldest fact with cases, and these.
fn oldest_cases(store: &mut Store, facts: &[Fact]) -> Result<Option<Found>, AllocError>
    requires { AllByRecursion (IsFactBelow (length store.old.terms)) facts.now }
    ensures grows { Grows store.old store.new }
    ensures found { IfOk result (λ o. Finds store.new.terms facts.now o (first_from (cases_of store.old.defs (branch_over store.old.vars)) 0 (map (fact_at store.old.terms) facts.now))) }
{
    for (at, fact) in facts.iter().enumerate() {
        if let Some(cases) = cases_of(store, fact)? {
            return Ok(Some(Found::new(at, fact, cases)));
        }
    }
    Ok(None)
}

// The branches of the children, in order.
fn each_case(store: &mut Store, branch: &Branch, ids: &[TermId]) -> Result<Vec<Made>, AllocError>
    requires branch { IsBranchOver store.old.terms branch.now }
    requires ids { AllByRecursion (λ i. i < length store.old.terms) ids.now }
    ensures grows { Grows store.old store.new }
    ensures made { IfOk result (λ v. AreMadeAt store.new.terms v.items (map (case (branch_at store.old.terms branch.now)) (map (at store.old.terms) ids.now))) }
{
    let mut all = Vec::new(store.alloc());
    for id in ids {
        let copy = branch.copy(store.alloc())?;
        let made = case(store, copy, *id)?;
        all.push(made)?;
    }
    Ok(all)
}

// The fact goes; a branch is made for each case. Wide exactly where one leaves 128 bits.
fn split_into(store: &mut Store, branch: Branch, found: Found) -> Result<Move, NormalFault>
    requires branch { IsBranchOver store.old.terms branch }
    requires vars { store.old.vars ≡ branch.vars }
    requires found { IsFoundIn store.old.terms branch.facts found }
    ensures grows { Grows store.old store.new }
    ensures gives { GivesMoveAt store.new.terms result (split_at store.old.defs (branch_at store.old.terms branch) (found_at store.old.terms found)) }
{
    let forms = normal_forms(store, &found.terms)?;
    let rest = without(store.terms(), branch, found.at);
    let made = each_case(store, &rest, &forms)?;
    Ok(Move {
        ending: Ending::Forks(found.number),
        made,
    })
}

/// The oldest Or, Eq of Bool that isn't oriented, or Not Eq of Bool goes; a branch is made for each of
/// its cases.
pub fn split(store: &mut Store, branch: Branch) -> Result<Attempt, NormalFault>
    requires branch { IsBranchOver store.old.terms branch }
    requires vars { store.old.vars ≡ branch.vars }
    ensures grows { Grows store.old store.new }
    ensures tries { TriesAt store.new.terms (branch_at store.old.terms branch) result (split store.old.defs (branch_at store.old.terms branch)) }
{
    match oldest_cases(store, &branch.facts)? {
        Some(found) => Ok(Attempt::Gives(split_into(store, branch, found)?)),
        None => Ok(Attempt::Passes(branch)),
    }
}
