// Facts of which none closes a branch, neither alone nor with another, kept from branch to branch.
ghost use Rattle.std.specs.Prelude.{◌≡◌, ◌<◌, ◌||◌, [], ℕ, List, nat_eq, true, false, length, map, None, IfOk, OnOk};
ghost use Rattle.std.specs.List.{AllByRecursion, list_any};
ghost use Rattle.logic_core.specs.Tree.{Tree};
ghost use Rattle.logic_core.specs.Same.{is_some_and};
ghost use Rattle.logic_core.specs.Junction.{is_truth, negated};
ghost use Rattle.term_bank.specs.Numbered.{at};
ghost use Rattle.logic_rules.specs.Closing.{pair_from};
ghost use Rattle.numbered_terms.specs.Stored.{Grows};
ghost use Rattle.numbered_branches.specs.Branches.{IsFactBelow, fact_at};
ghost use Rattle.numbered_facts.specs.Answers.{StandsFor};
ghost use Rattle.numbered_logic.specs.Apart.{AreApart, AreStill, IsListed, is_among};

use crate::found::term_of;
use numbered_branches::branch::Fact;
use numbered_facts::Store;
use numbered_forms::junction::is_truth;
use numbered_terms::Terms;
use numbered_terms::number_set::NumberSet;
use std::alloc::{AllocError, Global};
use term_bank::TermId;

/// Facts of which none is false and none is the normal Not of another, and these normal Nots.
#[derive(Drop)]
pub struct Apart {
    pub facts: NumberSet,
    pub negations: NumberSet,
}

// Whether the number, if there is one, is among these.
fn is_among(numbers: &NumberSet, id: &Option<TermId>) -> bool
    ensures { result ≡ is_among numbers.now id.now }
{
    match id {
        Some(id) => numbers.contains(*id),
        None => false,
    }
}

// The number, if there is one, joins these.
fn insert(numbers: &mut NumberSet, id: &Option<TermId>) -> Result<(), AllocError>
    ensures { OnOk result ((j : ℕ) → list_any (nat_eq j) numbers.new ≡ (list_any (nat_eq j) numbers.old || is_some_and id.now (nat_eq j))) }
{
    if let Some(id) = id {
        numbers.insert(*id)?;
    }
    Ok(())
}

// Whether the fact is false, or its normal Not is among these facts.
fn is_opposed(terms: &Terms, facts: &NumberSet, id: TermId, negation: &Option<TermId>) -> bool
    requires { id < length terms.now }
    ensures { result ≡ (is_truth false (at terms.now id) || is_among facts.now negation.now) }
{
    is_truth(terms, id, false) || is_among(facts, negation)
}

// The fact with this normal Not joins the others, unless it is false or opposed to one of them. Whether it
// is one of them now.
fn join_new(
    terms: &Terms,
    apart: &mut Apart,
    id: TermId,
    negation: &Option<TermId>,
) -> Result<bool, AllocError>
    requires id { id < length terms.now }
    requires negation { StandsFor terms.now negation.now (negated (at terms.now id)) }
    requires apart { AreApart terms.now apart.old }
    ensures apart { OnOk result (AreApart terms.now apart.new) }
    ensures kept { OnOk result (AreStill apart.old.facts apart.new.facts) }
    ensures joined { IfOk result (λ b. b ≡ true → list_any (nat_eq id) apart.new.facts ≡ true) }
{
    if is_opposed(terms, &apart.facts, id, negation) {
        return Ok(false);
    }
    insert(&mut apart.negations, negation)?;
    if apart.negations.contains(id) {
        return Ok(false);
    }
    apart.facts.insert(id)?;
    Ok(true)
}

// The same of any fact.
fn join(store: &mut Store, apart: &mut Apart, id: TermId) -> Result<bool, AllocError>
    requires id { id < length store.old.terms }
    requires apart { AreApart store.old.terms apart.old }
    ensures grows { Grows store.old store.new }
    ensures apart { OnOk result (AreApart store.new.terms apart.new) }
    ensures kept { OnOk result (AreStill apart.old.facts apart.new.facts) }
    ensures joined { IfOk result (λ b. b ≡ true → list_any (nat_eq id) apart.new.facts ≡ true) }
{
    if apart.facts.contains(id) {
        return Ok(true);
    }
    let negation = store.negation(id)?;
    join_new(store.terms(), apart, id, &negation)
}

// The facts join the others, one after another, as long as they do. Whether all have.
fn join_each(store: &mut Store, apart: &mut Apart, facts: &[Fact]) -> Result<bool, AllocError>
    requires facts { AllByRecursion (IsFactBelow (length store.old.terms)) facts.now }
    requires apart { AreApart store.old.terms apart.old }
    ensures grows { Grows store.old store.new }
    ensures apart { OnOk result (AreApart store.new.terms apart.new) }
    ensures joined { IfOk result (λ b. b ≡ true → AllByRecursion (IsListed apart.new.facts) facts.now) }
{
    for fact in facts {
        let id = term_of(fact);
        let joined = join(store, apart, id)?;
        if !joined {
            return Ok(false);
        }
    }
    Ok(true)
}

// All facts go.
fn clear(apart: &mut Apart)
    ensures { (ts : List Tree) → AreApart ts apart.new }
{
    apart.facts.clear();
    apart.negations.clear();
}

// The same, where need be without the facts that were there before.
fn join_all(store: &mut Store, apart: &mut Apart, facts: &[Fact]) -> Result<bool, AllocError>
    requires facts { AllByRecursion (IsFactBelow (length store.old.terms)) facts.now }
    requires apart { AreApart store.old.terms apart.old }
    ensures grows { Grows store.old store.new }
    ensures apart { OnOk result (AreApart store.new.terms apart.new) }
    ensures joined { IfOk result (λ b. b ≡ true → AllByRecursion (IsListed apart.new.facts) facts.now) }
{
    let joined = join_each(store, apart, facts)?;
    if joined {
        return Ok(true);
    }
    clear(apart);
    join_each(store, apart, facts)
}

impl Apart {
    /// No facts.
    pub fn new(alloc: Global) -> Apart
        ensures { (ts : List Tree) → AreApart ts result }
    {
        Apart {
            facts: NumberSet::new(alloc),
            negations: NumberSet::new(alloc),
        }
    }

    /// Where this is so none of the facts is false, and none is the normal Not of another. Facts of which
    /// it was found once aren't looked at again.
    pub fn are_apart(&mut self, store: &mut Store, facts: &[Fact]) -> Result<bool, AllocError>
        requires facts { AllByRecursion (IsFactBelow (length store.old.terms)) facts.now }
        requires apart { AreApart store.old.terms self.old }
        ensures grows { Grows store.old store.new }
        ensures apart { OnOk result (AreApart store.new.terms self.new) }
        ensures none { IfOk result (λ b. b ≡ true → pair_from [] (map (fact_at store.new.terms) facts.now) ≡ None) }
    {
        let joined = join_all(store, self, facts)?;
        store.terms().are_stored();
        Ok(joined)
    }
}
