// In how many facts of a branch each atom occurs, kept from branch to branch.
ghost use Rattle.std.specs.Prelude.{◌≡◌, ◌<◌, ◌≤◌, ◌++◌, ◌∷◌, [], ℕ, List, nat_eq, true, false, length, map, drop, IfOk, IfSome, OnOk, get_or};
ghost use Rattle.std.specs.List.{AllByRecursion};
ghost use Rattle.logic_core.specs.Tree.{Tree};
ghost use Rattle.term_bank.specs.Numbered.{at};
ghost use Rattle.numbered_terms.specs.Stored.{Grows};
ghost use Rattle.numbered_branches.specs.Branches.{IsFactBelow};
ghost use Rattle.numbered_instances.specs.Shared.{AreShared, IsOneMore, IsOneLess, AreCounted, IsCounted, has_atom, in_two};

use crate::counts::{add_each, count_of, take_each};
use numbered_branches::branch::Fact;
use numbered_facts::Store;
use std::alloc::{AllocError, Global};
use term_bank::TermId;

/// The facts that were listed last, and in how many of them each atom occurs.
#[derive(Drop)]
pub struct Shared {
    pub listed: Vec<TermId>,
    pub counts: Vec<usize>,
}

// One more fact. Atoms that are kept are counted where they stand.
fn count_fact(store: &mut Store, counts: &mut Vec<usize>, id: TermId) -> Result<(), AllocError>
    requires { id < length store.old.terms }
    ensures grows { Grows store.old store.new }
    ensures more { OnOk result (IsOneMore store.new.terms id counts.old.items counts.new.items) }
{
    if let Some(kept) = store.kept_atoms(id) {
        return add_each(counts, kept);
    }
    let atoms = store.atoms(id)?;
    add_each(counts, &atoms)?;
    Ok(())
}

// One fact less.
fn leave_fact(store: &mut Store, counts: &mut Vec<usize>, id: TermId) -> Result<(), AllocError>
    requires { id < length store.old.terms }
    ensures grows { Grows store.old store.new }
    ensures less { OnOk result (IsOneLess store.new.terms id counts.old.items counts.new.items) }
{
    if let Some(kept) = store.kept_atoms(id) {
        take_each(counts, kept);
        return Ok(());
    }
    let atoms = store.atoms(id)?;
    take_each(counts, &atoms);
    Ok(())
}

// The place behind the number, where it stands at this place.
fn behind(listed: &[TermId], at: usize, id: TermId) -> Option<usize>
    ensures { IfSome result (λ k. drop at listed.now ≡ id ∷ drop k listed.now) }
{
    if at < listed.len() && listed[at] == id {
        return Some(at + 1);
    }
    None
}

// So many listed facts, from a place on, are looked through for a new one.
const AHEAD: usize = 8;

// Where the number stands, of the places near this one and not before it, and the place behind that.
fn place_ahead(listed: &[TermId], at: usize, id: TermId) -> Option<(usize, usize)>
    ensures order { IfSome result (λ p. at ≤ p.0) }
    ensures within { IfSome result (λ p. p.0 ≤ length listed.now) }
    ensures found { IfSome result (λ p. drop p.0 listed.now ≡ id ∷ drop p.1 listed.now) }
{
    let until = listed.len().min(at.saturating_add(AHEAD));
    for place in at..until {
        if let Some(next) = behind(listed, place, id) {
            return Some((place, next));
        }
    }
    None
}

// The facts from the first place on and before the second one go.
fn leave_until(
    store: &mut Store,
    counts: &mut Vec<usize>,
    listed: &[TermId],
    from: usize,
    until: usize,
) -> Result<(), AllocError>
    requires listed { AllByRecursion (λ i. i < length store.old.terms) listed.now }
    requires order { from ≤ until }
    requires within { until ≤ length listed.now }
    ensures grows { Grows store.old store.new }
    ensures left { OnOk result ((before : List ℕ) → AreShared store.old.terms (before ++ drop from listed.now) counts.old.items → AreShared store.new.terms (before ++ drop until listed.now) counts.new.items) }
{
    for at in from..until {
        leave_fact(store, counts, listed[at])?;
    }
    Ok(())
}

// The facts behind the last place go.
fn leave_rest(
    store: &mut Store,
    counts: &mut Vec<usize>,
    listed: &[TermId],
    from: usize,
) -> Result<(), AllocError>
    requires { AllByRecursion (λ i. i < length store.old.terms) listed.now }
    ensures grows { Grows store.old store.new }
    ensures left { OnOk result ((before : List ℕ) → AreShared store.old.terms (before ++ drop from listed.now) counts.old.items → AreShared store.new.terms before counts.new.items) }
{
    for at in from..listed.len() {
        leave_fact(store, counts, listed[at])?;
    }
    Ok(())
}

// One of the new facts: where it stands near this place it is passed, and those before it go; else it is
// counted. The next place.
fn count_next(
    store: &mut Store,
    counts: &mut Vec<usize>,
    listed: &[TermId],
    at: usize,
    id: TermId,
) -> Result<usize, AllocError>
    requires listed { AllByRecursion (λ i. i < length store.old.terms) listed.now }
    requires id { id < length store.old.terms }
    ensures grows { Grows store.old store.new }
    ensures counted { IfOk result (λ k. (before : List ℕ) → AreShared store.old.terms (before ++ drop at listed.now) counts.old.items → AreShared store.new.terms (before ++ id ∷ drop k listed.now) counts.new.items) }
{
    if let Some(found) = place_ahead(listed, at, id) {
        leave_until(store, counts, listed, at, found.0)?;
        return Ok(found.1);
    }
    count_fact(store, counts, id)?;
    Ok(at)
}

// The formula of a fact.
fn term_of(fact: &Fact) -> TermId
    ensures { result ≡ fact.now.term }
{
    fact.term
}

// The new facts, one after another. The place behind the listed facts that were looked at.
fn count_new(
    store: &mut Store,
    counts: &mut Vec<usize>,
    listed: &[TermId],
    facts: &[Fact],
) -> Result<usize, AllocError>
    requires listed { AllByRecursion (λ i. i < length store.old.terms) listed.now }
    requires facts { AllByRecursion (IsFactBelow (length store.old.terms)) facts.now }
    ensures grows { Grows store.old store.new }
    ensures counted { IfOk result (λ k. AreShared store.old.terms listed.now counts.old.items → AreShared store.new.terms (map (λ f. f.term) facts.now ++ drop k listed.now) counts.new.items) }
{
    let mut at: usize = 0;
    for fact in facts {
        let id = term_of(fact);
        let next = count_next(store, counts, listed, at, id)?;
        at = next;
    }
    Ok(at)
}

// The numbers of these facts take the place of those that are listed.
fn list_again(listed: &mut Vec<TermId>, facts: &[Fact]) -> Result<(), AllocError>
    ensures { OnOk result (listed.new.items ≡ map (λ f. f.term) facts.now) }
{
    listed.clear();
    for fact in facts {
        let id = term_of(fact);
        listed.push(id)?;
    }
    Ok(())
}

impl Shared {
    /// No facts.
    pub fn new(alloc: Global) -> Shared
        ensures { (ts : List Tree) → IsCounted ts result }
    {
        Shared {
            listed: Vec::new(alloc),
            counts: Vec::new(alloc),
        }
    }

    /// Lists these facts: those that are listed already, in this order, are passed.
    pub fn list(&mut self, store: &mut Store, facts: &[Fact]) -> Result<(), AllocError>
        requires facts { AllByRecursion (IsFactBelow (length store.old.terms)) facts.now }
        requires counted { IsCounted store.old.terms self.old }
        ensures grows { Grows store.old store.new }
        ensures counted { OnOk result (IsCounted store.new.terms self.new) }
        ensures listed { OnOk result (self.new.listed.items ≡ map (λ f. f.term) facts.now) }
    {
        let from = count_new(store, &mut self.counts, &self.listed, facts)?;
        leave_rest(store, &mut self.counts, &self.listed, from)?;
        list_again(&mut self.listed, facts)?;
        Ok(())
    }

    /// In how many of the facts the term occurs, where it is an atom.
    pub fn count(&self, id: TermId) -> usize
        ensures { result ≡ get_or self.now.counts.items id 0 }
    {
        count_of(&self.counts, id)
    }

    /// Whether the term is an atom that occurs in one of the facts alone.
    pub fn is_alone(&self, id: TermId) -> bool
        ensures { result ≡ true → (ts : List Tree) (facts : List ℕ) → AreCounted (has_atom ts) facts self.now.counts.items → in_two (at ts id) (map (at ts) facts) ≡ false }
    {
        count_of(&self.counts, id) == 1
    }
}
