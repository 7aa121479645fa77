// Between which places the facts of a branch stand in which an atom occurs.
ghost use Rattle.std.specs.Prelude.{◌≡◌, ◌<◌, ◌≤◌, ◌+◌, true, false, cond, length, map, take, drop, OnOk, IfSome};
ghost use Rattle.std.specs.List.{AllByRecursion};
ghost use Rattle.logic_core.specs.Gives.{GivesAs};
ghost use Rattle.logic_core.specs.Subterm.{occurs};
ghost use Rattle.term_bank.specs.Numbered.{at};
ghost use Rattle.tableau_branch.specs.Branch.{Fact as BranchFact};
ghost use Rattle.tableau_branch.specs.Replacing.{replaced_each};
ghost use Rattle.numbered_terms.specs.Stored.{Grows};
ghost use Rattle.numbered_branches.specs.Branches.{fact_at, made_at, IsMadeOver};
ghost use Rattle.numbered_branches.specs.Replacing.{IsReplacing, IsPassed};
ghost use Rattle.numbered_instances.specs.Near.{having, AreWithout};
ghost use Rattle.numbered_instances.specs.Shared.{has_atom, AreShared};

use crate::shared::Shared;
use logic_core::NormalFault;
use numbered_branches::branch::Fact;
use numbered_branches::played::Made;
use numbered_branches::replacing::{Replacing, change_between};
use numbered_facts::Store;
use numbered_facts::inside::is_atom;
use numbered_terms::number_set::is_among;
use term_bank::TermId;

// So many facts, from the first on, are looked at.
const NEAR: usize = 8;

// Places: all facts in which something occurs stand from the first on, and before the second.
#[derive(Clone, Copy)]
struct Places {
    from: usize,
    until: usize,
}

// Whether the atom is found in the fact. It isn't where the fact's atoms aren't kept.
fn is_found(store: &Store, left: TermId, fact: &Fact) -> bool
    requires { left < length store.now.terms }
    ensures { result ≡ true → has_atom store.now.terms left fact.now.term ≡ true }
{
    match store.kept_atoms(fact.term) {
        Some(atoms) => is_among(left, atoms),
        None => false,
    }
}

// One more than so many, where the atom is found in the fact.
fn with_found(store: &Store, left: TermId, fact: &Fact, count: usize) -> usize
    requires { left < length store.now.terms }
    ensures { result ≤ count + cond (has_atom store.now.terms left fact.now.term) 1 0 }
{
    if is_found(store, left, fact) {
        return count.saturating_add(1);
    }
    count
}

// The place behind so many facts with the atom, of those from a place on, where they are near it.
fn place_behind(
    store: &Store,
    facts: &[Fact],
    from: usize,
    left: TermId,
    count: usize,
) -> Option<usize>
    requires left { left < length store.now.terms }
    requires from { from ≤ length facts.now }
    ensures order { IfSome result (λ k. from ≤ k) }
    ensures within { IfSome result (λ k. k ≤ length facts.now) }
    ensures found { IfSome result (λ k. having store.now.terms left (take from facts.now) + (count + having store.now.terms left (drop k facts.now)) ≤ having store.now.terms left facts.now) }
{
    if count > NEAR {
        return None;
    }
    let until = facts.len().min(from.saturating_add(NEAR));
    let mut found = 0;
    for place in from..until {
        let more = with_found(store, left, &facts[place], found);
        if more == count {
            return Some(place + 1);
        }
        found = more;
    }
    None
}

// Between which places the facts stand in which the term occurs: where it is an atom, and all facts with
// it are near the place. The atoms of the facts are counted.
fn places_of(store: &Store, shared: &Shared, facts: &[Fact], place: usize, left: TermId) -> Places
    requires left { left < length store.now.terms }
    requires shared { AreShared store.now.terms (map (λ f. f.term) facts.now) shared.now.counts.items }
    ensures order { result.from ≤ result.until }
    ensures within { result.until ≤ length facts.now }
    ensures front { AreWithout (at store.now.terms left) (take result.from (map (fact_at store.now.terms) facts.now)) }
    ensures rest { AreWithout (at store.now.terms left) (drop result.until (map (fact_at store.now.terms) facts.now)) }
{
    let over = store.terms();
    over.are_stored();
    let from = place.min(facts.len());
    if is_atom(over, left) {
        if let Some(until) = place_behind(store, facts, from, left, shared.count(left)) {
            return Places { from, until };
        }
    }
    Places {
        from: 0,
        until: facts.len(),
    }
}

// The facts.
fn facts_in(made: &Made) -> &[Fact]
    ensures { result.now ≡ made.now.branch.facts }
{
    &made.branch.facts
}

/// The term is replaced in each fact in which it is to be, one fact after another, where it is to be in
/// none in which it doesn't occur. The atoms of the facts are counted, and facts with it are looked for
/// near the place. Wide exactly where a normal form leaves 128 bits.
pub(crate) fn change_near(
    store: &mut Store,
    shared: &Shared,
    made: &mut Made,
    replacing: &Replacing,
    place: usize,
) -> Result<(), NormalFault>
    requires made { IsMadeOver store.old.terms made.old }
    requires vars { store.old.vars ≡ made.old.branch.vars }
    requires replacing { IsReplacing store.old.terms replacing.now }
    requires passed { (f : BranchFact) → occurs (at store.old.terms replacing.now.left) f.term ≡ false → IsPassed store.old.terms replacing.now f }
    requires shared { AreShared store.old.terms (map (λ f. f.term) made.old.branch.facts) shared.now.counts.items }
    ensures grows { Grows store.old store.new }
    ensures made { OnOk result (IsMadeOver store.new.terms made.new) }
    ensures vars { OnOk result (store.new.vars ≡ made.new.branch.vars) }
    ensures gives { GivesAs (λ _. made_at store.new.terms made.new) result (replaced_each store.old.defs replacing.now.ground (at store.old.terms replacing.now.left) (at store.old.terms replacing.now.right) (made_at store.old.terms made.old)) }
{
    let places = places_of(store, shared, facts_in(made), place, replacing.left);
    change_between(store, made, replacing, places.from, places.until)
}
