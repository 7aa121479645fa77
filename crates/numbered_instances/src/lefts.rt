// The oldest oriented fact whose left side occurs in another fact, by number.
ghost use Rattle.std.specs.Prelude.{◌≡◌, ◌<◌, ◌≤◌, ℕ, Some, length, take, drop, map, slice_get, option_map, IfOk, IfSome, OnOk};
ghost use Rattle.std.specs.List.{AllByRecursion, list_any};
ghost use Rattle.tableau_branch.specs.Branch.{first_from, oldest};
ghost use Rattle.tableau_branch.specs.Replacing.{rewrites};
ghost use Rattle.logic_rules.specs.Rewriting.{left_in_another};
ghost use Rattle.term_bank.specs.Numbered.{at};
ghost use Rattle.numbered_terms.specs.Stored.{Grows};
ghost use Rattle.numbered_facts.specs.Answers.{StandsFor};
ghost use Rattle.numbered_branches.specs.Branches.{IsBranchOver, IsFactBelow, branch_at, fact_at};
ghost use Rattle.numbered_instances.specs.Shared.{AreShared, IsCounted};
ghost use Rattle.numbered_instances.specs.Lefts.{left_at, left_among, IsLeftOver};

use crate::candidates::facts_of;
use crate::shared::Shared;
use numbered_branches::branch::{Branch, Fact};
use numbered_facts::Store;
use std::alloc::AllocError;
use term_bank::TermId;

/// An oriented fact at its place, and its left side.
#[derive(Drop)]
pub struct Left {
    pub at: usize,
    pub fact: Fact,
    pub term: TermId,
}

/// Whether this is another fact than that of the number in the proof, and the term occurs in it.
pub fn rewrites(
    store: &mut Store,
    number: u64,
    left: TermId,
    other: &Fact,
) -> Result<bool, AllocError>
    requires left { left < length store.old.terms }
    requires other { IsFactBelow (length store.old.terms) other.now }
    ensures grows { Grows store.old store.new }
    ensures gives { IfOk result (λ b. b ≡ rewrites number (at store.old.terms left) (fact_at store.old.terms other.now)) }
{
    if number == other.number {
        return Ok(false);
    }
    store.occurs(left, other.term)
}

// Whether the term occurs in another fact than that of the number in the proof.
fn occurs_in_another(
    store: &mut Store,
    number: u64,
    left: TermId,
    facts: &[Fact],
) -> Result<bool, AllocError>
    requires left { left < length store.old.terms }
    requires facts { AllByRecursion (IsFactBelow (length store.old.terms)) facts.now }
    ensures grows { Grows store.old store.new }
    ensures gives { IfOk result (λ b. b ≡ list_any (rewrites number (at store.old.terms left)) (map (fact_at store.old.terms) facts.now)) }
{
    for other in facts {
        if rewrites(store, number, left, other)? {
            return Ok(true);
        }
    }
    Ok(false)
}

// The facts from a place on.
fn behind(facts: &[Fact], place: usize) -> &[Fact]
    requires { place ≤ length facts.now }
    ensures { result.now ≡ drop place facts.now }
{
    &facts[place..]
}

// The facts before a place.
fn front(facts: &[Fact], place: usize) -> &[Fact]
    requires { place ≤ length facts.now }
    ensures { result.now ≡ take place facts.now }
{
    &facts[..place]
}

// Whether the term occurs in another fact than that of the number in the proof. Those from a place on
// are looked at first.
fn occurs_around(
    store: &mut Store,
    number: u64,
    left: TermId,
    facts: &[Fact],
    place: usize,
) -> Result<bool, AllocError>
    requires left { left < length store.old.terms }
    requires facts { AllByRecursion (IsFactBelow (length store.old.terms)) facts.now }
    requires place { place ≤ length facts.now }
    ensures grows { Grows store.old store.new }
    ensures gives { IfOk result (λ b. b ≡ list_any (rewrites number (at store.old.terms left)) (map (fact_at store.old.terms) facts.now)) }
{
    let rest = behind(facts, place);
    if occurs_in_another(store, number, left, rest)? {
        return Ok(true);
    }
    occurs_in_another(store, number, left, front(facts, place))
}

// The left side of an oriented fact that occurs in another of these facts, of which it is one. An atom
// that occurs in the fact alone isn't looked for. The others are looked for from a place on, and then
// before it.
fn left_in_another(
    store: &mut Store,
    shared: &Shared,
    facts: &[Fact],
    place: usize,
    fact: &Fact,
) -> Result<Option<TermId>, AllocError>
    requires place { place ≤ length facts.now }
    requires facts { AllByRecursion (IsFactBelow (length store.old.terms)) facts.now }
    requires there { (i : ℕ) × (slice_get facts.now i ≡ Some fact.now) }
    requires shared { AreShared store.old.terms (map (λ f. f.term) facts.now) shared.now.counts.items }
    ensures grows { Grows store.old store.new }
    ensures gives { IfOk result (λ o. StandsFor store.new.terms o (left_among store.old facts.now (fact_at store.old.terms fact.now))) }
{
    let Some(left) = store.left_side(fact.term)? else {
        return Ok(None);
    };
    store.terms().are_stored();
    if shared.is_alone(left) {
        return Ok(None);
    }
    if occurs_around(store, fact.number, left, facts, place)? {
        return Ok(Some(left));
    }
    Ok(None)
}

// The first of the facts of which there is one, with its place. The atoms of the facts are counted.
fn listed_left(
    store: &mut Store,
    shared: &Shared,
    facts: &[Fact],
) -> Result<Option<Left>, AllocError>
    requires facts { AllByRecursion (IsFactBelow (length store.old.terms)) facts.now }
    requires shared { AreShared store.old.terms (map (λ f. f.term) facts.now) shared.now.counts.items }
    ensures grows { Grows store.old store.new }
    ensures left { IfOk result (λ o. option_map (left_at store.new.terms) o ≡ first_from (left_among store.old facts.now) 0 (map (fact_at store.old.terms) facts.now)) }
    ensures over { IfOk result (λ o. IfSome o (IsLeftOver store.new.terms)) }
{
    for (at, fact) in facts.iter().enumerate() {
        if let Some(term) = left_in_another(store, shared, facts, at, fact)? {
            return Ok(Some(Left {
                at,
                fact: *fact,
                term,
            }));
        }
    }
    Ok(None)
}

/// The oldest oriented fact whose left side occurs in another fact, with its left side.
pub fn oldest_left(
    store: &mut Store,
    shared: &mut Shared,
    branch: &Branch,
) -> Result<Option<Left>, AllocError>
    requires branch { IsBranchOver store.old.terms branch.now }
    requires vars { store.old.vars ≡ branch.now.vars }
    requires counted { IsCounted store.old.terms shared.old }
    ensures grows { Grows store.old store.new }
    ensures left { IfOk result (λ o. option_map (left_at store.new.terms) o ≡ oldest (left_in_another store.old.defs (branch_at store.old.terms branch.now)) (branch_at store.old.terms branch.now)) }
    ensures over { IfOk result (λ o. IfSome o (IsLeftOver store.new.terms)) }
    ensures counted { OnOk result (IsCounted store.new.terms shared.new) }
    ensures listed { OnOk result (shared.new.listed.items ≡ map (λ f. f.term) branch.now.facts) }
{
    let facts = facts_of(branch);
    shared.list(store, facts)?;
    listed_left(store, shared, facts)
}
