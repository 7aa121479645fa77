// Facts that nodes append to a branch of numbers: each function stands for the change of terms of the
// same name.
ghost use Rattle.std.specs.Prelude.{◌≡◌, ◌<◌, ◌≤◌, ◌+◌, ◌^◌, ◌-◌, [], ◌∷◌, length, map, IfOk, OnOk};
ghost use Rattle.std.specs.List.{AllByRecursion};
ghost use Rattle.tableau_branch.specs.Change.{tightened, tightened_each, appended, appended_one, appended_two, with_steps};
ghost use Rattle.term_bank.specs.Numbered.{at};
ghost use Rattle.numbered_terms.specs.Stored.{Grows};
ghost use Rattle.numbered_branches.specs.Branches.{IsStepBelow, IsMadeOver, made_at, step_at};
ghost use Rattle.numbered_branches.specs.Standing.{IsFactAt, AreFactsAt, IsMadeAt};
ghost use Rattle.numbered_branches.specs.StepView.{step_seen};

use crate::branch::Fact;
use crate::change::{add_step, add_tightened, take_numbers};
use crate::played::Made;
use crate::step::Step;
use numbered_facts::Store;
use std::alloc::AllocError;
use term_bank::TermId;

// The new fact of this number. Where tightening changes it, one more node follows, whose result, the
// next fact, it is.
fn tightened(
    store: &mut Store,
    made: &mut Made,
    number: u64,
    term: TermId,
) -> Result<Fact, AllocError>
    requires term { term < length store.old.terms }
    requires made { IsMadeOver store.old.terms made.old }
    ensures grows { Grows store.old store.new }
    ensures fact { IfOk result (λ f. IsFactAt store.new.terms f (tightened number made.old.branch.next (at store.old.terms term)).fact) }
    ensures made { OnOk result (let r = tightened number made.old.branch.next (at store.old.terms term) in IsMadeAt store.new.terms made.new (with_steps r.steps r.next (made_at store.old.terms made.old))) }
{
    let tight = store.tightened(term)?;
    add_tightened(store.terms(), made, number, term, tight)
}

/// The fact that the last node appends.
pub fn append_one(store: &mut Store, made: &mut Made, term: TermId) -> Result<Fact, AllocError>
    requires term { term < length store.old.terms }
    requires made { IsMadeOver store.old.terms made.old }
    ensures grows { Grows store.old store.new }
    ensures fact { IfOk result (λ f. IsFactAt store.new.terms f (appended_one [] (at store.old.terms term) (made_at store.old.terms made.old)).0) }
    ensures made { OnOk result (IsMadeAt store.new.terms made.new (appended_one [] (at store.old.terms term) (made_at store.old.terms made.old)).1) }
{
    let number = take_numbers(made, 1)?;
    tightened(store, made, number, term)
}

/// The fact that this node appends.
pub fn append_by(
    store: &mut Store,
    made: &mut Made,
    step: Step,
    term: TermId,
) -> Result<Fact, AllocError>
    requires term { term < length store.old.terms }
    requires step { IsStepBelow (length store.old.terms) (step_seen step) }
    requires made { IsMadeOver store.old.terms made.old }
    ensures grows { Grows store.old store.new }
    ensures fact { IfOk result (λ f. IsFactAt store.new.terms f (appended_one (step_at store.old.terms (step_seen step) ∷ []) (at store.old.terms term) (made_at store.old.terms made.old)).0) }
    ensures made { OnOk result (IsMadeAt store.new.terms made.new (appended_one (step_at store.old.terms (step_seen step) ∷ []) (at store.old.terms term) (made_at store.old.terms made.old)).1) }
{
    add_step(made, step)?;
    append_one(store, made, term)
}

/// The two facts with which a node's child begins.
pub fn append_two(
    store: &mut Store,
    made: &mut Made,
    first: TermId,
    second: TermId,
) -> Result<(Fact, Fact), AllocError>
    requires first { first < length store.old.terms }
    requires second { second < length store.old.terms }
    requires made { IsMadeOver store.old.terms made.old }
    ensures grows { Grows store.old store.new }
    ensures first { IfOk result (λ p. IsFactAt store.new.terms p.0 (appended_two (at store.old.terms first) (at store.old.terms second) (made_at store.old.terms made.old)).0) }
    ensures second { IfOk result (λ p. IsFactAt store.new.terms p.1 (appended_two (at store.old.terms first) (at store.old.terms second) (made_at store.old.terms made.old)).1) }
    ensures made { OnOk result (IsMadeAt store.new.terms made.new (appended_two (at store.old.terms first) (at store.old.terms second) (made_at store.old.terms made.old)).2) }
{
    let number = take_numbers(made, 2)?;
    let first = tightened(store, made, number, first)?;
    let second = tightened(store, made, number + 1, second)?;
    Ok((first, second))
}

// New facts with the numbers from this one on.
fn tightened_each(
    store: &mut Store,
    made: &mut Made,
    number: u64,
    terms: &[TermId],
) -> Result<Vec<Fact>, AllocError>
    requires fits { number + length terms.now ≤ 2 ^ 64 - 1 }
    requires terms { AllByRecursion (λ i. i < length store.old.terms) terms.now }
    requires made { IsMadeOver store.old.terms made.old }
    ensures grows { Grows store.old store.new }
    ensures facts { IfOk result (λ v. AreFactsAt store.new.terms v.items (tightened_each number made.old.branch.next (map (at store.old.terms) terms.now)).facts) }
    ensures made { OnOk result (let r = tightened_each number made.old.branch.next (map (at store.old.terms) terms.now) in IsMadeAt store.new.terms made.new (with_steps r.steps r.next (made_at store.old.terms made.old))) }
{
    let mut facts = Vec::new(store.alloc());
    let mut number = number;
    for term in terms {
        let fact = tightened(store, made, number, *term)?;
        facts.push(fact)?;
        number += 1;
    }
    Ok(facts)
}

// The facts that the last node appends.
fn append_all(store: &mut Store, made: &mut Made, terms: &[TermId]) -> Result<Vec<Fact>, AllocError>
    requires terms { AllByRecursion (λ i. i < length store.old.terms) terms.now }
    requires made { IsMadeOver store.old.terms made.old }
    ensures grows { Grows store.old store.new }
    ensures facts { IfOk result (λ v. AreFactsAt store.new.terms v.items (appended [] (map (at store.old.terms) terms.now) (made_at store.old.terms made.old)).0) }
    ensures made { OnOk result (IsMadeAt store.new.terms made.new (appended [] (map (at store.old.terms) terms.now) (made_at store.old.terms made.old)).1) }
{
    let number = take_numbers(made, terms.len() as u64)?;
    tightened_each(store, made, number, terms)
}

/// The facts that this node appends.
pub fn append_each(
    store: &mut Store,
    made: &mut Made,
    step: Step,
    terms: &[TermId],
) -> Result<Vec<Fact>, AllocError>
    requires terms { AllByRecursion (λ i. i < length store.old.terms) terms.now }
    requires step { IsStepBelow (length store.old.terms) (step_seen step) }
    requires made { IsMadeOver store.old.terms made.old }
    ensures grows { Grows store.old store.new }
    ensures facts { IfOk result (λ v. AreFactsAt store.new.terms v.items (appended (step_at store.old.terms (step_seen step) ∷ []) (map (at store.old.terms) terms.now) (made_at store.old.terms made.old)).0) }
    ensures made { OnOk result (IsMadeAt store.new.terms made.new (appended (step_at store.old.terms (step_seen step) ∷ []) (map (at store.old.terms) terms.now) (made_at store.old.terms made.old)).1) }
{
    add_step(made, step)?;
    append_all(store, made, terms)
}
