// Facts of a branch of numbers, added and changed: each function stands for the change of terms of the
// same name.
ghost use Rattle.std.specs.Prelude.{◌≡◌, ◌<◌, ◌≤◌, ◌+◌, ◌^◌, ◌-◌, [], ◌∷◌, ◌++◌, length, take, drop, map, IfOk, OnOk};
ghost use Rattle.std.specs.List.{AllByRecursion};
ghost use Rattle.logic_core.specs.Tighten.{tighten};
ghost use Rattle.tableau_branch.specs.Change as change;
ghost use Rattle.term_bank.specs.Numbered.{at};
ghost use Rattle.numbered_terms.specs.At.{IsAt};
ghost use Rattle.numbered_branches.specs.Branches.{IsFactBelow, IsMadeOver, fact_at, made_at, is_there};
ghost use Rattle.numbered_branches.specs.NumberedChange.{added, added_each, kept, changed_at, tightened, with_next, with_steps};
ghost use Rattle.numbered_branches.specs.Seen.{seen_of, tight_as};
ghost use Rattle.numbered_branches.specs.Standing.{IsFactAt, IsMadeAt};
ghost use Rattle.numbered_branches.specs.StepView.{step_seen};

use crate::branch::Fact;
use crate::played::Made;
use crate::step::Step;
use numbered_forms::junction::is_truth;
use numbered_terms::Terms;
use std::alloc::AllocError;
use term_bank::TermId;

/// Whether the term of this number is one of the facts.
pub fn is_there(id: TermId, facts: &[Fact]) -> bool
    ensures { result ≡ is_there id facts.now }
{
    for fact in facts {
        if id == fact.term {
            return true;
        }
    }
    false
}

/// Takes the next numbers of the proof's facts, so many; the first of them. Facts are counted in 64
/// bits; past that there is no number, as there is no memory for so many.
pub fn take_numbers(made: &mut Made, count: u64) -> Result<u64, AllocError>
    ensures number { IfOk result (λ n. n ≡ made.old.branch.next) }
    ensures fits { IfOk result (λ n. n + count ≤ 2 ^ 64 - 1) }
    ensures rest { OnOk result (made.new ≡ with_next (made.old.branch.next + count) made.old) }
{
    let number = made.branch.next;
    made.branch.next = number.checked_add(count).ok_or(AllocError)?;
    Ok(number)
}

/// The node comes next.
pub fn add_step(made: &mut Made, step: Step) -> Result<(), AllocError>
    ensures { OnOk result (made.new ≡ with_steps (step_seen step ∷ []) made.old.branch.next made.old) }
{
    made.steps.push(step)?;
    Ok(())
}

// The new fact of this number, whose term tightened is the second one.
#[tactic(auto, using(crate::proofs::Steps::nothing_more))]
fn put_tightened(
    made: &mut Made,
    number: u64,
    term: TermId,
    tight: TermId,
) -> Result<Fact, AllocError>
    ensures fact { IfOk result (λ f. f ≡ (tightened (tight_as tight) number made.old.branch.next term).fact) }
    ensures made { OnOk result (let r = tightened (tight_as tight) number made.old.branch.next term in made.new ≡ with_steps r.steps r.next made.old) }
{
    if tight == term {
        return Ok(Fact { term, number });
    }
    let next = take_numbers(made, 1)?;
    made.steps.push(Step::Tighten(number))?;
    Ok(Fact {
        term: tight,
        number: next,
    })
}

/// The new fact of this number, whose term tightened is the second one. Where that is another, one
/// more node follows, whose result, the next fact, it is.
pub fn add_tightened(
    terms: &Terms,
    made: &mut Made,
    number: u64,
    term: TermId,
    tight: TermId,
) -> Result<Fact, AllocError>
    requires term { term < length terms.now }
    requires tight { IsAt terms.now tight (tighten (at terms.now term)) }
    requires made { IsMadeOver terms.now made.old }
    ensures fact { IfOk result (λ f. IsFactAt terms.now f (change.tightened number made.old.branch.next (at terms.now term)).fact) }
    ensures made { OnOk result (let r = change.tightened number made.old.branch.next (at terms.now term) in IsMadeAt terms.now made.new (change.with_steps r.steps r.next (made_at terms.now made.old))) }
{
    terms.are_stored();
    put_tightened(made, number, term, tight)
}

// The fact is added, unless it is true or there.
fn push_new(terms: &Terms, made: &mut Made, fact: &Fact) -> Result<(), AllocError>
    requires { IsFactBelow (length terms.now) fact.now }
    ensures { OnOk result (made.new ≡ added (seen_of terms.now) fact.now made.old) }
{
    if is_truth(terms, fact.term, true) || is_there(fact.term, &made.branch.facts) {
        return Ok(());
    }
    made.size = made.size.saturating_add(terms.size(fact.term));
    made.branch.facts.push(*fact)?;
    Ok(())
}

/// Adds a fact, unless it is true or there already.
pub fn add(terms: &Terms, made: &mut Made, fact: &Fact) -> Result<(), AllocError>
    requires fact { IsFactBelow (length terms.now) fact.now }
    requires made { IsMadeOver terms.now made.old }
    ensures { OnOk result (IsMadeAt terms.now made.new (change.added (fact_at terms.now fact.now) (made_at terms.now made.old))) }
{
    terms.are_stored();
    push_new(terms, made, fact)
}

// Adds facts, in order.
fn push_each(terms: &Terms, made: &mut Made, facts: &[Fact]) -> Result<(), AllocError>
    requires { AllByRecursion (IsFactBelow (length terms.now)) facts.now }
    ensures { OnOk result (made.new ≡ added_each (seen_of terms.now) facts.now made.old) }
{
    for fact in facts {
        push_new(terms, made, fact)?;
    }
    Ok(())
}

/// Adds facts, in order.
pub fn add_each(terms: &Terms, made: &mut Made, facts: &[Fact]) -> Result<(), AllocError>
    requires facts { AllByRecursion (IsFactBelow (length terms.now)) facts.now }
    requires made { IsMadeOver terms.now made.old }
    ensures { OnOk result (IsMadeAt terms.now made.new (change.added_each (map (fact_at terms.now) facts.now) (made_at terms.now made.old))) }
{
    terms.are_stored();
    push_each(terms, made, facts)
}

/// The fact goes.
pub fn take_out(facts: &mut Vec<Fact>, at: usize)
    requires { at < length facts.old.items }
    ensures { facts.new.items ≡ take at facts.old.items ++ drop (at + 1) facts.old.items }
{
    facts.remove(at);
}

// The fact at this place becomes another.
fn put(facts: &mut Vec<Fact>, at: usize, fact: &Fact)
    requires { at < length facts.old.items }
    ensures { facts.new.items ≡ (take at facts.old.items ++ fact.now ∷ []) ++ drop (at + 1) facts.old.items }
{
    facts[at] = *fact;
}

// The fact at this place becomes another, and goes where that is true or there. The place of the fact
// that comes next.
fn put_or_take_out(terms: &Terms, made: &mut Made, at: usize, fact: &Fact) -> usize
    requires at { at < length made.old.branch.facts }
    requires fact { IsFactBelow (length terms.now) fact.now }
    ensures made { made.new ≡ changed_at (seen_of terms.now) at fact.now made.old }
    ensures before { take result made.new.branch.facts ≡ kept (seen_of terms.now) (take at made.old.branch.facts) fact.now (drop (at + 1) made.old.branch.facts) }
    ensures behind { drop result made.new.branch.facts ≡ drop (at + 1) made.old.branch.facts }
    ensures within { result ≤ length made.new.branch.facts }
{
    made.size = made.size.saturating_add(terms.size(fact.term));
    let goes = is_truth(terms, fact.term, true)
        || is_there(fact.term, &made.branch.facts[..at])
        || is_there(fact.term, &made.branch.facts[at + 1..]);
    if goes {
        take_out(&mut made.branch.facts, at);
        return at;
    }
    put(&mut made.branch.facts, at, fact);
    at + 1
}

/// Puts a changed fact in the place of the one at `at`. It goes away where it is true or equals
/// another. The place of the fact that comes next.
pub fn change_at(terms: &Terms, made: &mut Made, at: usize, fact: &Fact) -> usize
    requires at { at < length made.old.branch.facts }
    requires fact { IsFactBelow (length terms.now) fact.now }
    requires made { IsMadeOver terms.now made.old }
    ensures made { IsMadeAt terms.now made.new (change.changed_at at (fact_at terms.now fact.now) (made_at terms.now made.old)) }
    ensures before { map (fact_at terms.now) (take result made.new.branch.facts) ≡ change.kept (take at (map (fact_at terms.now) made.old.branch.facts)) (fact_at terms.now fact.now) (drop (at + 1) (map (fact_at terms.now) made.old.branch.facts)) }
    ensures behind { drop result made.new.branch.facts ≡ drop (at + 1) made.old.branch.facts }
    ensures within { result ≤ length made.new.branch.facts }
{
    terms.are_stored();
    put_or_take_out(terms, made, at, fact)
}
