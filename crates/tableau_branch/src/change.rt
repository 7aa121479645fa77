// Facts that a step adds and changes.
ghost use Rattle.std.specs.Prelude.{◌≡◌, ◌<◌, ◌+◌, ◌-◌, ◌^◌, [], ◌∷◌, ◌++◌, OnOk, IfOk, length, take, drop, ◌≤◌};
ghost use Rattle.proof_core.specs.View.{step_of};
ghost use Rattle.tableau_branch.specs.Change.{added, kept, changed_at, with_steps, tightened, appended_one, appended_two};
ghost use Rattle.tableau_branch.specs.View.{with_next};

use crate::branch::Made;
use crate::fact::{Fact, is_there};
use linear_certs::tightening::tighten;
use logic_core::term::Term;
use proof_core::proof::Step;
use std::alloc::{AllocError, Global};
use std::mem;

/// Takes the next numbers of the proof's facts, so many; the first of them. Facts are counted in 64
/// bits; past that there is no number, as there is no memory for so many.
pub fn take_numbers(made: &mut Made, count: u64) -> Result<u64, AllocError>
    ensures number { IfOk result (λ n. n ≡ made.old.branch.next) }
    ensures fits { IfOk result (λ n. n + count ≤ 2 ^ 64 - 1) }
    ensures rest { OnOk result (made.new ≡ with_next (made.old.branch.next + count) made.old) }
{
    let number = made.branch.next;
    made.branch.next = number.checked_add(count).ok_or(AllocError)?;
    Ok(number)
}

/// The new fact of this number. Where tightening changes it, one more node follows, whose result, the
/// next fact, it is.
#[tactic(auto, using(crate::proofs::Steps::nothing_more))]
pub fn tightened(
    alloc: Global,
    made: &mut Made,
    number: u64,
    term: Term,
) -> Result<Fact, AllocError>
    ensures fact { IfOk result (λ f. f ≡ (tightened number made.old.branch.next term).fact) }
    ensures made { OnOk result (let r = tightened number made.old.branch.next term in made.new ≡ with_steps r.steps r.next made.old) }
{
    let tight = tighten(alloc, &term)?;
    if tight.equals(&term) {
        return Fact::new(alloc, term, number);
    }
    let next = take_numbers(made, 1)?;
    made.steps.push(Step::Tighten(number))?;
    Fact::new(alloc, tight, next)
}

/// The fact that the last node appends.
pub fn append_one(alloc: Global, made: &mut Made, term: Term) -> Result<Fact, AllocError>
    ensures fact { IfOk result (λ f. f ≡ (appended_one [] term made.old).0) }
    ensures made { OnOk result (made.new ≡ (appended_one [] term made.old).1) }
{
    let number = take_numbers(made, 1)?;
    tightened(alloc, made, number, term)
}

/// The fact that this node appends.
#[tactic(auto, using(crate::proofs::Steps::one_step_more))]
pub fn append_by(alloc: Global, made: &mut Made, step: Step, term: Term) -> Result<Fact, AllocError>
    ensures fact { IfOk result (λ f. f ≡ (appended_one (step_of step ∷ []) term made.old).0) }
    ensures made { OnOk result (made.new ≡ (appended_one (step_of step ∷ []) term made.old).1) }
{
    made.steps.push(step)?;
    append_one(alloc, made, term)
}

/// The two facts with which a node's child begins.
pub fn append_two(
    alloc: Global,
    made: &mut Made,
    first: Term,
    second: Term,
) -> Result<(Fact, Fact), AllocError>
    ensures first { IfOk result (λ p. p.0 ≡ (appended_two first second made.old).0) }
    ensures second { IfOk result (λ p. p.1 ≡ (appended_two first second made.old).1) }
    ensures made { OnOk result (made.new ≡ (appended_two first second made.old).2) }
{
    let number = take_numbers(made, 2)?;
    let first = tightened(alloc, made, number, first)?;
    let second = tightened(alloc, made, number + 1, second)?;
    Ok((first, second))
}

/// Adds a fact, unless it is true or there already.
pub fn add(made: &mut Made, fact: Fact) -> Result<(), AllocError>
    ensures { OnOk result (made.new ≡ added fact made.old) }
{
    if fact.term().is_truth(true) || is_there(fact.sized(), &made.branch.facts) {
        discard(fact);
        return Ok(());
    }
    made.size = made.size.saturating_add(fact.size());
    made.branch.facts.push(fact)?;
    Ok(())
}

/// Lets a fact go.
fn discard(_fact: Fact) {}

/// Takes the fact at `at` out.
pub fn take_out(facts: &mut Vec<Fact>, at: usize)
    requires { at < length facts.old.items }
    ensures { facts.new.items ≡ take at facts.old.items ++ drop (at + 1) facts.old.items }
{
    discard(facts.remove(at));
}

/// Puts a fact in the place of the one at `at`.
fn put(facts: &mut Vec<Fact>, at: usize, fact: Fact)
    requires { at < length facts.old.items }
    ensures { facts.new.items ≡ (take at facts.old.items ++ fact ∷ []) ++ drop (at + 1) facts.old.items }
{
    discard(mem::replace(&mut facts[at], fact));
}

/// Puts a changed fact in the place of the one at `at`. It goes away where it is true or equals
/// another. The place of the fact that comes next.
pub fn change_at(made: &mut Made, at: usize, fact: Fact) -> usize
    requires { at < length made.old.branch.facts }
    ensures made { made.new ≡ changed_at at fact made.old }
    ensures before { take result made.new.branch.facts ≡ kept (take at made.old.branch.facts) fact (drop (at + 1) made.old.branch.facts) }
    ensures behind { drop result made.new.branch.facts ≡ drop (at + 1) made.old.branch.facts }
    ensures within { result ≤ length made.new.branch.facts }
{
    made.size = made.size.saturating_add(fact.size());
    let goes = fact.term().is_truth(true)
        || is_there(fact.sized(), &made.branch.facts[..at])
        || is_there(fact.sized(), &made.branch.facts[at + 1..]);
    if goes {
        take_out(&mut made.branch.facts, at);
        discard(fact);
        return at;
    }
    put(&mut made.branch.facts, at, fact);
    at + 1
}
