// A term replaced in facts by number, one fact after another.
ghost use Rattle.std.specs.Prelude.{◌≡◌, ◌<◌, ◌≤◌, ◌+◌, ◌-◌, ◌^◌, ℕ, nat_eq, true, Some, None, List, length, map, take, drop, slice_get, IfOk, IfErr, OnOk};
ghost use Rattle.logic_core.specs.Tree.{Tree};
ghost use Rattle.std.specs.List.{list_any, AllByRecursion};
ghost use Rattle.logic_core.specs.Gives.{GivesAs};
ghost use Rattle.proof_core.specs.Split.{stands_in};
ghost use Rattle.tableau_branch.specs.Oriented.{is_application};
ghost use Rattle.tableau_branch.specs.Replacing.{picks_on, node_on, replaced_in, replaced_each};
ghost use Rattle.term_bank.specs.Numbered.{at};
ghost use Rattle.numbered_terms.specs.Stored.{Grows};
ghost use Rattle.numbered_branches.specs.Branches.{fact_at, made_at, step_at, IsFactBelow, IsStepBelow, IsMadeOver};
ghost use Rattle.numbered_branches.specs.StepView.{step_seen};
ghost use Rattle.numbered_branches.specs.Replacing.{IsReplacing, IsPassed, is_plain, changed_on, ChangesTo};

use crate::append::append_by;
use crate::branch::Fact;
use crate::change::change_at;
use crate::passing::{is_passed, is_plain};
use crate::played::Made;
use crate::step::Step;
use logic_core::NormalFault;
use numbered_facts::Store;
use numbered_terms::number_set::is_among;
use std::alloc::AllocError;
use tableau_branch::changing::Ground;
use term_bank::TermId;

/// A term, what takes its place, and why.
#[derive(Clone, Copy)]
pub struct Replacing {
    pub ground: Ground,
    pub left: TermId,
    pub right: TermId,
}

// Whether the Read or Call stands in the fact outside quantifiers.
fn stands_in(store: &mut Store, part: TermId, fact: TermId) -> Result<bool, AllocError>
    requires part { part < length store.old.terms }
    requires fact { fact < length store.old.terms }
    requires application { is_application (at store.old.terms part) ≡ true }
    ensures grows { Grows store.old store.new }
    ensures stands { IfOk result (λ b. b ≡ stands_in (at store.old.terms part) (at store.old.terms fact)) }
{
    store.terms().are_stored();
    if let Some(ids) = store.kept_ground(fact) {
        return Ok(is_among(part, ids));
    }
    let ids = store.ground(fact)?;
    store.terms().are_stored();
    Ok(is_among(part, &ids))
}

impl Replacing {
    // Whether the term is to be replaced in the fact.
    fn picks(&self, store: &mut Store, fact: &Fact) -> Result<bool, AllocError>
        requires replacing { IsReplacing store.old.terms self.now }
        requires fact { IsFactBelow (length store.old.terms) fact.now }
        ensures grows { Grows store.old store.new }
        ensures picks { IfOk result (λ b. b ≡ picks_on self.now.ground (at store.old.terms self.now.left) (fact_at store.old.terms fact.now)) }
    {
        match self.ground {
            Ground::Fact(number) => {
                if number == fact.number {
                    return Ok(false);
                }
                store.occurs(self.left, fact.term)
            }
            Ground::Equation(_) => store.occurs(self.left, fact.term),
            Ground::Access => stands_in(store, self.left, fact.term),
        }
    }

    // The node that changes the fact.
    fn node(&self, fact: &Fact) -> Step
        ensures node { (ts : List Tree) → step_at ts (step_seen result) ≡ node_on self.now.ground (at ts self.now.left) (fact_at ts fact.now) }
        ensures below { (n : ℕ) → self.now.left < n → IsStepBelow n (step_seen result) }
    {
        match self.ground {
            Ground::Fact(by) | Ground::Equation(by) => {
                Step::Replace {
                    fact: fact.number,
                    by,
                    term: self.left,
                }
            }
            Ground::Access => Step::Back {
                fact: fact.number,
                term: self.left,
            },
        }
    }

    // The fact's new normal form; None where the term isn't to be replaced in it. Wide exactly where the
    // normal form leaves 128 bits.
    fn form_in(&self, store: &mut Store, fact: &Fact) -> Result<Option<TermId>, NormalFault>
        requires replacing { IsReplacing store.old.terms self.now }
        requires fact { IsFactBelow (length store.old.terms) fact.now }
        ensures grows { Grows store.old store.new }
        ensures gives { ChangesTo store.new.terms (node_on self.now.ground (at store.old.terms self.now.left) (fact_at store.old.terms fact.now)) result (replaced_in store.old.defs self.now.ground (at store.old.terms self.now.left) (at store.old.terms self.now.right) store.old.vars (fact_at store.old.terms fact.now)) }
    {
        if !self.picks(store, fact)? {
            return Ok(None);
        }
        let form = store.replaced_form(self.left, self.right, fact.term)?;
        Ok(Some(form))
    }
}

/// The fact at `at`, after which there is a next place.
pub(crate) fn fact_in(made: &Made, at: usize) -> Fact
    requires { at < length made.now.branch.facts }
    ensures got { slice_get made.now.branch.facts at ≡ Some result }
    ensures next { at + 1 ≤ 2 ^ 64 - 1 }
{
    let fact = &made.branch.facts[at];
    *fact
}

// Where the term is to be replaced in the fact at `at`, it is. The place of the fact that comes next.
// Wide exactly where the normal form leaves 128 bits.
fn change_next(
    store: &mut Store,
    made: &mut Made,
    at: usize,
    replacing: &Replacing,
) -> Result<usize, NormalFault>
    requires there { at < length made.old.branch.facts }
    requires made { IsMadeOver store.old.terms made.old }
    requires vars { store.old.vars ≡ made.old.branch.vars }
    requires replacing { IsReplacing store.old.terms replacing.now }
    ensures grows { Grows store.old store.new }
    ensures made { OnOk result (IsMadeOver store.new.terms made.new) }
    ensures vars { OnOk result (store.new.vars ≡ made.new.branch.vars) }
    ensures gives { IfOk result (λ k. changed_on store.new replacing.now made.new k ≡ changed_on store.old replacing.now made.old at) }
    ensures wide { IfErr result (λ e. e ≡ NormalFault.Wide → changed_on store.old replacing.now made.old at ≡ None) }
    ensures behind { IfOk result (λ k. drop k (map (fact_at store.new.terms) made.new.branch.facts) ≡ drop (at + 1) (map (fact_at store.old.terms) made.old.branch.facts)) }
{
    let fact = fact_in(made, at);
    match replacing.form_in(store, &fact)? {
        Some(form) => {
            let changed = append_by(store, made, replacing.node(&fact), form)?;
            Ok(change_at(store.terms(), made, at, &changed))
        }
        None => Ok(at + 1),
    }
}

// The same, where one look may show that the term isn't to be replaced in the fact.
// Wide exactly where the normal form leaves 128 bits.
fn pass_or_change(
    store: &mut Store,
    made: &mut Made,
    at: usize,
    replacing: &Replacing,
    plain: bool,
) -> Result<usize, NormalFault>
    requires there { at < length made.old.branch.facts }
    requires made { IsMadeOver store.old.terms made.old }
    requires vars { store.old.vars ≡ made.old.branch.vars }
    requires replacing { IsReplacing store.old.terms replacing.now }
    requires plain { plain ≡ true → is_plain store.old.terms replacing.now ≡ true }
    ensures grows { Grows store.old store.new }
    ensures made { OnOk result (IsMadeOver store.new.terms made.new) }
    ensures vars { OnOk result (store.new.vars ≡ made.new.branch.vars) }
    ensures gives { IfOk result (λ k. changed_on store.new replacing.now made.new k ≡ changed_on store.old replacing.now made.old at) }
    ensures wide { IfErr result (λ e. e ≡ NormalFault.Wide → changed_on store.old replacing.now made.old at ≡ None) }
    ensures behind { IfOk result (λ k. drop k (map (fact_at store.new.terms) made.new.branch.facts) ≡ drop (at + 1) (map (fact_at store.old.terms) made.old.branch.facts)) }
{
    let fact = fact_in(made, at);
    if is_passed(store, made, replacing, at, &fact, plain) {
        return Ok(at + 1);
    }
    change_next(store, made, at, replacing)
}

/// The term is replaced in each fact in which it is to be, one fact after another, where all of these
/// stand between two places. Wide exactly where a normal form leaves 128 bits.
pub fn change_between(
    store: &mut Store,
    made: &mut Made,
    replacing: &Replacing,
    from: usize,
    until: usize,
) -> Result<(), NormalFault>
    requires made { IsMadeOver store.old.terms made.old }
    requires vars { store.old.vars ≡ made.old.branch.vars }
    requires replacing { IsReplacing store.old.terms replacing.now }
    requires order { from ≤ until }
    requires within { until ≤ length made.old.branch.facts }
    requires front { AllByRecursion (IsPassed store.old.terms replacing.now) (take from (map (fact_at store.old.terms) made.old.branch.facts)) }
    requires rest { AllByRecursion (IsPassed store.old.terms replacing.now) (drop until (map (fact_at store.old.terms) made.old.branch.facts)) }
    ensures grows { Grows store.old store.new }
    ensures made { OnOk result (IsMadeOver store.new.terms made.new) }
    ensures vars { OnOk result (store.new.vars ≡ made.new.branch.vars) }
    ensures gives { GivesAs (λ _. made_at store.new.terms made.new) result (replaced_each store.old.defs replacing.now.ground (at store.old.terms replacing.now.left) (at store.old.terms replacing.now.right) (made_at store.old.terms made.old)) }
{
    let plain = is_plain(store.terms(), replacing);
    let mut at = from;
    for _ in from..until {
        let next = pass_or_change(store, made, at, replacing, plain)?;
        at = next;
    }
    Ok(())
}

// How many facts the branch has.
fn count_facts(made: &Made) -> usize
    ensures { result ≡ length made.now.branch.facts }
{
    made.branch.facts.len()
}

/// The same, wherever they stand.
pub fn change_each(
    store: &mut Store,
    made: &mut Made,
    replacing: &Replacing,
) -> Result<(), NormalFault>
    requires made { IsMadeOver store.old.terms made.old }
    requires vars { store.old.vars ≡ made.old.branch.vars }
    requires replacing { IsReplacing store.old.terms replacing.now }
    ensures grows { Grows store.old store.new }
    ensures made { OnOk result (IsMadeOver store.new.terms made.new) }
    ensures vars { OnOk result (store.new.vars ≡ made.new.branch.vars) }
    ensures gives { GivesAs (λ _. made_at store.new.terms made.new) result (replaced_each store.old.defs replacing.now.ground (at store.old.terms replacing.now.left) (at store.old.terms replacing.now.right) (made_at store.old.terms made.old)) }
{
    let count = count_facts(made);
    change_between(store, made, replacing, 0, count)
}
