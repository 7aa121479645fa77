// A term replaced in facts, one after another.
ghost use Rattle.std.specs.Prelude.{◌≡◌, ◌<◌, ◌≤◌, ◌+◌, ◌-◌, ◌^◌, IfOk, IfErr, Some, None, length, option_map, slice_get};
ghost use Rattle.logic_core.specs.Gives.{GivesAs};
ghost use Rattle.proof_core.specs.View.{step_of};
ghost use Rattle.term_bank.specs.Hash.{hash_of};
ghost use Rattle.tableau_branch.specs.Replacing.{picks_on, node_on, replaced_in, replaced_from, replaced_each};

use logic_core::def::Def;
use logic_core::fault::NormalFault;
use logic_core::sort::Sort;
use logic_core::term::Term;
use proof_core::proof::Step;
use std::alloc::{AllocError, Global};
use tableau_branch::branch::Made;
use tableau_branch::change::{append_by, change_at};
use tableau_branch::changing::Ground;
use tableau_branch::fact::Fact;
use tableau_branch::forms::replaced_form;
use term_bank::hash::hash;

/// A term, what takes its place, and why.
#[derive(Drop)]
pub struct Replacing<'a> {
    pub ground: Ground,
    pub left: &'a Term,
    pub right: &'a Term,
}

impl<'a> Replacing<'a> {
    /// Whether the term, whose hash this is, is to be replaced in the fact.
    fn picks(&self, hash: u64, fact: &Fact) -> bool
        requires { hash ≡ hash_of self.now.left.now }
        ensures { result ≡ picks_on self.now.ground self.now.left.now fact.now }
    {
        match self.ground {
            Ground::Fact(number) => number != fact.number() && fact.holds(self.left, hash),
            Ground::Equation(_) => fact.holds(self.left, hash),
            Ground::Access => self.left.stands_in(fact.term()),
        }
    }

    /// The node that changes the fact.
    fn node(&self, alloc: Global, fact: &Fact) -> Result<Step, AllocError>
        ensures { IfOk result (λ s. step_of s ≡ node_on self.now.ground self.now.left.now fact.now) }
    {
        let left = self.left.copy(alloc)?;
        match self.ground {
            Ground::Fact(by) | Ground::Equation(by) => {
                Ok(Step::Replace {
                    fact: fact.number(),
                    by,
                    term: left,
                })
            }
            Ground::Access => Ok(Step::Back {
                fact: fact.number(),
                term: left,
            }),
        }
    }

    /// The node that changes the fact, and the fact's new normal form; None where the term, whose hash
    /// this is, isn't to be replaced in it. Wide exactly where the normal form leaves 128 bits.
    fn replace_in(
        &self,
        alloc: Global,
        vars: &[Sort],
        defs: &[Def],
        hash: u64,
        fact: &Fact,
    ) -> Result<Option<(Step, Term)>, NormalFault>
        requires { hash ≡ hash_of self.now.left.now }
        ensures { GivesAs (λ o. option_map (λ p. (step_of p.0, p.1)) o) result (replaced_in defs.now self.now.ground self.now.left.now self.now.right.now vars.now fact.now) }
    {
        if !self.picks(hash, fact) {
            return Ok(None);
        }
        let step = self.node(alloc, fact)?;
        let term = replaced_form(alloc, vars, defs, fact.term(), self.left, self.right)?;
        Ok(Some((step, term)))
    }
}

/// The fact at `at`, after which there is a next place.
fn fact_at(facts: &[Fact], at: usize) -> &Fact
    requires { at < length facts.now }
    ensures got { slice_get facts.now at ≡ Some result.now }
    ensures next { at + 1 ≤ 2 ^ 64 - 1 }
{
    let fact = &facts[at];
    fact
}

/// The facts.
fn facts(made: &Made) -> &[Fact]
    ensures { result.now ≡ made.now.branch.facts }
{
    &made.branch.facts
}

/// The sorts of the variables.
fn variables(made: &Made) -> &[Sort]
    ensures { result.now ≡ made.now.branch.vars }
{
    &made.branch.vars
}

/// Where the term, whose hash this is, is to be replaced in the fact at `at`, it is. The place of the fact that comes next.
/// Wide exactly where the normal form leaves 128 bits.
fn change_next(
    alloc: Global,
    defs: &[Def],
    made: &mut Made,
    at: usize,
    replacing: &Replacing,
    hash: u64,
) -> Result<usize, NormalFault>
    requires there { at < length made.old.branch.facts }
    requires hash { hash ≡ hash_of replacing.now.left.now }
    ensures gives { IfOk result (λ k. replaced_from defs.now replacing.now.ground replacing.now.left.now replacing.now.right.now made.new k ≡ replaced_from defs.now replacing.now.ground replacing.now.left.now replacing.now.right.now made.old at) }
    ensures wide { IfErr result (λ e. e ≡ NormalFault.Wide → replaced_from defs.now replacing.now.ground replacing.now.left.now replacing.now.right.now made.old at ≡ None) }
    ensures within { IfOk result (λ k. k ≤ length made.new.branch.facts) }
    ensures nearer { IfOk result (λ k. length made.new.branch.facts - k < length made.old.branch.facts - at) }
{
    let fact = fact_at(facts(made), at);
    match replacing.replace_in(alloc, variables(made), defs, hash, fact)? {
        Some((step, term)) => {
            let changed = append_by(alloc, made, step, term)?;
            Ok(change_at(made, at, changed))
        }
        None => Ok(at + 1),
    }
}

/// The term is replaced in each fact in which it is to be, one fact after another. Wide exactly where
/// a normal form leaves 128 bits.
pub fn change_each(
    alloc: Global,
    defs: &[Def],
    made: &mut Made,
    replacing: &Replacing,
) -> Result<(), NormalFault>
    ensures { GivesAs (λ _. made.new) result (replaced_each defs.now replacing.now.ground replacing.now.left.now replacing.now.right.now made.old) }
{
    let hash = hash(replacing.left);
    let mut at: usize = 0;
    while at < made.branch.facts.len() {
        at = change_next(alloc, defs, made, at, replacing, hash)?;
    }
    Ok(())
}
