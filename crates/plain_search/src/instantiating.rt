// The rule instantiate.
ghost use Rattle.std.specs.Prelude.{◌≡◌, [], ◌∷◌, not, IfOk, OnOk, map, flat_map, find};
ghost use Rattle.std.specs.List.{list_any};
ghost use Rattle.logic_core.specs.Gives.{Gives, GivesAs};
ghost use Rattle.logic_core.specs.Substitute.{substitute};
ghost use Rattle.logic_core.specs.Same.{same_term, same_trees};
ghost use Rattle.logic_core.specs.View.{trees_of, each_items, patterns_of};
ghost use Rattle.tableau_branch.specs.Applied.{Tries};
ghost use Rattle.tableau_branch.specs.Branch.{normal_in};
ghost use Rattle.logic_rules.specs.Instantiating.{each_once, applications_in, ground_terms, mark_of, with_mark, same_mark, is_unmarked, candidates_at, candidates_by, candidates_of, candidates, instantiated_by, instantiate};
ghost use Rattle.proof_core.specs.Proof.{by_instantiate};
ghost use Rattle.proof_core.specs.View.{step_of};
ghost use Rattle.tableau_branch.specs.View.{move_of};

use crate::additions::adding;
use crate::branch_forms::normal_in;
use crate::outside::push_outside;
use logic_core::copy::copy_terms;
use logic_core::def::Def;
use logic_core::fault::NormalFault;
use logic_core::sequence::Sequence;
use logic_core::sort::Sort;
use logic_core::substitute::substitute;
use logic_core::term::{Node, Term};
use proof_core::proof::Step;
use quantifier_triggers::matches_over;
use std::alloc::{AllocError, Global};
use std::marker::Model;
use tableau_branch::branch::{Branch, Mark};
use tableau_branch::fact::Fact;
use tableau_branch::found::Stated;
use tableau_branch::outside::Shape;
use tableau_branch::played::{Attempt, Move};

/// A fact that is a ForAll, its body, and a tuple of one of its triggers.
#[derive(Drop)]
pub struct Candidate {
    pub fact: Stated,
    pub body: Term,
    pub tuple: Sequence<Term>,
}

impl Model for Candidate {
    ghost use Rattle.logic_rules.specs.Instantiating.{Candidate as candidate};
    ghost use Rattle.logic_rules.specs.Codes.{coded_candidate};

    ghost Value = { candidate };

    ghost coded = { coded_candidate };

    ghost view = { λ a. record { fact = a.fact; body = a.body; tuple = a.tuple } };
}

/// Whether the term is among these.
fn is_among(term: &Term, terms: &[Term]) -> bool
    ensures { result ≡ list_any (same_term term.now) terms.now }
{
    for other in terms {
        if term.equals(other) {
            return true;
        }
    }
    false
}

/// The terms, each once.
#[tactic(auto, using(logic_rules::proofs::Instances::once_more))]
pub fn each_once(alloc: Global, mut terms: Vec<Term>) -> Result<Vec<Term>, AllocError>
    ensures { IfOk result (λ v. v.items ≡ each_once [] terms.items) }
{
    let mut seen = Vec::new(alloc);
    terms.reverse();
    while let Some(term) = terms.pop() {
        push_new(&mut seen, term)?;
    }
    Ok(seen)
}

/// The term joins these, unless it is among them.
fn push_new(seen: &mut Vec<Term>, term: Term) -> Result<(), AllocError>
    ensures { OnOk result (seen.new.items ≡ each_once seen.old.items (term ∷ [])) }
{
    if is_among(&term, seen) {
        return Ok(());
    }
    seen.push(term)?;
    Ok(())
}

/// The Read and Call terms of the facts outside quantifiers, oldest fact first, in preorder.
pub fn applications(alloc: Global, facts: &[Fact]) -> Result<Vec<Term>, AllocError>
    ensures { IfOk result (λ v. v.items ≡ flat_map applications_in facts.now) }
{
    let mut terms = Vec::new(alloc);
    for fact in facts {
        push_outside(alloc, Shape::Application, fact.term(), &mut terms)?;
    }
    Ok(terms)
}

/// The terms against which triggers are matched: the applications, then the seen calls, each once.
pub fn ground_terms(alloc: Global, branch: &Branch) -> Result<Vec<Term>, AllocError>
    ensures { IfOk result (λ v. v.items ≡ ground_terms branch.now) }
{
    let mut terms = applications(alloc, &branch.facts)?;
    let mut calls = copy_terms(alloc, &branch.calls)?;
    terms.append(&mut calls)?;
    each_once(alloc, terms)
}

/// Whether the terms are the same, one by one, and as many.
pub fn same_terms(mine: &[Term], theirs: &[Term]) -> bool
    ensures { result ≡ same_trees (trees_of mine.now) (trees_of theirs.now) }
{
    let shared = mine.len().min(theirs.len());
    for i in 0..shared {
        if !mine[i].equals(&theirs[i]) {
            return false;
        }
    }
    mine.len() == theirs.len()
}

/// Whether the mark is that of this fact and tuple.
fn same_mark(mark: &Mark, fact: &Term, tuple: &[Term]) -> bool
    ensures { result ≡ same_mark mark.now (record { fact = fact.now; tuple = tuple.now }) }
{
    mark.fact.equals(fact) && same_terms(mark.tuple.as_slice(), tuple)
}

/// Whether there is no mark of this fact and tuple.
pub fn is_unmarked(branch: &Branch, fact: &Term, tuple: &[Term]) -> bool
    ensures { result ≡ not (list_any (λ m. same_mark m (record { fact = fact.now; tuple = tuple.now })) branch.now.marks) }
{
    for mark in &branch.marks {
        if same_mark(mark, fact, tuple) {
            return false;
        }
    }
    true
}

/// The candidate of this fact, body and tuple.
pub fn make_candidate(
    alloc: Global,
    fact: &Fact,
    body: &Term,
    tuple: Vec<Term>,
) -> Result<Candidate, AllocError>
    ensures { IfOk result (λ c. c ≡ record { fact = fact.now; body = body.now; tuple = tuple.items }) }
{
    let fact = Stated {
        term: fact.term().copy(alloc)?,
        number: fact.number(),
    };
    Ok(Candidate {
        fact,
        body: body.copy(alloc)?,
        tuple: Sequence::of(tuple),
    })
}

/// The first of the tuples of which there is no mark.
fn first_unmarked(
    alloc: Global,
    branch: &Branch,
    fact: &Fact,
    body: &Term,
    mut tuples: Vec<Vec<Term>>,
) -> Result<Option<Candidate>, AllocError>
    ensures { IfOk result (λ o. o ≡ find (is_unmarked branch.now) (map (λ ts. record { fact = fact.now; body = body.now; tuple = ts }) (each_items tuples.items))) }
{
    tuples.reverse();
    while let Some(tuple) = tuples.pop() {
        if is_unmarked(branch, fact.term(), &tuple) {
            return Ok(Some(make_candidate(alloc, fact, body, tuple)?));
        }
    }
    Ok(None)
}

/// The first tuple of this trigger of which there is no mark.
pub fn first_at(
    alloc: Global,
    defs: &[Def],
    branch: &Branch,
    ground: &[Term],
    fact: &Fact,
    sorts: &[Sort],
    trigger: &[Term],
    body: &Term,
) -> Result<Option<Candidate>, AllocError>
    ensures { IfOk result (λ o. o ≡ find (is_unmarked branch.now) (candidates_at defs.now branch.now ground.now fact.now sorts.now body.now (trees_of trigger.now))) }
{
    let tuples = matches_over(alloc, trigger, sorts, &branch.vars, defs, ground)?;
    first_unmarked(alloc, branch, fact, body, tuples)
}

/// The same over the triggers in order.
fn first_by(
    alloc: Global,
    defs: &[Def],
    branch: &Branch,
    ground: &[Term],
    fact: &Fact,
    sorts: &[Sort],
    triggers: &[Vec<Term>],
    body: &Term,
) -> Result<Option<Candidate>, AllocError>
    ensures { IfOk result (λ o. o ≡ find (is_unmarked branch.now) (candidates_by defs.now branch.now ground.now fact.now (record { sorts = sorts.now; triggers = patterns_of (each_items triggers.now); body = body.now }) (patterns_of (each_items triggers.now)))) }
{
    for trigger in triggers {
        if let Some(found) = first_at(alloc, defs, branch, ground, fact, sorts, trigger, body)? {
            return Ok(Some(found));
        }
    }
    Ok(None)
}

/// The same of a fact that is a ForAll.
#[tactic(auto, using(logic_rules::proofs::Instances::find_alone))]
pub fn first_of(
    alloc: Global,
    defs: &[Def],
    branch: &Branch,
    ground: &[Term],
    fact: &Fact,
) -> Result<Option<Candidate>, AllocError>
    ensures { IfOk result (λ o. o ≡ find (is_unmarked branch.now) (candidates_of defs.now branch.now ground.now fact.now)) }
{
    match &fact.term().node {
        Node::ForAll(sorts, triggers, body) => {
            first_by(alloc, defs, branch, ground, fact, sorts, triggers, body)
        }
        _ => Ok(None),
    }
}

/// The same of the facts in order.
fn first_in(
    alloc: Global,
    defs: &[Def],
    branch: &Branch,
    ground: &[Term],
    facts: &[Fact],
) -> Result<Option<Candidate>, AllocError>
    ensures { IfOk result (λ o. o ≡ find (is_unmarked branch.now) (flat_map (candidates_of defs.now branch.now ground.now) facts.now)) }
{
    for fact in facts {
        if let Some(found) = first_of(alloc, defs, branch, ground, fact)? {
            return Ok(Some(found));
        }
    }
    Ok(None)
}

/// The facts of a branch.
fn facts_of(branch: &Branch) -> &[Fact]
    ensures { result.now ≡ branch.now.facts }
{
    &branch.facts
}

/// The first ForAll, trigger and tuple of which there is no mark.
pub fn first_candidate(
    alloc: Global,
    defs: &[Def],
    branch: &Branch,
) -> Result<Option<Candidate>, AllocError>
    ensures { IfOk result (λ o. o ≡ find (is_unmarked branch.now) (candidates defs.now branch.now)) }
{
    let ground = ground_terms(alloc, branch)?;
    first_in(alloc, defs, branch, &ground, facts_of(branch))
}

/// The branch with one mark more.
fn with_mark(branch: Branch, fact: Term, tuple: Sequence<Term>) -> Result<Branch, AllocError>
    ensures { IfOk result (λ b. b ≡ with_mark (record { fact = fact; tuple = tuple }) branch) }
{
    let mut branch = branch;
    branch.marks.push(Mark { fact, tuple })?;
    Ok(branch)
}

/// The branch with the mark of the candidate.
fn marked(branch: Branch, found: Candidate) -> Result<Branch, AllocError>
    ensures { IfOk result (λ b. b ≡ with_mark (mark_of found) branch) }
{
    let Candidate { fact, tuple, .. } = found;
    with_mark(branch, fact.term, tuple)
}

/// The normal form of the instance. Wide exactly where it leaves 128 bits.
fn instance_of(
    alloc: Global,
    defs: &[Def],
    branch: &Branch,
    found: &Candidate,
) -> Result<Term, NormalFault>
    ensures { Gives result (normal_in defs.now branch.now (substitute found.now.body found.now.tuple)) }
{
    let instance = substitute(alloc, &found.body, found.tuple.as_slice())?;
    normal_in(alloc, defs, branch, &instance)
}

/// The node that makes the instance.
fn step(alloc: Global, found: &Candidate) -> Result<Step, AllocError>
    ensures { IfOk result (λ s. step_of s ≡ by_instantiate found.now.fact.number found.now.tuple) }
{
    let tuple = copy_terms(alloc, found.tuple.as_slice())?;
    Ok(Step::Instantiate {
        fact: found.fact.number,
        terms: tuple,
    })
}

/// The instance is added and the mark made. Wide exactly where the instance leaves 128 bits.
pub fn instantiate_by(
    alloc: Global,
    defs: &[Def],
    branch: Branch,
    found: Candidate,
) -> Result<Move, NormalFault>
    ensures { GivesAs move_of result (instantiated_by defs.now branch found) }
{
    let term = instance_of(alloc, defs, &branch, &found)?;
    let node = step(alloc, &found)?;
    let wider = marked(branch, found)?;
    Ok(adding(alloc, wider, node, term)?)
}

/// Of the first ForAll, trigger and tuple without a mark the instance is added and the mark made.
pub fn instantiate(alloc: Global, defs: &[Def], branch: Branch) -> Result<Attempt, NormalFault>
    ensures { Tries branch result (instantiate defs.now branch) }
{
    match first_candidate(alloc, defs, &branch)? {
        Some(found) => Ok(Attempt::Gives(instantiate_by(alloc, defs, branch, found)?)),
        None => Ok(Attempt::Passes(branch)),
    }
}
