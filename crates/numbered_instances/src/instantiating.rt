// The rule instantiate, by number.
ghost use Rattle.std.specs.Prelude.{◌≡◌, ◌<◌, [], ◌∷◌, ◌++◌, length, IfOk};
ghost use Rattle.logic_core.specs.Normal.{normal};
ghost use Rattle.logic_core.specs.Substitute.{substitute};
ghost use Rattle.logic_rules.specs.Instantiating.{instantiated_by, instantiate};
ghost use Rattle.term_bank.specs.Numbered.{at};
ghost use Rattle.numbered_terms.specs.At.{IsAt, GivesAt};
ghost use Rattle.numbered_terms.specs.Stored.{Grows};
ghost use Rattle.numbered_facts.specs.Answers.{AreAt};
ghost use Rattle.numbered_branches.specs.Branches.{IsBranchOver, IsFactBelow, IsTuple, branch_at, terms_in};
ghost use Rattle.numbered_branches.specs.Applied.{TriesAt, GivesMoveAt};
ghost use Rattle.numbered_instances.specs.Instances.{body_in};
ghost use Rattle.numbered_instances.specs.Candidates.{candidate_of};

use crate::candidates::{Instances, first_candidate};
use logic_core::NormalFault;
use numbered_branches::branch::{Branch, Fact, Mark};
use numbered_branches::on_one::adding;
use numbered_branches::played::{Attempt, Move};
use numbered_branches::step::Step;
use numbered_facts::Store;
use numbered_terms::Terms;
use numbered_terms::renumber::copy_numbers;
use std::alloc::AllocError;
use term_bank::{Node, TermId};

// The body of a ForAll.
fn body_of(terms: &Terms, fact: TermId) -> TermId
    requires { fact < length terms.now }
    ensures { IsAt terms.now result (body_in (at terms.now fact)) }
{
    match terms.node(fact) {
        Node::ForAll(_, _, body) => *body,
        _ => fact,
    }
}

/// The terms of an And.
pub fn terms_of(terms: &Terms, tuple: TermId) -> Result<Vec<TermId>, AllocError>
    requires { tuple < length terms.now }
    ensures { IfOk result (λ v. AreAt terms.now v.items (terms_in (at terms.now tuple))) }
{
    match terms.node(tuple) {
        Node::And(ids) => copy_numbers(terms.alloc(), ids),
        _ => Ok(Vec::new(terms.alloc())),
    }
}

// The normal form of the instance. Wide exactly where it leaves 128 bits.
fn instance_of(store: &mut Store, fact: TermId, tuple: TermId) -> Result<TermId, NormalFault>
    requires fact { fact < length store.old.terms }
    requires tuple { tuple < length store.old.terms }
    ensures grows { Grows store.old store.new }
    ensures gives { GivesAt store.new.terms result (normal store.old.vars store.old.defs [] (substitute (body_in (at store.old.terms fact)) (terms_in (at store.old.terms tuple)))) }
{
    let body = body_of(store.terms(), fact);
    let args = terms_of(store.terms(), tuple)?;
    let instance = store.substituted(body, &args)?;
    store.normal(instance)
}

// The branch with one mark more.
fn with_mark(branch: Branch, fact: TermId, tuple: TermId) -> Result<Branch, AllocError>
    ensures { IfOk result (λ b. b ≡ record branch { marks = branch.marks ++ record { fact = fact; tuple = tuple } ∷ [] }) }
{
    let mut branch = branch;
    branch.marks.push(Mark { fact, tuple })?;
    Ok(branch)
}

// The instance is added and the mark made. Wide exactly where the instance leaves 128 bits.
fn instantiate_by(
    store: &mut Store,
    branch: Branch,
    fact: &Fact,
    tuple: TermId,
) -> Result<Move, NormalFault>
    requires branch { IsBranchOver store.old.terms branch }
    requires vars { store.old.vars ≡ branch.vars }
    requires fact { IsFactBelow (length store.old.terms) fact.now }
    requires tuple { tuple < length store.old.terms }
    requires ands { IsTuple (at store.old.terms tuple) }
    ensures grows { Grows store.old store.new }
    ensures gives { GivesMoveAt store.new.terms result (instantiated_by store.old.defs (branch_at store.old.terms branch) (candidate_of store.old.terms fact.now tuple)) }
{
    let instance = instance_of(store, fact.term, tuple)?;
    let wider = with_mark(branch, fact.term, tuple)?;
    let terms = terms_of(store.terms(), tuple)?;
    let step = Step::Instantiate {
        fact: fact.number,
        terms,
    };
    Ok(adding(store, wider, step, instance)?)
}

/// Of the first ForAll, trigger and tuple without a mark the instance is added and the mark made.
pub fn instantiate(
    store: &mut Store,
    instances: &mut Instances,
    branch: Branch,
) -> Result<Attempt, NormalFault>
    requires branch { IsBranchOver store.old.terms branch }
    requires vars { store.old.vars ≡ branch.vars }
    ensures grows { Grows store.old store.new }
    ensures tries { TriesAt store.new.terms (branch_at store.old.terms branch) result (instantiate store.old.defs (branch_at store.old.terms branch)) }
{
    match first_candidate(store, instances, &branch)? {
        Some(found) => {
            let made = instantiate_by(store, branch, &found.fact, found.tuple)?;
            Ok(Attempt::Gives(made))
        }
        None => Ok(Attempt::Passes(branch)),
    }
}
