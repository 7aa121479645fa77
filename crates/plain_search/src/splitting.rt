// The rule split.
ghost use Rattle.std.specs.Prelude.{◌≡◌, ◌<◌, [], ◌∷◌, ◌++◌, IfOk, IfSome, length, map, option_map, is_some};
ghost use Rattle.logic_core.specs.Gives.{GivesAs};
ghost use Rattle.logic_core.specs.View.{trees_of};
ghost use Rattle.proof_core.specs.Split.{disjuncts, equal_cases, unequal_cases, cases};
ghost use Rattle.tableau_branch.specs.Applied.{Tries};
ghost use Rattle.tableau_branch.specs.Branch.{oldest, context_of};
ghost use Rattle.tableau_branch.specs.Oriented.{left_side};
ghost use Rattle.logic_rules.specs.Splitting.{cases_of, split_at, split};
ghost use Rattle.tableau_branch.specs.Cases.{case};
ghost use Rattle.tableau_branch.specs.View.{move_of};

use crate::additions::case;
use crate::formulas::both;
use crate::found_forms::{normal_parts, number_of, without_found};
use crate::left_sides::left_side;
use logic_core::copy::copy_terms;
use logic_core::def::Def;
use logic_core::fault::NormalFault;
use logic_core::sequence::Sequence;
use logic_core::sort::Sort;
use logic_core::term::{Node, Term};
use std::alloc::{AllocError, Global};
use tableau_branch::branch::{Branch, Made};
use tableau_branch::build::not;
use tableau_branch::fact::Fact;
use tableau_branch::found::At;
use tableau_branch::played::{Attempt, Ending, Move};

/// The parts of an Or, of which there is one at least.
#[tactic(auto, using(logic_rules::proofs::Listed::listed_trees))]
fn disjuncts(alloc: Global, parts: &[Term]) -> Result<Option<Sequence<Term>>, AllocError>
    ensures { IfOk result (λ o. o ≡ option_map (λ p. p.0 ∷ p.1) (disjuncts (trees_of parts.now))) }
{
    if parts.is_empty() {
        return Ok(None);
    }
    Ok(Some(Sequence::of(copy_terms(alloc, parts)?)))
}

/// Of an Eq of Bool: both sides hold, or neither does.
fn equal_cases(
    alloc: Global,
    defs: &[Def],
    branch: &Branch,
    p: &Term,
    q: &Term,
) -> Result<Option<Sequence<Term>>, AllocError>
    ensures { IfOk result (λ o. o ≡ option_map (λ c. c.0 ∷ c.1) (equal_cases defs.now (context_of branch.now) p.now q.now)) }
{
    if !p.has_sort(alloc, &branch.vars, defs, &[], &Sort::boolean())? {
        return Ok(None);
    }
    let first = both(alloc, p.copy(alloc)?, q.copy(alloc)?)?;
    let second = both(alloc, not(alloc, p)?, not(alloc, q)?)?;
    Ok(Some(Sequence::of(Vec::from_array(alloc, [first, second])?)))
}

/// Of the Not of an Eq of Bool: the first side alone holds, or the second.
fn unequal_cases(
    alloc: Global,
    defs: &[Def],
    branch: &Branch,
    t: &Term,
) -> Result<Option<Sequence<Term>>, AllocError>
    ensures { IfOk result (λ o. o ≡ option_map (λ c. c.0 ∷ c.1) (unequal_cases defs.now (context_of branch.now) t.now)) }
{
    match &t.node {
        Node::Eq(p, q) => {
            if !p.has_sort(alloc, &branch.vars, defs, &[], &Sort::boolean())? {
                return Ok(None);
            }
            let first = both(alloc, p.copy(alloc)?, not(alloc, q)?)?;
            let second = both(alloc, not(alloc, p)?, q.copy(alloc)?)?;
            Ok(Some(Sequence::of(Vec::from_array(alloc, [first, second])?)))
        }
        _ => Ok(None),
    }
}

/// The formulas of which one holds where the fact does.
fn cases(
    alloc: Global,
    defs: &[Def],
    branch: &Branch,
    fact: &Term,
) -> Result<Option<Sequence<Term>>, AllocError>
    ensures { IfOk result (λ o. o ≡ option_map (λ c. c.0 ∷ c.1) (cases defs.now (context_of branch.now) fact.now)) }
{
    match &fact.node {
        Node::Or(parts) => disjuncts(alloc, parts),
        Node::Eq(p, q) => equal_cases(alloc, defs, branch, p, q),
        Node::Not(t) => unequal_cases(alloc, defs, branch, t),
        _ => Ok(None),
    }
}

/// Whether the fact is oriented.
fn is_oriented(
    alloc: Global,
    defs: &[Def],
    branch: &Branch,
    fact: &Fact,
) -> Result<bool, AllocError>
    ensures { IfOk result (λ b. b ≡ is_some (left_side branch.now.vars defs.now fact.now.term)) }
{
    Ok(left_side(alloc, &branch.vars, defs, fact)?.is_some())
}

/// The cases of a fact that isn't oriented.
pub fn cases_of(
    alloc: Global,
    defs: &[Def],
    branch: &Branch,
    fact: &Fact,
) -> Result<Option<Sequence<Term>>, AllocError>
    ensures { IfOk result (λ o. o ≡ cases_of defs.now branch.now fact.now) }
{
    let oriented = is_oriented(alloc, defs, branch, fact)?;
    if oriented {
        return Ok(None);
    }
    let formula = fact.term();
    let found = cases(alloc, defs, branch, formula)?;
    Ok(found)
}

/// The oldest fact with cases, and these.
pub fn oldest_cases(
    alloc: Global,
    defs: &[Def],
    branch: &Branch,
) -> Result<Option<At<Sequence<Term>>>, AllocError>
    ensures found { IfOk result (λ o. o ≡ oldest (cases_of defs.now branch.now) branch.now) }
    ensures within { IfOk result (λ o. IfSome o (λ a. a.at < length branch.now.facts)) }
{
    for (at, fact) in branch.facts.iter().enumerate() {
        if let Some(cases) = cases_of(alloc, defs, branch, fact)? {
            return Ok(Some(At::new(alloc, at, fact, cases)?));
        }
    }
    Ok(None)
}

/// Copies of the branch, each with one of the facts more, in order.
fn copied_cases(
    alloc: Global,
    branch: &Branch,
    mut terms: Vec<Term>,
) -> Result<Vec<Made>, AllocError>
    ensures { IfOk result (λ v. v.items ≡ map (case branch.now) terms.items) }
{
    let mut made = Vec::new(alloc);
    terms.reverse();
    while let Some(term) = terms.pop() {
        made.push(case(alloc, branch.copy(alloc)?, term)?)?;
    }
    Ok(made)
}

/// The branches of some children and, after these, of the last one, which is the branch itself.
fn cases_before(
    alloc: Global,
    branch: Branch,
    terms: Vec<Term>,
    last: Term,
) -> Result<Vec<Made>, AllocError>
    ensures { IfOk result (λ v. v.items ≡ map (case branch) (terms.items ++ last ∷ [])) }
{
    let mut made = copied_cases(alloc, &branch, terms)?;
    let last = case(alloc, branch, last)?;
    made.push(last)?;
    Ok(made)
}

/// The branches of the children, in order.
fn each_case(alloc: Global, branch: Branch, mut terms: Vec<Term>) -> Result<Vec<Made>, AllocError>
    ensures { IfOk result (λ v. v.items ≡ map (case branch) terms.items) }
{
    match terms.pop() {
        Some(last) => cases_before(alloc, branch, terms, last),
        None => Ok(Vec::new(alloc)),
    }
}

/// The fact goes; a branch is made for each case. Wide exactly where one leaves 128 bits.
pub fn split_into(
    alloc: Global,
    defs: &[Def],
    branch: Branch,
    found: At<Sequence<Term>>,
) -> Result<Move, NormalFault>
    requires { found.at < length branch.facts }
    ensures { GivesAs move_of result (split_at defs.now branch found) }
{
    let terms = normal_parts(alloc, defs, &branch, &found)?;
    let rest = without_found(branch, &found);
    let number = number_of(&found);
    let made = each_case(alloc, rest, terms)?;
    Ok(Move {
        ending: Ending::Forks(number),
        made,
    })
}

/// The oldest Or, Eq of Bool that isn't oriented, or Not Eq of Bool goes; a branch is made for each of
/// its cases.
pub fn split(alloc: Global, defs: &[Def], branch: Branch) -> Result<Attempt, NormalFault>
    ensures { Tries branch result (split defs.now branch) }
{
    match oldest_cases(alloc, defs, &branch)? {
        Some(found) => Ok(Attempt::Gives(split_into(alloc, defs, branch, found)?)),
        None => Ok(Attempt::Passes(branch)),
    }
}
