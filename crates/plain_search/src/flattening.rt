// The rule flatten.
ghost use Rattle.std.specs.Prelude.{◌≡◌, ◌<◌, IfOk, IfSome, length, option_map};
ghost use Rattle.logic_core.specs.Gives.{GivesAs};
ghost use Rattle.tableau_branch.specs.Applied.{Tries};
ghost use Rattle.proof_core.specs.View.{step_of};
ghost use Rattle.tableau_branch.specs.Branch.{oldest};
ghost use Rattle.logic_rules.specs.Flattening.{conjuncts_of, as_all, adding_each, flattened_at, flatten};
ghost use Rattle.tableau_branch.specs.View.{move_of};

use crate::additions::{add_each, append_each};
use crate::found_forms::{normal_parts, number_of, without_found};
use logic_core::copy::copy_terms;
use logic_core::def::Def;
use logic_core::fault::NormalFault;
use logic_core::sequence::Sequence;
use logic_core::term::{Node, Term};
use proof_core::proof::Step;
use std::alloc::{AllocError, Global};
use tableau_branch::branch::{Branch, Made};
use tableau_branch::found::At;
use tableau_branch::played::{Attempt, Move};

/// The parts of an And.
#[tactic(auto, using(logic_rules::proofs::Listed::listed_trees))]
fn conjuncts(term: &Term) -> Option<&[Term]>
    ensures { option_map (λ ts. ts.now) result ≡ conjuncts_of term.now }
{
    match &term.node {
        Node::And(parts) => Some(parts),
        _ => None,
    }
}

/// The oldest And, with its parts.
pub fn oldest_and(alloc: Global, branch: &Branch) -> Result<Option<At<Sequence<Term>>>, AllocError>
    ensures found { IfOk result (λ o. o ≡ oldest as_all branch.now) }
    ensures within { IfOk result (λ o. IfSome o (λ a. a.at < length branch.now.facts)) }
{
    for (at, fact) in branch.facts.iter().enumerate() {
        if let Some(parts) = conjuncts(fact.term()) {
            let parts = Sequence::of(copy_terms(alloc, parts)?);
            return Ok(Some(At::new(alloc, at, fact, parts)?));
        }
    }
    Ok(None)
}

/// The facts that the node appends are added.
fn adding_each(
    alloc: Global,
    branch: Branch,
    node: Step,
    terms: Vec<Term>,
) -> Result<Move, AllocError>
    ensures { IfOk result (λ m. move_of m ≡ adding_each (step_of node) terms.items branch) }
{
    let mut made = Made::begun(alloc, branch);
    let facts = append_each(alloc, &mut made, node, terms)?;
    add_each(&mut made, facts)?;
    Move::on_one(alloc, made)
}

/// The And goes; its parts are added in order. Wide exactly where one leaves 128 bits.
pub fn flatten_at(
    alloc: Global,
    defs: &[Def],
    branch: Branch,
    found: At<Sequence<Term>>,
) -> Result<Move, NormalFault>
    requires { found.at < length branch.facts }
    ensures { GivesAs move_of result (flattened_at defs.now branch found) }
{
    let parts = normal_parts(alloc, defs, &branch, &found)?;
    let rest = without_found(branch, &found);
    let number = number_of(&found);
    Ok(adding_each(alloc, rest, Step::Split(number), parts)?)
}

/// The oldest And goes; its parts are added in order.
pub fn flatten(alloc: Global, defs: &[Def], branch: Branch) -> Result<Attempt, NormalFault>
    ensures { Tries branch result (flatten defs.now branch) }
{
    match oldest_and(alloc, &branch)? {
        Some(found) => Ok(Attempt::Gives(flatten_at(alloc, defs, branch, found)?)),
        None => Ok(Attempt::Passes(branch)),
    }
}
