// The rule skolem.
ghost use Rattle.std.specs.Prelude.{◌≡◌, ◌<◌, [], IfOk, IfSome, length, option_map};
ghost use Rattle.logic_core.specs.Gives.{GivesAs};
ghost use Rattle.logic_core.specs.Substitute.{substitute};
ghost use Rattle.proof_core.specs.Context.{new_variables};
ghost use Rattle.proof_core.specs.Proof.{by_skolem};
ghost use Rattle.proof_core.specs.View.{step_of};
ghost use Rattle.tableau_branch.specs.Applied.{Tries};
ghost use Rattle.tableau_branch.specs.Branch.{oldest, context_of, without};
ghost use Rattle.tableau_branch.specs.Variables.{with_variables};
ghost use Rattle.logic_rules.specs.Skolem.{body_of_exists, as_exists, skolemized_at, skolem};
ghost use Rattle.tableau_branch.specs.View.{move_of};

use crate::additions::adding;
use crate::branch_forms::{normal_in, without};
use logic_core::copy::copy_sorts;
use logic_core::def::Def;
use logic_core::fault::NormalFault;
use logic_core::sequence::Sequence;
use logic_core::sort::Sort;
use logic_core::substitute::substitute;
use logic_core::term::{Node, Term};
use proof_core::proof::Step;
use std::alloc::{AllocError, Global};
use tableau_branch::branch::Branch;
use tableau_branch::found::At;
use tableau_branch::played::{Attempt, Move};
use tableau_branch::variables::add_variables;

/// The sorts of the variables of an Exists, and its body.
fn body_of_exists(term: &Term) -> Option<(&[Sort], &Term)>
    ensures { option_map (λ p. (p.0.now, p.1.now)) result ≡ body_of_exists term.now }
{
    match &term.node {
        Node::Exists(sorts, _, body) => Some((sorts, body)),
        _ => None,
    }
}

/// The oldest Exists, with its sorts and its body.
pub fn oldest_exists(
    alloc: Global,
    branch: &Branch,
) -> Result<Option<At<(Sequence<Sort>, Term)>>, AllocError>
    ensures found { IfOk result (λ o. o ≡ oldest as_exists branch.now) }
    ensures within { IfOk result (λ o. IfSome o (λ a. a.at < length branch.now.facts)) }
{
    for (at, fact) in branch.facts.iter().enumerate() {
        if let Some((sorts, body)) = body_of_exists(fact.term()) {
            let what = (Sequence::of(copy_sorts(alloc, sorts)?), body.copy(alloc)?);
            return Ok(Some(At::new(alloc, at, fact, what)?));
        }
    }
    Ok(None)
}

/// The new variables of these sorts, which have the next numbers.
fn new_variables(alloc: Global, vars: &[Sort], sorts: &[Sort]) -> Result<Vec<Term>, AllocError>
    ensures { IfOk result (λ v. v.items ≡ new_variables (record { vars = vars.now; facts = [] }) sorts.now) }
{
    let mut number = vars.len() as u64;
    let mut variables = Vec::new(alloc);
    for _sort in sorts {
        variables.push(Term::new(Node::Free(number)))?;
        number = number.checked_add(1).ok_or(AllocError)?;
    }
    Ok(variables)
}

/// The body with new variables of these sorts.
fn witness(alloc: Global, branch: &Branch, sorts: &[Sort], body: &Term) -> Result<Term, AllocError>
    ensures { IfOk result (λ t. t ≡ substitute body.now (new_variables (context_of branch.now) sorts.now)) }
{
    let variables = new_variables(alloc, &branch.vars, sorts)?;
    substitute(alloc, body, &variables)
}

/// The body of the Exists with new variables.
fn instance_of(
    alloc: Global,
    branch: &Branch,
    found: &At<(Sequence<Sort>, Term)>,
) -> Result<Term, AllocError>
    ensures { IfOk result (λ t. t ≡ substitute found.now.what.1 (new_variables (context_of branch.now) found.now.what.0)) }
{
    witness(alloc, branch, found.what.0.as_slice(), &found.what.1)
}

/// The node that gives the new variables.
fn step(found: &At<(Sequence<Sort>, Term)>) -> Step
    ensures { step_of result ≡ by_skolem found.now.fact.number }
{
    Step::Skolem(found.fact.number)
}

/// The branch without the fact at this place, and with more variables.
fn widened(branch: Branch, at: usize, sorts: Vec<Sort>) -> Result<Branch, AllocError>
    requires { at < length branch.facts }
    ensures { IfOk result (λ b. b ≡ with_variables sorts.items (without at branch)) }
{
    let mut rest = without(branch, at);
    add_variables(&mut rest, sorts)?;
    Ok(rest)
}

/// The branch without the Exists, and with variables of its sorts.
fn without_exists(branch: Branch, found: At<(Sequence<Sort>, Term)>) -> Result<Branch, AllocError>
    requires { found.at < length branch.facts }
    ensures { IfOk result (λ b. b ≡ with_variables found.what.0 (without found.at branch)) }
{
    let At {
        at,
        fact: _fact,
        what: (sorts, _body),
    } = found;
    widened(branch, at, sorts.into_vec())
}

/// The Exists goes; its instance with new variables is added. Wide exactly where it leaves 128 bits.
pub fn skolemize_at(
    alloc: Global,
    defs: &[Def],
    branch: Branch,
    found: At<(Sequence<Sort>, Term)>,
) -> Result<Move, NormalFault>
    requires { found.at < length branch.facts }
    ensures { GivesAs move_of result (skolemized_at defs.now branch found) }
{
    let instance = instance_of(alloc, &branch, &found)?;
    let node = step(&found);
    let wider = without_exists(branch, found)?;
    let term = normal_in(alloc, defs, &wider, &instance)?;
    Ok(adding(alloc, wider, node, term)?)
}

/// The oldest Exists goes; its instance with new variables is added.
pub fn skolem(alloc: Global, defs: &[Def], branch: Branch) -> Result<Attempt, NormalFault>
    ensures { Tries branch result (skolem defs.now branch) }
{
    match oldest_exists(alloc, &branch)? {
        Some(found) => Ok(Attempt::Gives(skolemize_at(alloc, defs, branch, found)?)),
        None => Ok(Attempt::Passes(branch)),
    }
}
