// The rule unfold.
ghost use Rattle.std.specs.Prelude.{◌≡◌, ◌<◌, IfOk, IfSome, length};
ghost use Rattle.logic_core.specs.Gives.{Gives, GivesAs};
ghost use Rattle.proof_core.specs.Proof.{by_unfold};
ghost use Rattle.proof_core.specs.Replace.{body_of};
ghost use Rattle.proof_core.specs.View.{step_of};
ghost use Rattle.tableau_branch.specs.Applied.{Tries};
ghost use Rattle.tableau_branch.specs.Branch.{oldest};
ghost use Rattle.logic_rules.specs.Unfolding.{first_call, is_plain, with_seen, with_call, unfolded_form, unfolded_at, unfold_call};
ghost use Rattle.tableau_branch.specs.View.{move_of};

use logic_core::def::Def;
use logic_core::fault::NormalFault;
use logic_core::substitute::substitute;
use logic_core::term::{Node, Term};
use proof_core::proof::Step;
use std::alloc::{AllocError, Global};
use tableau_branch::branch::Branch;
use tableau_branch::forms::replaced_form;
use tableau_branch::found::At;
use tableau_branch::on_one::changing;
use tableau_branch::outside::{Shape, first_outside};
use tableau_branch::played::{Attempt, Move};

/// The oldest fact with a Call outside quantifiers, with the first one.
pub fn oldest_call(alloc: Global, branch: &Branch) -> Result<Option<At<Term>>, AllocError>
    ensures found { IfOk result (λ o. o ≡ oldest first_call branch.now) }
    ensures within { IfOk result (λ o. IfSome o (λ a. a.at < length branch.now.facts)) }
{
    for (at, fact) in branch.facts.iter().enumerate() {
        if let Some(call) = first_outside(Shape::Call, fact.term()) {
            let call = call.copy(alloc)?;
            return Ok(Some(At::new(alloc, at, fact, call)?));
        }
    }
    Ok(None)
}

/// The body of the called definition with the arguments for its parameters.
fn body_of(alloc: Global, defs: &[Def], call: &Term) -> Result<Option<Term>, AllocError>
    ensures { IfOk result (λ o. o ≡ body_of defs.now call.now) }
{
    match &call.node {
        Node::Call(number, terms) => match defs.get(*number as usize) {
            Some(def) => Ok(Some(substitute(alloc, &def.body, terms)?)),
            None => Ok(None),
        },
        _ => Ok(None),
    }
}

/// Whether the definition is logical: its body may have quantifiers.
fn is_logical(def: &Def) -> bool
    ensures { result ≡ def.now.logical }
{
    def.logical
}

/// Whether it is a Call of a plain function, whose body has no quantifier.
fn is_plain(defs: &[Def], call: &Term) -> bool
    ensures { result ≡ is_plain defs.now call.now }
{
    match &call.node {
        Node::Call(number, _) => match defs.get(*number as usize) {
            Some(def) => !is_logical(def),
            None => false,
        },
        _ => false,
    }
}

/// The branch with one seen call more.
fn with_seen(branch: Branch, call: Term) -> Result<Branch, AllocError>
    ensures { IfOk result (λ b. b ≡ with_seen call branch) }
{
    let mut branch = branch;
    branch.calls.push(call)?;
    Ok(branch)
}

/// A plain function's Call joins the seen calls.
fn with_call(alloc: Global, defs: &[Def], call: &Term, branch: Branch) -> Result<Branch, AllocError>
    ensures branch { IfOk result (λ b. b ≡ with_call defs.now call.now branch) }
    ensures facts { IfOk result (λ b. b.facts ≡ branch.facts) }
{
    if is_plain(defs, call) {
        let call = call.copy(alloc)?;
        return Ok(with_seen(branch, call)?);
    }
    Ok(branch)
}

/// The formula with the call replaced by the definition's body, in normal form. Wide exactly where no
/// definition is called or the normal form leaves 128 bits.
fn unfolded_form(
    alloc: Global,
    defs: &[Def],
    branch: &Branch,
    formula: &Term,
    call: &Term,
) -> Result<Term, NormalFault>
    ensures { Gives result (unfolded_form defs.now branch.now formula.now call.now) }
{
    match body_of(alloc, defs, call)? {
        Some(body) => replaced_form(alloc, &branch.vars, defs, formula, call, &body),
        None => Err(NormalFault::Wide),
    }
}

/// The same of the fact with the call that was found in it.
fn form_of(
    alloc: Global,
    defs: &[Def],
    branch: &Branch,
    found: &At<Term>,
) -> Result<Term, NormalFault>
    ensures { Gives result (unfolded_form defs.now branch.now found.now.fact.term found.now.what) }
{
    unfolded_form(alloc, defs, branch, &found.fact.term, &found.what)
}

/// The branch with the call that was found, where it is a plain function's.
fn seen(alloc: Global, defs: &[Def], found: &At<Term>, branch: Branch) -> Result<Branch, AllocError>
    ensures branch { IfOk result (λ b. b ≡ with_call defs.now found.now.what branch) }
    ensures facts { IfOk result (λ b. b.facts ≡ branch.facts) }
{
    with_call(alloc, defs, &found.what, branch)
}

/// The place of the fact.
fn place_of(found: &At<Term>) -> usize
    ensures { result ≡ found.now.at }
{
    found.at
}

/// The node that unfolds the call.
fn step(found: At<Term>) -> Step
    ensures { step_of result ≡ by_unfold found.fact.number found.what }
{
    let At {
        at: _at,
        fact,
        what: call,
    } = found;
    Step::Unfold {
        fact: fact.number,
        term: call,
    }
}

/// The fact is changed: its first Call becomes the definition's body. Wide exactly where the normal
/// form leaves 128 bits.
pub fn unfold_at(
    alloc: Global,
    defs: &[Def],
    branch: Branch,
    found: At<Term>,
) -> Result<Move, NormalFault>
    requires { found.at < length branch.facts }
    ensures { GivesAs move_of result (unfolded_at defs.now branch found) }
{
    let term = form_of(alloc, defs, &branch, &found)?;
    let more = seen(alloc, defs, &found, branch)?;
    let at = place_of(&found);
    let node = step(found);
    Ok(changing(alloc, more, at, node, term)?)
}

/// In the oldest fact with a Call outside quantifiers its first one is unfolded.
pub fn unfold(alloc: Global, defs: &[Def], branch: Branch) -> Result<Attempt, NormalFault>
    ensures { Tries branch result (unfold_call defs.now branch) }
{
    match oldest_call(alloc, &branch)? {
        Some(found) => Ok(Attempt::Gives(unfold_at(alloc, defs, branch, found)?)),
        None => Ok(Attempt::Passes(branch)),
    }
}
