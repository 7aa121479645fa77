// Facts that a step adds: one on each branch of several, one on the only branch, and several.
ghost use Rattle.std.specs.Prelude.{◌≡◌, ◌+◌, ◌-◌, ◌^◌, ◌≤◌, [], ◌∷◌, OnOk, IfOk, length};
ghost use Rattle.proof_core.specs.View.{step_of};
ghost use Rattle.tableau_branch.specs.Cases.{case};
ghost use Rattle.tableau_branch.specs.Change.{added_each, with_steps, tightened_each, appended};
ghost use Rattle.tableau_branch.specs.OneBranch.{adding};
ghost use Rattle.tableau_branch.specs.View.{move_of};

use logic_core::term::Term;
use proof_core::proof::Step;
use std::alloc::{AllocError, Global};
use tableau_branch::branch::{Branch, Made};
use tableau_branch::change::{add, append_by, append_one, take_numbers, tightened};
use tableau_branch::fact::Fact;
use tableau_branch::played::Move;

/// The branch of a child, with one more fact.
pub fn case(alloc: Global, branch: Branch, term: Term) -> Result<Made, AllocError>
    ensures { IfOk result (λ m. m ≡ case branch term) }
{
    let mut made = Made::begun(alloc, branch);
    let fact = append_one(alloc, &mut made, term)?;
    add(&mut made, fact)?;
    Ok(made)
}

/// The fact that the node appends is added.
pub fn adding(alloc: Global, branch: Branch, node: Step, term: Term) -> Result<Move, AllocError>
    ensures { IfOk result (λ m. move_of m ≡ adding (step_of node) term branch) }
{
    let mut made = Made::begun(alloc, branch);
    let fact = append_by(alloc, &mut made, node, term)?;
    add(&mut made, fact)?;
    Move::on_one(alloc, made)
}

/// New facts with the numbers from this one on.
fn tightened_each(
    alloc: Global,
    made: &mut Made,
    number: u64,
    mut terms: Vec<Term>,
) -> Result<Vec<Fact>, AllocError>
    requires { number + length terms.items ≤ 2 ^ 64 - 1 }
    ensures facts { IfOk result (λ v. v.items ≡ (tightened_each number made.old.branch.next terms.items).facts) }
    ensures made { OnOk result (let r = tightened_each number made.old.branch.next terms.items in made.new ≡ with_steps r.steps r.next made.old) }
{
    let mut facts = Vec::new(alloc);
    let mut number = number;
    terms.reverse();
    while let Some(term) = terms.pop() {
        facts.push(tightened(alloc, made, number, term)?)?;
        number += 1;
    }
    Ok(facts)
}

/// The facts that this node appends.
pub fn append_each(
    alloc: Global,
    made: &mut Made,
    step: Step,
    terms: Vec<Term>,
) -> Result<Vec<Fact>, AllocError>
    ensures facts { IfOk result (λ v. v.items ≡ (appended (step_of step ∷ []) terms.items made.old).0) }
    ensures made { OnOk result (made.new ≡ (appended (step_of step ∷ []) terms.items made.old).1) }
{
    made.steps.push(step)?;
    let number = take_numbers(made, terms.len() as u64)?;
    tightened_each(alloc, made, number, terms)
}

/// Adds facts, in order.
pub fn add_each(made: &mut Made, mut facts: Vec<Fact>) -> Result<(), AllocError>
    ensures { OnOk result (made.new ≡ added_each facts.items made.old) }
{
    facts.reverse();
    while let Some(fact) = facts.pop() {
        add(made, fact)?;
    }
    Ok(())
}
