// The rule condition.
ghost use Rattle.std.specs.Prelude.{◌≡◌, ◌<◌, IfOk, IfSome, length};
ghost use Rattle.logic_core.specs.Gives.{Gives, GivesAs};
ghost use Rattle.tableau_branch.specs.Applied.{Tries};
ghost use Rattle.tableau_branch.specs.Branch.{oldest};
ghost use Rattle.theory_rules.specs.Condition.{as_choice, first_choice, chosen, condition_at, condition};
ghost use Rattle.theory_rules.specs.ChosenBoth.{changed_and_added, chosen_both, chosen_move};
ghost use Rattle.tableau_branch.specs.View.{move_of};

use logic_core::def::Def;
use logic_core::fault::NormalFault;
use logic_core::normal::normal_over;
use logic_core::term::{Node, Term};
use std::alloc::{AllocError, Global};
use std::marker::Model;
use tableau_branch::branch::{Branch, Made};
use tableau_branch::build::not;
use tableau_branch::change::{add, append_two, change_at};
use tableau_branch::fact::Fact;
use tableau_branch::forms::replaced_form;
use tableau_branch::found::At;
use tableau_branch::outside::{Shape, first_outside};
use tableau_branch::played::{Attempt, Ending, Move};

/// An If, with its condition and its branches.
#[derive(Drop)]
pub struct Choice {
    pub whole: Term,
    pub condition: Term,
    pub yes: Term,
    pub no: Term,
}

impl Model for Choice {
    ghost use Rattle.theory_rules.specs.Condition.{Choice as choice};
    ghost use Rattle.theory_rules.specs.Codes.{coded_choice};

    ghost Value = { choice };

    ghost coded = { coded_choice };

    ghost view = { λ a. record { whole = a.whole; condition = a.condition; yes = a.yes; no = a.no } };
}

/// The parts of an If.
fn as_choice(alloc: Global, term: &Term) -> Result<Option<Choice>, AllocError>
    ensures { IfOk result (λ o. o ≡ as_choice term.now) }
{
    match &term.node {
        Node::If(condition, yes, no) => Ok(Some(Choice {
            whole: term.copy(alloc)?,
            condition: condition.copy(alloc)?,
            yes: yes.copy(alloc)?,
            no: no.copy(alloc)?,
        })),
        _ => Ok(None),
    }
}

/// The first If that stands in the fact outside quantifiers.
pub fn first_choice(alloc: Global, fact: &Fact) -> Result<Option<Choice>, AllocError>
    ensures { IfOk result (λ o. o ≡ first_choice fact.now) }
{
    match first_outside(Shape::Choice, fact.term()) {
        Some(choice) => as_choice(alloc, choice),
        None => Ok(None),
    }
}

/// The oldest fact with an If outside quantifiers, with the first one.
pub fn oldest_choice(alloc: Global, branch: &Branch) -> Result<Option<At<Choice>>, AllocError>
    ensures found { IfOk result (λ o. o ≡ oldest first_choice branch.now) }
    ensures within { IfOk result (λ o. IfSome o (λ a. a.at < length branch.now.facts)) }
{
    for (at, fact) in branch.facts.iter().enumerate() {
        if let Some(choice) = first_choice(alloc, fact)? {
            return Ok(Some(At::new(alloc, at, fact, choice)?));
        }
    }
    Ok(None)
}

/// The branch with this condition, and with the If as this branch of it: the fact is changed, and then
/// the condition, which the proof has first, is added. Wide exactly where a normal form leaves 128
/// bits.
fn choose(
    alloc: Global,
    defs: &[Def],
    branch: Branch,
    found: &At<Choice>,
    condition: &Term,
    side: &Term,
) -> Result<Made, NormalFault>
    requires { found.now.at < length branch.facts }
    ensures { Gives result (chosen defs.now branch found.now condition.now side.now) }
{
    let holds = normal_over(alloc, condition, &branch.vars, defs)?;
    let whole = &found.what.whole;
    let term = replaced_form(alloc, &branch.vars, defs, &found.fact.term, whole, side)?;
    Ok(change_and_add(alloc, branch, found.at, holds, term)?)
}

/// The two facts with which a child begins: the second in the place of the one at `at`, and then the
/// first at the end.
fn change_and_add(
    alloc: Global,
    branch: Branch,
    at: usize,
    first: Term,
    second: Term,
) -> Result<Made, AllocError>
    requires { at < length branch.facts }
    ensures { IfOk result (λ m. m ≡ changed_and_added at first second branch) }
{
    let mut made = Made::begun(alloc, branch);
    let facts = append_two(alloc, &mut made, first, second)?;
    change_at(&mut made, at, facts.1);
    add(&mut made, facts.0)?;
    Ok(made)
}

/// A branch where the condition holds, and one where it doesn't. Wide exactly where a normal form
/// leaves 128 bits.
fn choose_both(
    alloc: Global,
    defs: &[Def],
    branch: Branch,
    found: &At<Choice>,
) -> Result<(Made, Made), NormalFault>
    requires { found.now.at < length branch.facts }
    ensures { Gives result (chosen_both defs.now branch found.now) }
{
    let choice = &found.what;
    let fails = not(alloc, &choice.condition)?;
    let first = branch.copy(alloc)?;
    let yes = choose(alloc, defs, first, found, &choice.condition, &choice.yes)?;
    let no = choose(alloc, defs, branch, found, &fails, &choice.no)?;
    Ok((yes, no))
}

/// The move that makes the two branches: the proof goes on by the condition of this If.
fn choosing(alloc: Global, found: &At<Choice>, yes: Made, no: Made) -> Result<Move, AllocError>
    ensures { IfOk result (λ m. move_of m ≡ chosen_move found.now (yes, no)) }
{
    let whole = found.what.whole.copy(alloc)?;
    Ok(Move {
        ending: Ending::Chooses(found.fact.number, whole),
        made: Vec::from_array(alloc, [yes, no])?,
    })
}

/// The two branches. Wide exactly where a normal form leaves 128 bits.
pub fn condition_at(
    alloc: Global,
    defs: &[Def],
    branch: Branch,
    found: &At<Choice>,
) -> Result<Move, NormalFault>
    requires { found.now.at < length branch.facts }
    ensures { GivesAs move_of result (condition_at defs.now branch found.now) }
{
    let (yes, no) = choose_both(alloc, defs, branch, found)?;
    Ok(choosing(alloc, found, yes, no)?)
}

/// By the condition of the first If outside quantifiers, of the oldest fact with one: a branch where it
/// holds, and one where it doesn't.
pub fn condition(alloc: Global, defs: &[Def], branch: Branch) -> Result<Attempt, NormalFault>
    ensures { Tries branch result (condition defs.now branch) }
{
    match oldest_choice(alloc, &branch)? {
        Some(found) => Ok(Attempt::Gives(condition_at(alloc, defs, branch, &found)?)),
        None => Ok(Attempt::Passes(branch)),
    }
}
