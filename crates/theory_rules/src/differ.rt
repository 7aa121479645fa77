// The rule differ.
ghost use Rattle.std.specs.Prelude.{◌≡◌, ◌<◌, [], ◌∷◌, IfOk, IfSome, length, option_map};
ghost use Rattle.logic_core.specs.Gives.{Gives, GivesAs};
ghost use Rattle.logic_core.specs.Tree.{int};
ghost use Rattle.tableau_branch.specs.Applied.{Tries};
ghost use Rattle.tableau_branch.specs.Branch.{normal_in, oldest};
ghost use Rattle.theory_rules.specs.Differ.{sides_of_maps, unequal_in, unequal_maps, differ_at, differ};
ghost use Rattle.theory_rules.specs.DifferOver.{reads_differ, differ_over};
ghost use Rattle.tableau_branch.specs.Variables.{with_variables};
ghost use Rattle.tableau_branch.specs.View.{move_of};

use logic_core::def::Def;
use logic_core::fault::NormalFault;
use logic_core::normal::normal_over;
use logic_core::sort::{Sort, SortKind};
use logic_core::term::{Node, Term};
use proof_core::proof::Step;
use std::alloc::{AllocError, Global};
use tableau_branch::branch::Branch;
use tableau_branch::build::{equal, not, read};
use tableau_branch::found::At;
use tableau_branch::on_one::changing;
use tableau_branch::played::{Attempt, Move};
use tableau_branch::variables::add_variables;

/// The sides of an Eq of maps.
fn sides_of_maps<'a>(
    alloc: Global,
    defs: &[Def],
    branch: &Branch,
    t: &'a Term,
) -> Result<Option<(&'a Term, &'a Term)>, AllocError>
    ensures { IfOk result (λ o. option_map (λ p. (p.0.now, p.1.now)) o ≡ sides_of_maps defs.now branch.now t.now) }
{
    match &t.node {
        Node::Eq(a, b) => match &a.sort_over(alloc, &branch.vars, defs, &[])? {
            Some(
                Sort {
                    kind: SortKind::Map(_),
                },
            ) => Ok(Some((a, b))),
            _ => Ok(None),
        },
        _ => Ok(None),
    }
}

/// The sides of a Not Eq of maps.
pub fn unequal_in<'a>(
    alloc: Global,
    defs: &[Def],
    branch: &Branch,
    t: &'a Term,
) -> Result<Option<(&'a Term, &'a Term)>, AllocError>
    ensures { IfOk result (λ o. option_map (λ p. (p.0.now, p.1.now)) o ≡ unequal_in defs.now branch.now t.now) }
{
    match &t.node {
        Node::Not(equation) => sides_of_maps(alloc, defs, branch, equation),
        _ => Ok(None),
    }
}

/// The oldest Not Eq of maps, with its sides.
pub fn oldest_unequal(
    alloc: Global,
    defs: &[Def],
    branch: &Branch,
) -> Result<Option<At<(Term, Term)>>, AllocError>
    ensures found { IfOk result (λ o. o ≡ oldest (unequal_maps defs.now branch.now) branch.now) }
    ensures within { IfOk result (λ o. IfSome o (λ a. a.at < length branch.now.facts)) }
{
    for (at, fact) in branch.facts.iter().enumerate() {
        if let Some((a, b)) = unequal_in(alloc, defs, branch, fact.term())? {
            let sides = (a.copy(alloc)?, b.copy(alloc)?);
            return Ok(Some(At::new(alloc, at, fact, sides)?));
        }
    }
    Ok(None)
}

/// That the two maps hold different values at the variable of this number.
fn reads_differ(alloc: Global, a: &Term, b: &Term, number: u64) -> Result<Term, AllocError>
    ensures { IfOk result (λ t. t ≡ reads_differ (a.now, b.now) number) }
{
    let index = Term::new(Node::Free(number));
    let first = read(alloc, a, &index)?;
    let second = read(alloc, b, &index)?;
    not(alloc, &equal(alloc, &first, &second)?)
}

/// The same in normal form. Wide exactly where it leaves 128 bits.
fn differ_form(
    alloc: Global,
    defs: &[Def],
    branch: &Branch,
    sides: &(Term, Term),
    number: u64,
) -> Result<Term, NormalFault>
    ensures { Gives result (normal_in defs.now branch.now (reads_differ sides.now number)) }
{
    let apart = reads_differ(alloc, &sides.0, &sides.1, number)?;
    normal_over(alloc, &apart, &branch.vars, defs)
}

/// The branch with one more variable, of Int.
fn with_index(alloc: Global, mut branch: Branch) -> Result<Branch, AllocError>
    ensures { IfOk result (λ b. b ≡ with_variables (int ∷ []) branch) }
{
    let sorts = Vec::from_array(alloc, [Sort::int()])?;
    add_variables(&mut branch, sorts)?;
    Ok(branch)
}

/// The fact is changed: the maps differ at the index of this number. Wide exactly where the normal form
/// leaves 128 bits.
fn differ_over(
    alloc: Global,
    defs: &[Def],
    branch: Branch,
    found: &At<(Term, Term)>,
    number: u64,
) -> Result<Move, NormalFault>
    requires { found.now.at < length branch.facts }
    ensures { GivesAs move_of result (differ_over defs.now branch found.now number) }
{
    let term = differ_form(alloc, defs, &branch, &found.what, number)?;
    let node = Step::Differ(found.fact.number);
    Ok(changing(alloc, branch, found.at, node, term)?)
}

/// The same over a new variable. Wide exactly where the normal form leaves 128 bits.
pub fn differ_at(
    alloc: Global,
    defs: &[Def],
    branch: Branch,
    found: &At<(Term, Term)>,
) -> Result<Move, NormalFault>
    requires { found.now.at < length branch.facts }
    ensures { GivesAs move_of result (differ_at defs.now branch found.now) }
{
    let number = branch.vars.len() as u64;
    let wider = with_index(alloc, branch)?;
    differ_over(alloc, defs, wider, found, number)
}

/// The oldest Not Eq of maps is changed: the maps differ at an index, which is a new variable.
pub fn differ(alloc: Global, defs: &[Def], branch: Branch) -> Result<Attempt, NormalFault>
    ensures { Tries branch result (differ defs.now branch) }
{
    match oldest_unequal(alloc, defs, &branch)? {
        Some(found) => Ok(Attempt::Gives(differ_at(alloc, defs, branch, &found)?)),
        None => Ok(Attempt::Passes(branch)),
    }
}
