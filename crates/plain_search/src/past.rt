// The rule past.
ghost use Rattle.std.specs.Prelude.{◌≡◌, [], ◌∷◌, IfOk};
ghost use Rattle.std.specs.Option.{option_copied};
ghost use Rattle.logic_core.specs.Gives.{Gives, GivesAs};
ghost use Rattle.tableau_branch.specs.Applied.{Tries};
ghost use Rattle.tableau_branch.specs.Branch.{oldest};
ghost use Rattle.tableau_branch.specs.Move.{passes};
ghost use Rattle.theory_rules.specs.Past.{first_access, replaced_by, passed, three_passed, past_by, past};
ghost use Rattle.theory_rules.specs.PassBegun.{pass_forms, pass_begun};
ghost use Rattle.tableau_branch.specs.View.{move_of};

use crate::formulas::{above_zero, at_zero, below_zero, less};
use crate::replacing::{Replacing, change_each};
use logic_core::def::Def;
use logic_core::fault::NormalFault;
use logic_core::normal::normal_over;
use logic_core::term::{Node, Term};
use proof_core::says::says;
use std::alloc::{AllocError, Global};
use tableau_branch::branch::{Branch, Made};
use tableau_branch::build::{equal, read};
use tableau_branch::change::{add, append_two};
use tableau_branch::changing::Ground;
use tableau_branch::fact::Fact;
use tableau_branch::found::At;
use tableau_branch::outside::{Shape, first_outside};
use tableau_branch::played::{Attempt, Ending, Move};

/// The first Read of a Write that stands in the fact outside quantifiers.
pub fn first_access(fact: &Fact) -> Option<&Term>
    ensures { option_copied result ≡ first_access fact.now }
{
    first_outside(Shape::Access, fact.term())
}

/// The oldest fact with a Read of a Write outside quantifiers, with the first one.
pub fn oldest_access(alloc: Global, branch: &Branch) -> Result<Option<At<Term>>, AllocError>
    ensures { IfOk result (λ o. o ≡ oldest first_access branch.now) }
{
    for (at, fact) in branch.facts.iter().enumerate() {
        if let Some(access) = first_access(fact) {
            let access = access.copy(alloc)?;
            return Ok(Some(At::new(alloc, at, fact, access)?));
        }
    }
    Ok(None)
}

/// By an equation, which isn't kept, the Read is replaced in every fact. Wide exactly where what the
/// equation says or a normal form leaves 128 bits.
fn replace_by(
    alloc: Global,
    defs: &[Def],
    mut made: Made,
    access: &Term,
    equation: &Fact,
) -> Result<Made, NormalFault>
    ensures { Gives result (replaced_by defs.now made.branch access.now equation.now made) }
{
    let Some(said) = says(alloc, equation.term(), access)? else {
        return Err(NormalFault::Wide);
    };
    let replacing = Replacing {
        ground: Ground::Equation(equation.number()),
        left: access,
        right: &said,
    };
    change_each(alloc, defs, &mut made, &replacing)?;
    Ok(made)
}

/// The linear fact and the equation in normal form. Wide exactly where one leaves 128 bits.
fn pass_forms(
    alloc: Global,
    defs: &[Def],
    branch: &Branch,
    access: &Term,
    way: &Term,
    said: &Term,
) -> Result<(Term, Term), NormalFault>
    ensures { Gives result (pass_forms defs.now branch.now access.now way.now said.now) }
{
    let linear = normal_over(alloc, way, &branch.vars, defs)?;
    let sides = equal(alloc, access, said)?;
    let equation = normal_over(alloc, &sides, &branch.vars, defs)?;
    Ok((linear, equation))
}

/// The two facts with which the child begins: the linear one is added, and the equation stands beside
/// the branch.
fn begin_pass(
    alloc: Global,
    branch: Branch,
    linear: Term,
    equation: Term,
) -> Result<(Made, Fact), AllocError>
    ensures made { IfOk result (λ p. p.0 ≡ (pass_begun linear equation branch).0) }
    ensures equation { IfOk result (λ p. p.1 ≡ (pass_begun linear equation branch).1) }
{
    let mut made = Made::begun(alloc, branch);
    let facts = append_two(alloc, &mut made, linear, equation)?;
    add(&mut made, facts.0)?;
    Ok((made, facts.1))
}

/// The branch in which a linear fact holds and the Read is this term. Wide exactly where a normal form
/// leaves 128 bits.
fn pass(
    alloc: Global,
    defs: &[Def],
    branch: Branch,
    access: &Term,
    way: &Term,
    said: &Term,
) -> Result<Made, NormalFault>
    ensures { Gives result (passed defs.now branch access.now way.now said.now) }
{
    let (linear, equation) = pass_forms(alloc, defs, &branch, access, way, said)?;
    let (made, equation) = begin_pass(alloc, branch, linear, equation)?;
    replace_by(alloc, defs, made, access, &equation)
}

/// The same of a copy of the branch.
fn pass_copy(
    alloc: Global,
    defs: &[Def],
    branch: &Branch,
    access: &Term,
    way: Term,
    said: &Term,
) -> Result<Made, NormalFault>
    ensures { Gives result (passed defs.now branch.now access.now way said.now) }
{
    let branch = branch.copy(alloc)?;
    pass(alloc, defs, branch, access, &way, said)
}

/// The move on three branches.
fn passes_to(
    alloc: Global,
    access: &Term,
    below: Made,
    same: Made,
    above: Made,
) -> Result<Move, AllocError>
    ensures { IfOk result (λ m. move_of m ≡ record { ending = passes access.now; made = below ∷ same ∷ above ∷ [] }) }
{
    let made = Vec::from_array(alloc, [below, same, above])?;
    Ok(Move {
        ending: Ending::Passes(access.copy(alloc)?),
        made,
    })
}

/// The three branches of a Read of a Write: the index written is below, at or above the index read.
/// Wide exactly where a normal form leaves 128 bits.
fn pass_each(
    alloc: Global,
    defs: &[Def],
    branch: &Branch,
    access: &Term,
    distance: &Term,
    before: &Term,
    value: &Term,
) -> Result<Move, NormalFault>
    ensures { GivesAs move_of result (three_passed defs.now branch.now access.now distance.now before.now value.now) }
{
    let is_below = below_zero(alloc, distance)?;
    let below = pass_copy(alloc, defs, branch, access, is_below, before)?;
    let is_same = at_zero(alloc, distance)?;
    let same = pass_copy(alloc, defs, branch, access, is_same, value)?;
    let is_above = above_zero(alloc, distance)?;
    let above = pass_copy(alloc, defs, branch, access, is_above, before)?;
    Ok(passes_to(alloc, access, below, same, above)?)
}

/// The same of a Read of a Write, by its parts. Wide exactly where the distance or a normal form leaves
/// 128 bits.
pub fn pass_access(
    alloc: Global,
    defs: &[Def],
    branch: Branch,
    access: &Term,
) -> Result<Move, NormalFault>
    ensures { GivesAs move_of result (past_by defs.now branch access.now) }
{
    match &access.node {
        Node::Read(written, index) => match &written.node {
            Node::Write(map, at, value) => {
                let distance = less(alloc, at, index)?;
                let distance = normal_over(alloc, &distance, &branch.vars, defs)?;
                let before = read(alloc, map, index)?;
                pass_each(alloc, defs, &branch, access, &distance, &before, value)
            }
            _ => Err(NormalFault::Wide),
        },
        _ => Err(NormalFault::Wide),
    }
}

/// The first Read of a Write outside quantifiers, of the oldest fact with one, is moved past the Write:
/// a branch each where the index written is below, at and above the index read.
pub fn past(alloc: Global, defs: &[Def], branch: Branch) -> Result<Attempt, NormalFault>
    ensures { Tries branch result (past defs.now branch) }
{
    match oldest_access(alloc, &branch)? {
        Some(found) => Ok(Attempt::Gives(pass_access(alloc, defs, branch, &found.what)?)),
        None => Ok(Attempt::Passes(branch)),
    }
}
