// The rule past, by number.
ghost use Rattle.std.specs.Prelude.{◌≡◌, ◌<◌, Some, length, map, IfOk};
ghost use Rattle.std.specs.List.{AllByRecursion};
ghost use Rattle.proof_core.specs.Maps.{access, below_zero, at_zero, above_zero};
ghost use Rattle.numbered_facts.specs.Answers.{StandsFor};
ghost use Rattle.term_bank.specs.Numbered.{at};
ghost use Rattle.numbered_terms.specs.Stored.{Grows};
ghost use Rattle.numbered_branches.specs.Applied.{TriesAt, GivesMoveAt};
ghost use Rattle.numbered_branches.specs.Branches.{branch_at, fact_at, made_at, IsBranchOver, IsFactBelow, IsMadeOver};
ghost use Rattle.numbered_branches.specs.Standing.{IsFactAt, IsMadeAt};
ghost use Rattle.theory_rules.specs.Condition.{first_some};
ghost use Rattle.theory_rules.specs.Past.{first_access, replaced_by, passed, three_passed, past_by, past};
ghost use Rattle.theory_rules.specs.PassBegun.{pass_forms, pass_begun};
ghost use Rattle.numbered_theory.specs.Places.{over};
ghost use Rattle.numbered_theory.specs.Reads.{IsAccessAt, GivesMadeAt};
ghost use Rattle.numbered_theory.specs.Passes.{GivesFormsAt};

use crate::reads::{Written, access, distance};
use crate::ways::{above_zero, at_zero, below_zero};
use logic_core::NormalFault;
use numbered_branches::append::append_two;
use numbered_branches::branch::{Branch, Fact};
use numbered_branches::change::add;
use numbered_branches::played::{Attempt, Ending, Made, Move};
use numbered_branches::replacing::{Replacing, change_each};
use numbered_facts::Store;
use std::alloc::AllocError;
use tableau_branch::changing::Ground;
use term_bank::{Node, TermId};

// The first Read of a Write outside quantifiers of the oldest fact with one.
fn oldest_access(store: &mut Store, facts: &[Fact]) -> Result<Option<TermId>, AllocError>
    requires { AllByRecursion (IsFactBelow (length store.old.terms)) facts.now }
    ensures grows { Grows store.old store.new }
    ensures finds { IfOk result (λ o. StandsFor store.new.terms o (first_some first_access (map (fact_at store.old.terms) facts.now))) }
{
    for fact in facts {
        if let Some(access) = store.access(fact.term)? {
            return Ok(Some(access));
        }
    }
    Ok(None)
}

// By an equation, which isn't kept, the Read is replaced in every fact. Wide exactly where what the
// equation says or a normal form leaves 128 bits.
fn replace_by(
    store: &mut Store,
    mut made: Made,
    access: TermId,
    equation: &Fact,
) -> Result<Made, NormalFault>
    requires made { IsMadeOver store.old.terms made }
    requires vars { store.old.vars ≡ made.branch.vars }
    requires access { access < length store.old.terms }
    requires equation { IsFactBelow (length store.old.terms) equation.now }
    ensures grows { Grows store.old store.new }
    ensures gives { GivesMadeAt store.new.terms result (replaced_by store.old.defs (branch_at store.old.terms made.branch) (at store.old.terms access) (fact_at store.old.terms equation.now) (made_at store.old.terms made)) }
{
    let Some(said) = store.says(equation.term, access)? else {
        return Err(NormalFault::Wide);
    };
    let replacing = Replacing {
        ground: Ground::Equation(equation.number),
        left: access,
        right: said,
    };
    change_each(store, &mut made, &replacing)?;
    Ok(made)
}

// The linear fact and the equation in normal form. Wide exactly where one leaves 128 bits.
fn pass_forms(
    store: &mut Store,
    access: TermId,
    way: TermId,
    said: TermId,
) -> Result<(TermId, TermId), NormalFault>
    requires access { access < length store.old.terms }
    requires way { way < length store.old.terms }
    requires said { said < length store.old.terms }
    ensures grows { Grows store.old store.new }
    ensures gives { GivesFormsAt store.new.terms result (pass_forms store.old.defs (over store.old.vars) (at store.old.terms access) (at store.old.terms way) (at store.old.terms said)) }
{
    let linear = store.normal(way)?;
    let sides = store.make(Node::Eq(access, said))?;
    let equation = store.normal(sides)?;
    Ok((linear, equation))
}

// The two facts with which the child begins: the linear one is added, and the equation stands beside
// the branch.
fn begin_pass(
    store: &mut Store,
    branch: Branch,
    linear: TermId,
    equation: TermId,
) -> Result<(Made, Fact), AllocError>
    requires branch { IsBranchOver store.old.terms branch }
    requires linear { linear < length store.old.terms }
    requires equation { equation < length store.old.terms }
    ensures grows { Grows store.old store.new }
    ensures made { IfOk result (λ p. IsMadeAt store.new.terms p.0 (pass_begun (at store.old.terms linear) (at store.old.terms equation) (branch_at store.old.terms branch)).0) }
    ensures equation { IfOk result (λ p. IsFactAt store.new.terms p.1 (pass_begun (at store.old.terms linear) (at store.old.terms equation) (branch_at store.old.terms branch)).1) }
    ensures vars { IfOk result (λ p. p.0.branch.vars ≡ branch.vars) }
{
    let mut made = Made::begun(store.alloc(), branch);
    let facts = append_two(store, &mut made, linear, equation)?;
    add(store.terms(), &mut made, &facts.0)?;
    Ok((made, facts.1))
}

// The branch in which a linear fact holds and the Read is this term. Wide exactly where a normal form
// leaves 128 bits.
fn pass(
    store: &mut Store,
    branch: Branch,
    access: TermId,
    way: TermId,
    said: TermId,
) -> Result<Made, NormalFault>
    requires branch { IsBranchOver store.old.terms branch }
    requires vars { store.old.vars ≡ branch.vars }
    requires access { access < length store.old.terms }
    requires way { way < length store.old.terms }
    requires said { said < length store.old.terms }
    ensures grows { Grows store.old store.new }
    ensures gives { GivesMadeAt store.new.terms result (passed store.old.defs (branch_at store.old.terms branch) (at store.old.terms access) (at store.old.terms way) (at store.old.terms said)) }
{
    let (linear, equation) = pass_forms(store, access, way, said)?;
    let (made, equation) = begin_pass(store, branch, linear, equation)?;
    replace_by(store, made, access, &equation)
}

// The branch where the index written is below the index read.
fn pass_below(
    store: &mut Store,
    branch: &Branch,
    access: TermId,
    distance: TermId,
    said: TermId,
) -> Result<Made, NormalFault>
    requires branch { IsBranchOver store.old.terms branch.now }
    requires vars { store.old.vars ≡ branch.now.vars }
    requires access { access < length store.old.terms }
    requires distance { distance < length store.old.terms }
    requires said { said < length store.old.terms }
    ensures grows { Grows store.old store.new }
    ensures gives { GivesMadeAt store.new.terms result (passed store.old.defs (branch_at store.old.terms branch.now) (at store.old.terms access) (below_zero (at store.old.terms distance)) (at store.old.terms said)) }
{
    let way = below_zero(store, distance)?;
    let copy = branch.copy(store.alloc())?;
    pass(store, copy, access, way, said)
}

// The branch where they are the same.
fn pass_same(
    store: &mut Store,
    branch: &Branch,
    access: TermId,
    distance: TermId,
    said: TermId,
) -> Result<Made, NormalFault>
    requires branch { IsBranchOver store.old.terms branch.now }
    requires vars { store.old.vars ≡ branch.now.vars }
    requires access { access < length store.old.terms }
    requires distance { distance < length store.old.terms }
    requires said { said < length store.old.terms }
    ensures grows { Grows store.old store.new }
    ensures gives { GivesMadeAt store.new.terms result (passed store.old.defs (branch_at store.old.terms branch.now) (at store.old.terms access) (at_zero (at store.old.terms distance)) (at store.old.terms said)) }
{
    let way = at_zero(store, distance)?;
    let copy = branch.copy(store.alloc())?;
    pass(store, copy, access, way, said)
}

// The branch where the index written is above the index read.
fn pass_above(
    store: &mut Store,
    branch: &Branch,
    access: TermId,
    distance: TermId,
    said: TermId,
) -> Result<Made, NormalFault>
    requires branch { IsBranchOver store.old.terms branch.now }
    requires vars { store.old.vars ≡ branch.now.vars }
    requires access { access < length store.old.terms }
    requires distance { distance < length store.old.terms }
    requires said { said < length store.old.terms }
    ensures grows { Grows store.old store.new }
    ensures gives { GivesMadeAt store.new.terms result (passed store.old.defs (branch_at store.old.terms branch.now) (at store.old.terms access) (above_zero (at store.old.terms distance)) (at store.old.terms said)) }
{
    let way = above_zero(store, distance)?;
    let copy = branch.copy(store.alloc())?;
    pass(store, copy, access, way, said)
}

// The three branches of a Read of a Write: the index written is below, at or above the index read.
// Wide exactly where a normal form leaves 128 bits.
fn pass_each(
    store: &mut Store,
    branch: &Branch,
    access: TermId,
    distance: TermId,
    before: TermId,
    value: TermId,
) -> Result<Move, NormalFault>
    requires branch { IsBranchOver store.old.terms branch.now }
    requires vars { store.old.vars ≡ branch.now.vars }
    requires access { access < length store.old.terms }
    requires distance { distance < length store.old.terms }
    requires before { before < length store.old.terms }
    requires value { value < length store.old.terms }
    ensures grows { Grows store.old store.new }
    ensures gives { GivesMoveAt store.new.terms result (three_passed store.old.defs (branch_at store.old.terms branch.now) (at store.old.terms access) (at store.old.terms distance) (at store.old.terms before) (at store.old.terms value)) }
{
    let below = pass_below(store, branch, access, distance, before)?;
    let same = pass_same(store, branch, access, distance, value)?;
    let above = pass_above(store, branch, access, distance, before)?;
    let made = Vec::from_array(store.alloc(), [below, same, above])?;
    Ok(Move {
        ending: Ending::Passes(access),
        made,
    })
}

// The same of the parts of a Read of a Write. Wide exactly where the distance or a normal form leaves
// 128 bits.
fn pass_parts(
    store: &mut Store,
    branch: &Branch,
    id: TermId,
    parts: &Written,
) -> Result<Move, NormalFault>
    requires branch { IsBranchOver store.old.terms branch.now }
    requires vars { store.old.vars ≡ branch.now.vars }
    requires id { id < length store.old.terms }
    requires parts { IsAccessAt store.old.terms (Some parts.now) (access (at store.old.terms id)) }
    ensures grows { Grows store.old store.new }
    ensures gives { GivesMoveAt store.new.terms result (past_by store.old.defs (branch_at store.old.terms branch.now) (at store.old.terms id)) }
{
    let distance = distance(store, parts)?;
    let before = store.make(Node::Read(parts.table, parts.index))?;
    pass_each(store, branch, id, distance, before, parts.value)
}

// The same of a Read of a Write. Wide exactly where it is none, or the distance or a normal form leaves
// 128 bits.
fn pass_access(store: &mut Store, branch: &Branch, id: TermId) -> Result<Move, NormalFault>
    requires branch { IsBranchOver store.old.terms branch.now }
    requires vars { store.old.vars ≡ branch.now.vars }
    requires id { id < length store.old.terms }
    ensures grows { Grows store.old store.new }
    ensures gives { GivesMoveAt store.new.terms result (past_by store.old.defs (branch_at store.old.terms branch.now) (at store.old.terms id)) }
{
    match access(store.terms(), id) {
        Some(parts) => pass_parts(store, branch, id, &parts),
        None => Err(NormalFault::Wide),
    }
}

/// The first Read of a Write outside quantifiers, of the oldest fact with one, is moved past the Write:
/// a branch each where the index written is below, at and above the index read.
pub fn past(store: &mut Store, branch: Branch) -> Result<Attempt, NormalFault>
    requires branch { IsBranchOver store.old.terms branch }
    requires vars { store.old.vars ≡ branch.vars }
    ensures grows { Grows store.old store.new }
    ensures tries { TriesAt store.new.terms (branch_at store.old.terms branch) result (past store.old.defs (branch_at store.old.terms branch)) }
{
    match oldest_access(store, &branch.facts)? {
        Some(found) => Ok(Attempt::Gives(pass_access(store, &branch, found)?)),
        None => Ok(Attempt::Passes(branch)),
    }
}
