// The rule back.
ghost use Rattle.std.specs.Prelude.{◌≡◌, pos, IfOk, flat_map, if◌then◌else◌};
ghost use Rattle.std.specs.Ordering.{int_eq};
ghost use Rattle.logic_core.specs.Gives.{GivesAs};
ghost use Rattle.logic_core.specs.Tree.{read};
ghost use Rattle.proof_core.specs.Maps.{as_number};
ghost use Rattle.tableau_branch.specs.Applied.{Tries, Attempts};
ghost use Rattle.theory_rules.specs.Back.{accesses_in, back};
ghost use Rattle.tableau_branch.specs.Branch.{first_attempt};
ghost use Rattle.theory_rules.specs.ReadsBack.{read_back, moved_back, replaced_back, back_in_parts};
ghost use Rattle.tableau_branch.specs.View.{move_of};

use crate::formulas::less;
use crate::outside::push_outside;
use crate::replacing::{Replacing, change_each};
use logic_core::def::Def;
use logic_core::fault::NormalFault;
use logic_core::normal::normal_over;
use logic_core::term::{Node, Term};
use std::alloc::{AllocError, Global};
use tableau_branch::branch::{Branch, Made};
use tableau_branch::build::read;
use tableau_branch::changing::Ground;
use tableau_branch::fact::Fact;
use tableau_branch::outside::Shape;
use tableau_branch::played::{Attempt, Move};

/// The Reads of a Write that stand in the facts outside quantifiers, in preorder.
pub fn accesses(alloc: Global, facts: &[Fact]) -> Result<Vec<Term>, AllocError>
    ensures { IfOk result (λ v. v.items ≡ flat_map accesses_in facts.now) }
{
    let mut accesses = Vec::new(alloc);
    for fact in facts {
        push_outside(alloc, Shape::Access, fact.term(), &mut accesses)?;
    }
    Ok(accesses)
}

/// The number, where the term is one.
fn number(term: &Term) -> Option<i128>
    ensures { result ≡ as_number term.now }
{
    match &term.node {
        Node::Num(n) => Some(*n),
        _ => None,
    }
}

/// What is read at this distance from where the value was written: the value, or what the map held
/// before.
fn read_at(
    alloc: Global,
    distance: i128,
    map: &Term,
    value: &Term,
    index: &Term,
) -> Result<Term, AllocError>
    ensures { IfOk result (λ t. t ≡ (if int_eq distance (pos 0) then value.now else read map.now index.now)) }
{
    if distance == 0 {
        value.copy(alloc)
    } else {
        read(alloc, map, index)
    }
}

/// What a Read of a Write at constant distance reads, and None where the distance is no number. Wide
/// exactly where the distance leaves 128 bits.
fn read_back(
    alloc: Global,
    defs: &[Def],
    branch: &Branch,
    map: &Term,
    at: &Term,
    value: &Term,
    index: &Term,
) -> Result<Option<Term>, NormalFault>
    ensures { Attempts (λ t. t) result (read_back defs.now branch.now (record { table = map.now; at = at.now; value = value.now; index = index.now })) }
{
    let distance = less(alloc, at, index)?;
    let distance = normal_over(alloc, &distance, &branch.vars, defs)?;
    match number(&distance) {
        Some(n) => Ok(Some(read_at(alloc, n, map, value, index)?)),
        None => Ok(None),
    }
}

/// The same of a Read of a Write.
pub fn try_access(
    alloc: Global,
    defs: &[Def],
    branch: &Branch,
    access: &Term,
) -> Result<Option<Term>, NormalFault>
    ensures { Attempts (λ t. (access.now, t)) result (moved_back defs.now branch.now access.now) }
{
    match &access.node {
        Node::Read(written, index) => match &written.node {
            Node::Write(map, at, value) => read_back(alloc, defs, branch, map, at, value, index),
            _ => Err(NormalFault::Wide),
        },
        _ => Err(NormalFault::Wide),
    }
}

/// The first Read of a Write at constant distance, and what it reads. Wide exactly where the distance
/// of one before it leaves 128 bits.
pub fn first_read_back(
    alloc: Global,
    defs: &[Def],
    branch: &Branch,
    accesses: &[Term],
) -> Result<Option<(Term, Term)>, NormalFault>
    ensures { Attempts (λ p. p) result (first_attempt (moved_back defs.now branch.now) accesses.now) }
{
    for access in accesses {
        if let Some(said) = try_access(alloc, defs, branch, access)? {
            return Ok(Some((access.copy(alloc)?, said)));
        }
    }
    Ok(None)
}

/// The Read becomes what it reads in every fact in which it stands outside quantifiers. Wide exactly
/// where a normal form leaves 128 bits.
pub fn move_back(
    alloc: Global,
    defs: &[Def],
    branch: Branch,
    access: &Term,
    said: &Term,
) -> Result<Move, NormalFault>
    ensures { GivesAs move_of result (replaced_back defs.now branch access.now said.now) }
{
    let mut made = Made::begun(alloc, branch);
    let replacing = Replacing {
        ground: Ground::Access,
        left: access,
        right: said,
    };
    change_each(alloc, defs, &mut made, &replacing)?;
    Ok(Move::on_one(alloc, made)?)
}

/// The Reads of a Write that stand in the branch's facts outside quantifiers.
fn accesses_of(alloc: Global, branch: &Branch) -> Result<Vec<Term>, AllocError>
    ensures { IfOk result (λ v. v.items ≡ flat_map accesses_in branch.now.facts) }
{
    accesses(alloc, &branch.facts)
}

/// The rule by its two parts.
fn back_in_parts(alloc: Global, defs: &[Def], branch: Branch) -> Result<Attempt, NormalFault>
    ensures { Tries branch result (back_in_parts defs.now branch) }
{
    let accesses = accesses_of(alloc, &branch)?;
    match first_read_back(alloc, defs, &branch, &accesses)? {
        Some((access, said)) => Ok(Attempt::Gives(move_back(alloc, defs, branch, &access, &said)?)),
        None => Ok(Attempt::Passes(branch)),
    }
}

/// The first Read of a Write at constant distance becomes what it reads, in every fact in which it
/// stands outside quantifiers.
pub fn back(alloc: Global, defs: &[Def], branch: Branch) -> Result<Attempt, NormalFault>
    ensures { Tries branch result (back defs.now branch) }
{
    back_in_parts(alloc, defs, branch)
}
