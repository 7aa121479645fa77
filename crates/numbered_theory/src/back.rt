// The rule back, by number.
ghost use Rattle.std.specs.Prelude.{◌≡◌, ◌<◌, ℕ, pos, length, map, filter, flat_map, if◌then◌else◌, IfOk};
ghost use Rattle.std.specs.Ordering.{int_eq};
ghost use Rattle.std.specs.List.{AllByRecursion};
ghost use Rattle.proof_core.specs.Maps.{as_number, before_write};
ghost use Rattle.tableau_branch.specs.Branch.{first_attempt};
ghost use Rattle.tableau_branch.specs.Shapes.{is_access};
ghost use Rattle.term_bank.specs.Numbered.{at};
ghost use Rattle.numbered_terms.specs.At.{IsAt};
ghost use Rattle.numbered_terms.specs.Lists.{terms_at};
ghost use Rattle.numbered_terms.specs.Stored.{Grows};
ghost use Rattle.numbered_branches.specs.Applied.{TriesAt, GivesMoveAt};
ghost use Rattle.numbered_branches.specs.Branches.{branch_at, fact_at, IsBranchOver, IsFactBelow};
ghost use Rattle.theory_rules.specs.Back.{accesses_in, back};
ghost use Rattle.theory_rules.specs.ReadsBack.{read_back, moved_back, replaced_back, back_in_parts};
ghost use Rattle.numbered_theory.specs.Places.{over};
ghost use Rattle.numbered_theory.specs.Reads.{access_at, read_at, IsAccessBelow, IsReadOver, ReadsAt, ReadsBackAt};

use crate::reads::{Written, access, distance};
use logic_core::NormalFault;
use numbered_branches::branch::{Branch, Fact};
use numbered_branches::played::{Attempt, Made, Move};
use numbered_branches::replacing::{Replacing, change_each};
use numbered_facts::Store;
use numbered_terms::Terms;
use std::alloc::AllocError;
use tableau_branch::changing::Ground;
use term_bank::{Node, TermId};

/// A Read of a Write, and what it reads.
#[derive(Clone, Copy)]
pub struct ReadBack {
    pub access: TermId,
    pub said: TermId,
}

// The number, where the term is one.
fn number(terms: &Terms, id: TermId) -> Option<i128>
    requires { id < length terms.now }
    ensures { result ≡ as_number (at terms.now id) }
{
    match terms.node(id) {
        Node::Num(n) => Some(*n),
        _ => None,
    }
}

// What is read at this distance from where the value was written: the value, or what the map held
// before.
fn read_at(store: &mut Store, distance: i128, access: &Written) -> Result<TermId, AllocError>
    requires { IsAccessBelow (length store.old.terms) access.now }
    ensures grows { Grows store.old store.new }
    ensures is { IfOk result (λ i. IsAt store.new.terms i (let a = access_at store.old.terms access.now in if int_eq distance (pos 0) then a.value else before_write a)) }
{
    if distance == 0 {
        return Ok(access.value);
    }
    store.make(Node::Read(access.table, access.index))
}

// What a Read of a Write at constant distance reads, and None where the distance is no number. Wide
// exactly where the distance leaves 128 bits.
fn read_back(store: &mut Store, access: &Written) -> Result<Option<TermId>, NormalFault>
    requires { IsAccessBelow (length store.old.terms) access.now }
    ensures grows { Grows store.old store.new }
    ensures reads { ReadsAt store.new.terms result (read_back store.old.defs (over store.old.vars) (access_at store.old.terms access.now)) }
{
    let distance = distance(store, access)?;
    match number(store.terms(), distance) {
        Some(n) => {
            let said = read_at(store, n, access)?;
            Ok(Some(said))
        }
        None => Ok(None),
    }
}

// The same of a Read of a Write.
fn try_access(store: &mut Store, id: TermId) -> Result<Option<ReadBack>, NormalFault>
    requires { id < length store.old.terms }
    ensures grows { Grows store.old store.new }
    ensures reads { ReadsBackAt store.new.terms result (moved_back store.old.defs (over store.old.vars) (at store.old.terms id)) }
{
    match access(store.terms(), id) {
        Some(parts) => match read_back(store, &parts)? {
            Some(said) => Ok(Some(ReadBack { access: id, said })),
            None => Ok(None),
        },
        None => Err(NormalFault::Wide),
    }
}

// Whether the term is a Read of a Write.
fn is_access(terms: &Terms, id: TermId) -> bool
    requires { id < length terms.now }
    ensures { result ≡ is_access (at terms.now id) }
{
    match access(terms, id) {
        Some(_) => true,
        None => false,
    }
}

// The first Read of a Write at constant distance among these terms, and what it reads. Wide exactly
// where the distance of one before it leaves 128 bits.
fn first_read_back(store: &mut Store, ids: &[TermId]) -> Result<Option<ReadBack>, NormalFault>
    requires { AllByRecursion (λ i. i < length store.old.terms) ids.now }
    ensures grows { Grows store.old store.new }
    ensures reads { ReadsBackAt store.new.terms result (first_attempt (moved_back store.old.defs (over store.old.vars)) (filter is_access (terms_at store.old.terms ids.now))) }
{
    for id in ids {
        if is_access(store.terms(), *id) {
            if let Some(found) = try_access(store, *id)? {
                return Ok(Some(found));
            }
        }
    }
    Ok(None)
}

// The first Read of a Write at constant distance among the Reads and Calls of a fact outside quantifiers.
fn read_back_among(store: &mut Store, fact: TermId) -> Result<Option<ReadBack>, NormalFault>
    requires { fact < length store.old.terms }
    ensures grows { Grows store.old store.new }
    ensures reads { (n : ℕ) → ReadsBackAt store.new.terms result (first_attempt (moved_back store.old.defs (over store.old.vars)) (accesses_in (record { term = at store.old.terms fact; number = n }))) }
{
    let ids = store.ground(fact)?;
    first_read_back(store, &ids)
}

// The first Read of a Write at constant distance in a fact outside quantifiers.
fn read_back_in(store: &mut Store, fact: TermId) -> Result<Option<ReadBack>, NormalFault>
    requires { fact < length store.old.terms }
    ensures grows { Grows store.old store.new }
    ensures reads { (n : ℕ) → ReadsBackAt store.new.terms result (first_attempt (moved_back store.old.defs (over store.old.vars)) (accesses_in (record { term = at store.old.terms fact; number = n }))) }
{
    let first = store.access(fact)?;
    match first {
        Some(_) => read_back_among(store, fact),
        None => Ok(None),
    }
}

// The first Read of a Write at constant distance in these facts, and what it reads.
fn oldest_read_back(store: &mut Store, facts: &[Fact]) -> Result<Option<ReadBack>, NormalFault>
    requires { AllByRecursion (IsFactBelow (length store.old.terms)) facts.now }
    ensures grows { Grows store.old store.new }
    ensures reads { ReadsBackAt store.new.terms result (first_attempt (moved_back store.old.defs (over store.old.vars)) (flat_map accesses_in (map (fact_at store.old.terms) facts.now))) }
{
    for fact in facts {
        if let Some(found) = read_back_in(store, fact.term)? {
            return Ok(Some(found));
        }
    }
    Ok(None)
}

// The Read becomes what it reads in every fact in which it stands outside quantifiers. Wide exactly
// where a normal form leaves 128 bits.
fn move_back(store: &mut Store, branch: Branch, found: &ReadBack) -> Result<Move, NormalFault>
    requires branch { IsBranchOver store.old.terms branch }
    requires vars { store.old.vars ≡ branch.vars }
    requires found { IsReadOver store.old.terms found.now }
    ensures grows { Grows store.old store.new }
    ensures gives { GivesMoveAt store.new.terms result (let r = read_at store.old.terms found.now in replaced_back store.old.defs (branch_at store.old.terms branch) r.0 r.1) }
{
    let alloc = store.alloc();
    let mut made = Made::begun(alloc, branch);
    let replacing = Replacing {
        ground: Ground::Access,
        left: found.access,
        right: found.said,
    };
    change_each(store, &mut made, &replacing)?;
    Ok(Move::on_one(alloc, made)?)
}

// The rule by its two parts.
fn back_in_parts(store: &mut Store, branch: Branch) -> Result<Attempt, NormalFault>
    requires branch { IsBranchOver store.old.terms branch }
    requires vars { store.old.vars ≡ branch.vars }
    ensures grows { Grows store.old store.new }
    ensures tries { TriesAt store.new.terms (branch_at store.old.terms branch) result (back_in_parts store.old.defs (branch_at store.old.terms branch)) }
{
    match oldest_read_back(store, &branch.facts)? {
        Some(found) => Ok(Attempt::Gives(move_back(store, branch, &found)?)),
        None => Ok(Attempt::Passes(branch)),
    }
}

/// The first Read of a Write at constant distance becomes what it reads, in every fact in which it
/// stands outside quantifiers.
pub fn back(store: &mut Store, branch: Branch) -> Result<Attempt, NormalFault>
    requires branch { IsBranchOver store.old.terms branch }
    requires vars { store.old.vars ≡ branch.vars }
    ensures grows { Grows store.old store.new }
    ensures tries { TriesAt store.new.terms (branch_at store.old.terms branch) result (back store.old.defs (branch_at store.old.terms branch)) }
{
    back_in_parts(store, branch)
}
