// Moves of numbers that go on on one branch.
ghost use Rattle.std.specs.Prelude.{◌≡◌, ◌<◌, length, map, IfOk};
ghost use Rattle.std.specs.List.{AllByRecursion};
ghost use Rattle.tableau_branch.specs.OneBranch.{adding, changing};
ghost use Rattle.logic_rules.specs.Flattening.{adding_each};
ghost use Rattle.term_bank.specs.Numbered.{at};
ghost use Rattle.numbered_terms.specs.Stored.{Grows};
ghost use Rattle.numbered_branches.specs.Branches.{IsStepBelow, IsBranchOver, branch_at, step_at};
ghost use Rattle.numbered_branches.specs.Standing.{IsMoveAt};
ghost use Rattle.numbered_branches.specs.StepView.{step_seen};
ghost use Rattle.numbered_branches.specs.View.{move_seen};

use crate::append::{append_by, append_each};
use crate::branch::Branch;
use crate::change::{add, add_each, change_at};
use crate::played::{Made, Move};
use crate::step::Step;
use numbered_facts::Store;
use std::alloc::AllocError;
use term_bank::TermId;

/// The fact that the node appends is added.
pub fn adding(
    store: &mut Store,
    branch: Branch,
    step: Step,
    term: TermId,
) -> Result<Move, AllocError>
    requires term { term < length store.old.terms }
    requires step { IsStepBelow (length store.old.terms) (step_seen step) }
    requires branch { IsBranchOver store.old.terms branch }
    ensures grows { Grows store.old store.new }
    ensures step { IfOk result (λ m. IsMoveAt store.new.terms (move_seen m) (adding (step_at store.old.terms (step_seen step)) (at store.old.terms term) (branch_at store.old.terms branch))) }
{
    let mut made = Made::begun(store.alloc(), branch);
    let fact = append_by(store, &mut made, step, term)?;
    add(store.terms(), &mut made, &fact)?;
    Move::on_one(store.alloc(), made)
}

/// The facts that the node appends are added.
pub fn adding_each(
    store: &mut Store,
    branch: Branch,
    step: Step,
    terms: &[TermId],
) -> Result<Move, AllocError>
    requires terms { AllByRecursion (λ i. i < length store.old.terms) terms.now }
    requires step { IsStepBelow (length store.old.terms) (step_seen step) }
    requires branch { IsBranchOver store.old.terms branch }
    ensures grows { Grows store.old store.new }
    ensures step { IfOk result (λ m. IsMoveAt store.new.terms (move_seen m) (adding_each (step_at store.old.terms (step_seen step)) (map (at store.old.terms) terms.now) (branch_at store.old.terms branch))) }
{
    let mut made = Made::begun(store.alloc(), branch);
    let facts = append_each(store, &mut made, step, terms)?;
    add_each(store.terms(), &mut made, &facts)?;
    Move::on_one(store.alloc(), made)
}

/// The fact at `place` becomes the one that the node appends.
pub fn changing(
    store: &mut Store,
    branch: Branch,
    place: usize,
    step: Step,
    term: TermId,
) -> Result<Move, AllocError>
    requires place { place < length branch.facts }
    requires term { term < length store.old.terms }
    requires step { IsStepBelow (length store.old.terms) (step_seen step) }
    requires branch { IsBranchOver store.old.terms branch }
    ensures grows { Grows store.old store.new }
    ensures step { IfOk result (λ m. IsMoveAt store.new.terms (move_seen m) (changing place (step_at store.old.terms (step_seen step)) (at store.old.terms term) (branch_at store.old.terms branch))) }
{
    let mut made = Made::begun(store.alloc(), branch);
    let fact = append_by(store, &mut made, step, term)?;
    change_at(store.terms(), &mut made, place, &fact);
    Move::on_one(store.alloc(), made)
}
