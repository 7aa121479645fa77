// The rule rewrite, by number.
ghost use Rattle.std.specs.Prelude.{◌≡◌, ◌<◌, length, map, OnOk};
ghost use Rattle.logic_core.specs.Gives.{GivesAs};
ghost use Rattle.logic_rules.specs.Rewriting.{rewritten_by, rewrite};
ghost use Rattle.logic_rules.specs.View.{rest_rewritten};
ghost use Rattle.term_bank.specs.Numbered.{at};
ghost use Rattle.numbered_terms.specs.Stored.{Grows};
ghost use Rattle.numbered_branches.specs.Branches.{IsBranchOver, IsFactBelow, IsMadeOver, branch_at, fact_at, made_at};
ghost use Rattle.numbered_branches.specs.Applied.{TriesAt, GivesMoveAt};
ghost use Rattle.numbered_instances.specs.Shared.{AreShared, IsCounted};

use crate::lefts::oldest_left;
use crate::near::change_near;
use crate::shared::Shared;
use crate::within::{rewrite_marks, rewrite_terms};
use logic_core::NormalFault;
use numbered_branches::branch::{Branch, Fact, Mark};
use numbered_branches::played::{Attempt, Made, Move};
use numbered_branches::replacing::Replacing;
use numbered_facts::Store;
use tableau_branch::changing::Ground;
use term_bank::TermId;

// The seen calls.
fn calls_of(made: &Made) -> &[TermId]
    ensures { result.now ≡ made.now.branch.calls }
{
    &made.branch.calls
}

// The marks.
fn marks_of(made: &Made) -> &[Mark]
    ensures { result.now ≡ made.now.branch.marks }
{
    &made.branch.marks
}

// Other seen calls and marks take their place.
fn put_rest(made: &mut Made, calls: Vec<TermId>, marks: Vec<Mark>)
    ensures { made.new ≡ record { branch = record made.old.branch { calls = calls.items; marks = marks.items }; steps = made.old.steps; size = made.old.size } }
{
    made.branch.calls = calls;
    made.branch.marks = marks;
}

// The left side becomes the right one in the seen calls and in the marks.
fn rewrite_rest(
    store: &mut Store,
    made: &mut Made,
    left: TermId,
    right: TermId,
) -> Result<(), NormalFault>
    requires left { left < length store.old.terms }
    requires right { right < length store.old.terms }
    requires made { IsMadeOver store.old.terms made.old }
    requires vars { store.old.vars ≡ made.old.branch.vars }
    ensures grows { Grows store.old store.new }
    ensures made { OnOk result (IsMadeOver store.new.terms made.new) }
    ensures gives { GivesAs (λ _. made_at store.new.terms made.new) result (rest_rewritten store.old.defs (at store.old.terms left) (at store.old.terms right) (made_at store.old.terms made.old)) }
{
    let calls = rewrite_terms(store, left, right, calls_of(made))?;
    let marks = rewrite_marks(store, left, right, marks_of(made))?;
    put_rest(made, calls, marks);
    Ok(())
}

// By the fact at this place its left side becomes the right one in all other facts, in the seen calls and in the marks.
// Wide exactly where the right side or a normal form leaves 128 bits.
fn rewrite_by(
    store: &mut Store,
    shared: &Shared,
    branch: Branch,
    fact: &Fact,
    left: TermId,
    place: usize,
) -> Result<Move, NormalFault>
    requires branch { IsBranchOver store.old.terms branch }
    requires vars { store.old.vars ≡ branch.vars }
    requires fact { IsFactBelow (length store.old.terms) fact.now }
    requires left { left < length store.old.terms }
    requires shared { AreShared store.old.terms (map (λ f. f.term) branch.facts) shared.now.counts.items }
    ensures grows { Grows store.old store.new }
    ensures gives { GivesMoveAt store.new.terms result (rewritten_by store.old.defs (branch_at store.old.terms branch) (fact_at store.old.terms fact.now) (at store.old.terms left)) }
{
    let Some(right) = store.says(fact.term, left)? else {
        return Err(NormalFault::Wide);
    };
    let replacing = Replacing {
        ground: Ground::Fact(fact.number),
        left,
        right,
    };
    let mut made = Made::begun(store.alloc(), branch);
    change_near(store, shared, &mut made, &replacing, place)?;
    rewrite_rest(store, &mut made, left, right)?;
    Ok(Move::on_one(store.alloc(), made)?)
}

/// By the oldest oriented fact whose left side occurs in another fact, the right side takes the place of
/// the left one.
pub fn rewrite(
    store: &mut Store,
    shared: &mut Shared,
    branch: Branch,
) -> Result<Attempt, NormalFault>
    requires branch { IsBranchOver store.old.terms branch }
    requires vars { store.old.vars ≡ branch.vars }
    requires counted { IsCounted store.old.terms shared.old }
    ensures grows { Grows store.old store.new }
    ensures counted { OnOk result (IsCounted store.new.terms shared.new) }
    ensures tries { TriesAt store.new.terms (branch_at store.old.terms branch) result (rewrite store.old.defs (branch_at store.old.terms branch)) }
{
    match oldest_left(store, shared, &branch)? {
        Some(found) => {
            let made = rewrite_by(store, shared, branch, &found.fact, found.term, found.at)?;
            Ok(Attempt::Gives(made))
        }
        None => Ok(Attempt::Passes(branch)),
    }
}
