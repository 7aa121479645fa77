// The rule trichotomy, by number.
ghost use Rattle.std.specs.Prelude.{◌≡◌, ◌<◌, ◌+◌, ◌++◌, [], length, map, take, drop, option_map, IfOk, IfSome};
ghost use Rattle.std.specs.List.{list_any, AllByRecursion};
ghost use Rattle.logic_core.specs.Normal.{normal};
ghost use Rattle.tableau_branch.specs.Branch.{first_attempt};
ghost use Rattle.tableau_branch.specs.Cases.{case};
ghost use Rattle.term_bank.specs.Numbered.{at};
ghost use Rattle.numbered_terms.specs.Stored.{Grows};
ghost use Rattle.numbered_facts.specs.Answers.{StandsFor};
ghost use Rattle.numbered_branches.specs.Applied.{TriesAt};
ghost use Rattle.numbered_branches.specs.Branches.{branch_at, IsBranchOver};
ghost use Rattle.numbered_branches.specs.NumberedChange.{with_facts};
ghost use Rattle.numbered_branches.specs.Standing.{IsBranchAt, IsMadeAt, IsMoveAt};
ghost use Rattle.numbered_branches.specs.View.{move_seen};
ghost use Rattle.theory_rules.specs.Trichotomy.{is_not, decided_by, is_known_way, ways, trichotomy};
ghost use Rattle.theory_rules.specs.Ways.{open_ways, open_at, outer_of, trichotomy_in_parts};
ghost use Rattle.numbered_theory.specs.Places.{place_at, ways_at, IsPlaceBelow, AreWaysBelow, OpensAt, FindsAt, over};
ghost use Rattle.numbered_theory.specs.Forms.{forms_at, AreFormsBelow, AreFormsAt, all_three};

use crate::leads::Leads;
use crate::undecided::{Place, undecided_places};
use crate::ways::{above_zero, at_zero, below_zero};
use logic_core::NormalFault;
use numbered_branches::branch::Branch;
use numbered_branches::cases::case;
use numbered_branches::change::{is_there, take_out};
use numbered_branches::played::{Attempt, Ending, Made, Move};
use numbered_facts::Store;
use numbered_terms::Terms;
use std::alloc::AllocError;
use term_bank::{Node, TermId};

/// That a number is below, at and above zero.
#[derive(Clone, Copy)]
pub struct Ways {
    pub below: TermId,
    pub zero: TermId,
    pub above: TermId,
}

// The normal form of a formula, where it stays in 128 bits.
fn way(store: &mut Store, id: TermId) -> Result<Option<TermId>, AllocError>
    requires { id < length store.old.terms }
    ensures grows { Grows store.old store.new }
    ensures way { IfOk result (λ o. StandsFor store.new.terms o (normal store.old.vars store.old.defs [] (at store.old.terms id))) }
{
    match store.normal(id) {
        Ok(form) => Ok(Some(form)),
        Err(NormalFault::Wide) => Ok(None),
        Err(NormalFault::Memory) => Err(AllocError),
    }
}

// Whether the formula is there already, after tightening.
fn is_known_way(store: &mut Store, branch: &Branch, way: Option<TermId>) -> Result<bool, AllocError>
    requires branch { IsBranchOver store.old.terms branch.now }
    requires way { IfSome way (λ i. i < length store.old.terms) }
    ensures grows { Grows store.old store.new }
    ensures known { IfOk result (λ b. b ≡ is_known_way (branch_at store.old.terms branch.now) (option_map (λ i. at store.old.terms i) way)) }
{
    match way {
        Some(form) => {
            let tight = store.tightened(form)?;
            store.terms().are_stored();
            Ok(is_there(tight, &branch.facts))
        }
        None => Ok(false),
    }
}

// Three formulas, each where it stays in 128 bits.
#[derive(Clone, Copy)]
struct Forms {
    below: Option<TermId>,
    zero: Option<TermId>,
    above: Option<TermId>,
}

// That d is below, at and above zero, each in normal form.
fn three_ways(store: &mut Store, d: TermId) -> Result<Forms, AllocError>
    requires { d < length store.old.terms }
    ensures grows { Grows store.old store.new }
    ensures ways { IfOk result (λ f. AreFormsAt store.new.terms f (ways store.old.defs (over store.old.vars) (at store.old.terms d))) }
{
    let is_below = below_zero(store, d)?;
    let below = way(store, is_below)?;
    let is_same = at_zero(store, d)?;
    let zero = way(store, is_same)?;
    let is_above = above_zero(store, d)?;
    let above = way(store, is_above)?;
    Ok(Forms { below, zero, above })
}

// Whether one of the three is there already, after tightening.
fn is_any_known(store: &mut Store, branch: &Branch, forms: &Forms) -> Result<bool, AllocError>
    requires branch { IsBranchOver store.old.terms branch.now }
    requires forms { AreFormsBelow (length store.old.terms) forms.now }
    ensures grows { Grows store.old store.new }
    ensures known { IfOk result (λ b. b ≡ list_any (is_known_way (branch_at store.old.terms branch.now)) (forms_at store.old.terms forms.now)) }
{
    let below = is_known_way(store, branch, forms.below)?;
    if below {
        return Ok(true);
    }
    let zero = is_known_way(store, branch, forms.zero)?;
    if zero {
        return Ok(true);
    }
    is_known_way(store, branch, forms.above)
}

// The three, where each stays in 128 bits.
fn all_ways(forms: &Forms) -> Option<Ways>
    ensures { result ≡ all_three forms.now }
{
    let below = forms.below?;
    let zero = forms.zero?;
    let above = forms.above?;
    Some(Ways { below, zero, above })
}

// That d is below, at and above zero, unless one of the three is there already. Wide exactly where
// none is and one leaves 128 bits.
fn open_ways(store: &mut Store, branch: &Branch, d: TermId) -> Result<Option<Ways>, NormalFault>
    requires branch { IsBranchOver store.old.terms branch.now }
    requires vars { store.old.vars ≡ branch.now.vars }
    requires d { d < length store.old.terms }
    ensures grows { Grows store.old store.new }
    ensures opens { OpensAt store.new.terms result (open_ways store.old.defs (branch_at store.old.terms branch.now) (at store.old.terms d)) }
{
    let forms = three_ways(store, d)?;
    let known = is_any_known(store, branch, &forms)?;
    if known {
        return Ok(None);
    }
    match all_ways(&forms) {
        Some(ways) => Ok(Some(ways)),
        None => Err(NormalFault::Wide),
    }
}

// The first undecided number of which none of the three ways is there, with its ways. Wide exactly
// where one leaves 128 bits before.
fn first_open(
    store: &mut Store,
    branch: &Branch,
    places: &[Place],
) -> Result<Option<(Place, Ways)>, NormalFault>
    requires branch { IsBranchOver store.old.terms branch.now }
    requires vars { store.old.vars ≡ branch.now.vars }
    requires places { AllByRecursion (IsPlaceBelow (length store.old.terms)) places.now }
    ensures grows { Grows store.old store.new }
    ensures finds { FindsAt store.new.terms result (first_attempt (open_at store.old.defs (branch_at store.old.terms branch.now)) (map (place_at store.old.terms) places.now)) }
{
    for place in places {
        if let Some(ways) = open_ways(store, branch, place.what)? {
            return Ok(Some((*place, ways)));
        }
    }
    Ok(None)
}

// Whether the formula is a Not.
fn is_not(terms: &Terms, id: TermId) -> bool
    requires { id < length terms.now }
    ensures { result ≡ is_not (at terms.now id) }
{
    match terms.node(id) {
        Node::Not(_) => true,
        _ => false,
    }
}

// The branch without the fact at this place.
fn without(branch: Branch, at: usize) -> Branch
    ensures { result ≡ with_facts branch (take at branch.facts ++ drop (at + 1) branch.facts) }
{
    let mut branch = branch;
    if at < branch.facts.len() {
        take_out(&mut branch.facts, at);
    }
    branch
}

// The branch without the fact, where it is a Not.
fn outer(terms: &Terms, branch: &Branch, place: &Place) -> Result<Branch, AllocError>
    requires branch { IsBranchOver terms.now branch.now }
    requires place { IsPlaceBelow (length terms.now) place.now }
    ensures { IfOk result (λ b. IsBranchAt terms.now b (outer_of (branch_at terms.now branch.now) (place_at terms.now place.now))) }
{
    let copy = branch.copy(terms.alloc())?;
    if is_not(terms, place.fact.term) {
        return Ok(without(copy, place.at));
    }
    Ok(copy)
}

// The branch where the number is below, or above, zero, in which a Not Eq goes.
fn outer_case(
    store: &mut Store,
    branch: &Branch,
    place: &Place,
    way: TermId,
) -> Result<Made, AllocError>
    requires branch { IsBranchOver store.old.terms branch.now }
    requires place { IsPlaceBelow (length store.old.terms) place.now }
    requires way { way < length store.old.terms }
    ensures grows { Grows store.old store.new }
    ensures made { IfOk result (λ m. IsMadeAt store.new.terms m (case (outer_of (branch_at store.old.terms branch.now) (place_at store.old.terms place.now)) (at store.old.terms way))) }
{
    let outer = outer(store.terms(), branch, place)?;
    case(store, outer, way)
}

// The branch where it is zero.
fn inner_case(store: &mut Store, branch: &Branch, way: TermId) -> Result<Made, AllocError>
    requires branch { IsBranchOver store.old.terms branch.now }
    requires way { way < length store.old.terms }
    ensures grows { Grows store.old store.new }
    ensures made { IfOk result (λ m. IsMadeAt store.new.terms m (case (branch_at store.old.terms branch.now) (at store.old.terms way))) }
{
    let inner = branch.copy(store.alloc())?;
    case(store, inner, way)
}

// The branches where the number is below, at and above zero: a Not Eq goes in the first and in the
// third.
fn decide(
    store: &mut Store,
    branch: &Branch,
    place: &Place,
    ways: &Ways,
) -> Result<Move, AllocError>
    requires branch { IsBranchOver store.old.terms branch.now }
    requires place { IsPlaceBelow (length store.old.terms) place.now }
    requires ways { AreWaysBelow (length store.old.terms) ways.now }
    ensures grows { Grows store.old store.new }
    ensures step { IfOk result (λ m. IsMoveAt store.new.terms (move_seen m) (decided_by (branch_at store.old.terms branch.now) (place_at store.old.terms place.now) (ways_at store.old.terms ways.now))) }
{
    let below = outer_case(store, branch, place, ways.below)?;
    let zero = inner_case(store, branch, ways.zero)?;
    let above = outer_case(store, branch, place, ways.above)?;
    let made = Vec::from_array(store.alloc(), [below, zero, above])?;
    Ok(Move {
        ending: Ending::Decides(place.what),
        made,
    })
}

// The rule by its two parts.
fn trichotomy_in_parts(
    store: &mut Store,
    leads: &mut Leads,
    branch: Branch,
) -> Result<Attempt, NormalFault>
    requires branch { IsBranchOver store.old.terms branch }
    requires vars { store.old.vars ≡ branch.vars }
    ensures grows { Grows store.old store.new }
    ensures tries { TriesAt store.new.terms (branch_at store.old.terms branch) result (trichotomy_in_parts store.old.defs (branch_at store.old.terms branch)) }
{
    let places = undecided_places(store.terms(), leads, &branch.facts)?;
    match first_open(store, &branch, &places)? {
        Some(found) => Ok(Attempt::Gives(decide(store, &branch, &found.0, &found.1)?)),
        None => Ok(Attempt::Passes(branch)),
    }
}

/// Of a fact `Not Eq(d, 0)`, or of a fact `Le(0, d)` beside a fact `Le(0, -d)`: a branch each where d is
/// below, at and above zero. Passed over where one of the three is there already.
pub fn trichotomy(
    store: &mut Store,
    leads: &mut Leads,
    branch: Branch,
) -> Result<Attempt, NormalFault>
    requires branch { IsBranchOver store.old.terms branch }
    requires vars { store.old.vars ≡ branch.vars }
    ensures grows { Grows store.old store.new }
    ensures tries { TriesAt store.new.terms (branch_at store.old.terms branch) result (trichotomy store.old.defs (branch_at store.old.terms branch)) }
{
    trichotomy_in_parts(store, leads, branch)
}
