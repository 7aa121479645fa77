// The rule trichotomy.
ghost use Rattle.std.specs.Prelude.{◌≡◌, [], ◌∷◌, IfOk, IsErrOf};
ghost use Rattle.std.specs.List.{list_any};
ghost use Rattle.std.specs.Option.{option_copied};
ghost use Rattle.logic_core.specs.Gives.{GivesAs};
ghost use Rattle.tableau_branch.specs.Applied.{Tries, Attempts};
ghost use Rattle.tableau_branch.specs.Branch.{each, first_attempt, normal_in, places};
ghost use Rattle.theory_rules.specs.Trichotomy.{at_most_form, at_most_forms, is_opposite, equation_of_zero, undecided_by, undecided, is_not, decided_by, is_known_way, trichotomy};
ghost use Rattle.plain_search.specs.WaysView.{ways_of};
ghost use Rattle.theory_rules.specs.Ways.{open_of, open_ways, open_at, outer_of, trichotomy_in_parts};
ghost use Rattle.tableau_branch.specs.View.{move_of};

use crate::additions::case;
use crate::entries::{is_at_most, same_parts};
use crate::formulas::{above_zero, at_zero, below_zero};
use linear_certs::tightening::tighten;
use logic_core::def::Def;
use logic_core::fault::NormalFault;
use logic_core::normal::normal_over;
use logic_core::sum::Linear;
use logic_core::term::{Node, Term};
use std::alloc::{AllocError, Global};
use tableau_branch::branch::Branch;
use tableau_branch::change::take_out;
use tableau_branch::fact::{Fact, SizedTerm, is_there};
use tableau_branch::found::At;
use tableau_branch::played::{Attempt, Ending, Move};
use theory_rules::counting::same_number;

/// That a number is below, at and above zero.
#[derive(Drop)]
pub struct Ways {
    pub below: Term,
    pub zero: Term,
    pub above: Term,
}

/// The linear forms of the facts `Le(0, s)`.
fn at_most_forms(alloc: Global, facts: &[Fact]) -> Result<Vec<Linear>, AllocError>
    ensures { IfOk result (λ v. v.items ≡ at_most_forms facts.now) }
{
    let mut forms = Vec::new(alloc);
    for fact in facts {
        if let Some(form) = at_most_form(alloc, fact)? {
            forms.push(form)?;
        }
    }
    Ok(forms)
}

/// The form s of `Le(0, s)`.
pub fn at_most_form(alloc: Global, fact: &Fact) -> Result<Option<Linear>, AllocError>
    ensures { IfOk result (λ o. o ≡ at_most_form fact.now) }
{
    if is_at_most(fact.term()) {
        Linear::of(alloc, fact.term())
    } else {
        Ok(None)
    }
}

/// Whether one of the forms is the opposite of this one.
fn has_opposite(forms: &[Linear], form: &Linear) -> bool
    ensures { result ≡ list_any (is_opposite form.now) forms.now }
{
    for other in forms {
        if is_opposite(form, other) {
            return true;
        }
    }
    false
}

/// Whether the second form is the opposite of the first.
pub fn is_opposite(form: &Linear, other: &Linear) -> bool
    ensures { result ≡ is_opposite form.now other.now }
{
    same_parts(true, &form.parts, &other.parts) && same_number(true, form.rest, other.rest)
}

/// d of `Eq(d, 0)`.
fn equation_of_zero(t: &Term) -> Option<&Term>
    ensures { option_copied result ≡ equation_of_zero t.now }
{
    match &t.node {
        Node::Eq(d, zero) => { if zero.is_zero() { Some(d) } else { None } }
        _ => None,
    }
}

/// d of a fact `Not Eq(d, 0)`, or of a fact `Le(0, d)` beside a fact `Le(0, -d)`, which has one of these
/// forms.
pub fn undecided<'a>(
    alloc: Global,
    forms: &[Linear],
    term: &'a Term,
) -> Result<Option<&'a Term>, AllocError>
    ensures { IfOk result (λ o. option_copied o ≡ undecided_by forms.now term.now) }
{
    match &term.node {
        Node::Not(t) => Ok(equation_of_zero(t)),
        Node::Le(_, d) => match Linear::of(alloc, term)? {
            Some(form) => {
                if has_opposite(forms, &form) {
                    Ok(Some(d))
                } else {
                    Ok(None)
                }
            }
            None => Ok(None),
        },
        _ => Ok(None),
    }
}

/// The normal form of a formula, where it stays in 128 bits.
fn way(alloc: Global, defs: &[Def], branch: &Branch, t: &Term) -> Result<Option<Term>, AllocError>
    ensures { IfOk result (λ o. o ≡ normal_in defs.now branch.now t.now) }
{
    match normal_over(alloc, t, &branch.vars, defs) {
        Ok(form) => Ok(Some(form)),
        Err(NormalFault::Wide) => Ok(None),
        Err(NormalFault::Memory) => Err(AllocError),
    }
}

/// Whether the formula is there already, after tightening.
fn is_known_way(alloc: Global, branch: &Branch, way: &Option<Term>) -> Result<bool, AllocError>
    ensures { IfOk result (λ b. b ≡ is_known_way branch.now way.now) }
{
    match way {
        Some(form) => {
            let tight = SizedTerm::of(tighten(alloc, form)?);
            Ok(is_there(&tight, &branch.facts))
        }
        None => Ok(false),
    }
}

/// Whether one of the three is there already, after tightening.
fn is_any_known(
    alloc: Global,
    branch: &Branch,
    below: &Option<Term>,
    zero: &Option<Term>,
    above: &Option<Term>,
) -> Result<bool, AllocError>
    ensures { IfOk result (λ b. b ≡ list_any (is_known_way branch.now) (below.now ∷ zero.now ∷ above.now ∷ [])) }
{
    Ok(
        is_known_way(alloc, branch, below)?
            || is_known_way(alloc, branch, zero)?
            || is_known_way(alloc, branch, above)?,
    )
}

/// The three, where each stays in 128 bits.
fn all_ways(
    below: Option<Term>,
    zero: Option<Term>,
    above: Option<Term>,
) -> Result<Ways, NormalFault>
    ensures gives { GivesAs ways_of result (each (λ o. o) (below ∷ zero ∷ above ∷ [])) }
    ensures memory { ¬ IsErrOf result NormalFault.Memory }
{
    let Some(below) = below else {
        return Err(NormalFault::Wide);
    };
    let Some(zero) = zero else {
        return Err(NormalFault::Wide);
    };
    let Some(above) = above else {
        return Err(NormalFault::Wide);
    };
    Ok(Ways { below, zero, above })
}

/// The three, unless one is there already. Wide exactly where none is and one leaves 128 bits.
fn open_of(
    alloc: Global,
    branch: &Branch,
    below: Option<Term>,
    zero: Option<Term>,
    above: Option<Term>,
) -> Result<Option<Ways>, NormalFault>
    ensures { Attempts ways_of result (open_of branch.now (below ∷ zero ∷ above ∷ [])) }
{
    if is_any_known(alloc, branch, &below, &zero, &above)? {
        return Ok(None);
    }
    Ok(Some(all_ways(below, zero, above)?))
}

/// That d is below, at and above zero, unless one of the three is there already. Wide exactly where
/// none is and one leaves 128 bits.
pub fn open_ways(
    alloc: Global,
    defs: &[Def],
    branch: &Branch,
    d: &Term,
) -> Result<Option<Ways>, NormalFault>
    ensures { Attempts ways_of result (open_ways defs.now branch.now d.now) }
{
    let below = way(alloc, defs, branch, &below_zero(alloc, d)?)?;
    let zero = way(alloc, defs, branch, &at_zero(alloc, d)?)?;
    let above = way(alloc, defs, branch, &above_zero(alloc, d)?)?;
    open_of(alloc, branch, below, zero, above)
}

/// The first undecided number of which none of the three ways is there, with its ways. Wide exactly
/// where one leaves 128 bits before.
pub fn first_open(
    alloc: Global,
    defs: &[Def],
    branch: &Branch,
    places: Vec<At<Term>>,
) -> Result<Option<(At<Term>, Ways)>, NormalFault>
    ensures { Attempts (λ p. (p.0, ways_of p.1)) result (first_attempt (open_at defs.now branch.now) places.items) }
{
    let mut places = places;
    places.reverse();
    while let Some(place) = places.pop() {
        if let Some(ways) = open_ways(alloc, defs, branch, &place.what)? {
            return Ok(Some((place, ways)));
        }
    }
    Ok(None)
}

/// The facts that leave a number undecided, oldest first.
fn undecided_places(alloc: Global, branch: &Branch) -> Result<Vec<At<Term>>, AllocError>
    ensures { IfOk result (λ v. v.items ≡ places (undecided branch.now) branch.now) }
{
    let forms = at_most_forms(alloc, &branch.facts)?;
    let mut places = Vec::new(alloc);
    for (at, fact) in branch.facts.iter().enumerate() {
        if let Some(d) = undecided(alloc, &forms, fact.term())? {
            let d = d.copy(alloc)?;
            places.push(At::new(alloc, at, fact, d)?)?;
        }
    }
    Ok(places)
}

/// The branch without the fact, where it is a Not.
fn outer(alloc: Global, branch: &Branch, place: &At<Term>) -> Result<Branch, AllocError>
    ensures { IfOk result (λ b. b ≡ outer_of branch.now place.now) }
{
    let mut outer = branch.copy(alloc)?;
    if is_not(&place.fact.term) && place.at < outer.facts.len() {
        take_out(&mut outer.facts, place.at);
    }
    Ok(outer)
}

/// Whether the formula is a Not.
fn is_not(term: &Term) -> bool
    ensures { result ≡ is_not term.now }
{
    matches!(&term.node, Node::Not(_))
}

/// The branches where the number is below, at and above zero: a Not Eq goes in the first and in the
/// third.
pub fn decide(
    alloc: Global,
    branch: Branch,
    place: At<Term>,
    ways: Ways,
) -> Result<Move, AllocError>
    ensures { IfOk result (λ m. move_of m ≡ decided_by branch place (ways_of ways)) }
{
    let first = outer(alloc, &branch, &place)?;
    let third = first.copy(alloc)?;
    let below = case(alloc, first, ways.below)?;
    let zero = case(alloc, branch, ways.zero)?;
    let above = case(alloc, third, ways.above)?;
    Ok(Move {
        ending: Ending::Decides(place.what),
        made: Vec::from_array(alloc, [below, zero, above])?,
    })
}

/// The rule by its two parts.
fn trichotomy_in_parts(alloc: Global, defs: &[Def], branch: Branch) -> Result<Attempt, NormalFault>
    ensures { Tries branch result (trichotomy_in_parts defs.now branch) }
{
    let places = undecided_places(alloc, &branch)?;
    match first_open(alloc, defs, &branch, places)? {
        Some((place, ways)) => Ok(Attempt::Gives(decide(alloc, branch, place, ways)?)),
        None => Ok(Attempt::Passes(branch)),
    }
}

/// Of a fact `Not Eq(d, 0)`, or of a fact `Le(0, d)` beside a fact `Le(0, -d)`: a branch each where d is
/// below, at and above zero. Passed over where one of the three is there already.
pub fn trichotomy(alloc: Global, defs: &[Def], branch: Branch) -> Result<Attempt, NormalFault>
    ensures { Tries branch result (trichotomy defs.now branch) }
{
    trichotomy_in_parts(alloc, defs, branch)
}
