// The rule combine.
ghost use Rattle.std.specs.Prelude.{◌≡◌, ◌||◌, [], true, IfOk, map};
ghost use Rattle.logic_core.specs.Gives.{Gives, GivesAs};
ghost use Rattle.logic_core.specs.Junction.{is_truth};
ghost use Rattle.logic_core.specs.Tighten.{tighten};
ghost use Rattle.tableau_branch.specs.Applied.{Tries, Attempts};
ghost use Rattle.tableau_branch.specs.Branch.{first_attempt};
ghost use Rattle.theory_rules.specs.Combining.{are_opposite, counted, lead_size, multiplier, combined_pair, is_known, combine_pair, pairs_from, combined_by, combine};
ghost use Rattle.plain_search.specs.CombinedView.{combined_of};
ghost use Rattle.logic_core.specs.Combine.{lead};
ghost use Rattle.tableau_branch.specs.View.{move_of};

use crate::entries::{Entry, are_opposite, entries, is_known};
use linear_certs::gcd;
use linear_certs::tightening::tighten;
use logic_core::def::Def;
use logic_core::fault::NormalFault;
use logic_core::sum::Linear;
use logic_core::term::Term;
use proof_core::proof::Step;
use std::alloc::{AllocError, Global};
use tableau_branch::branch::{Branch, Made};
use tableau_branch::change::{add, append_by};
use tableau_branch::played::{Attempt, Move};

/// Two linear facts, the multipliers of their forms, and the sum.
#[derive(Drop)]
pub struct Combined<'a> {
    pub first: &'a Entry,
    pub second: &'a Entry,
    pub p: i128,
    pub q: i128,
    pub fact: Term,
}

/// The absolute value of the lead's coefficient.
fn lead_size(entry: &Entry) -> u128
    ensures { result ≡ lead_size entry.now }
{
    match entry.form.lead() {
        Some((k, _)) => k.unsigned_abs(),
        None => 0,
    }
}

/// The number as the multiplier of the entry's form: negative where it is turned. None exactly where it
/// leaves 128 bits.
fn multiplier(entry: &Entry, number: u128) -> Option<i128>
    ensures { result ≡ multiplier entry.now number }
{
    if number > i128::MAX as u128 {
        return None;
    }
    let number = number as i128;
    if entry.turned {
        Some(-number)
    } else {
        Some(number)
    }
}

/// Such multiples of the two that their leads cancel, added. Wide exactly where a number leaves 128
/// bits.
pub fn combine_two<'a>(
    alloc: Global,
    d: &'a Entry,
    e: &'a Entry,
) -> Result<Combined<'a>, NormalFault>
    requires { are_opposite (lead (counted d.now)) (lead (counted e.now)) ≡ true }
    ensures { GivesAs combined_of result (combined_pair d.now e.now) }
{
    let a = lead_size(d);
    let b = lead_size(e);
    let g = gcd(a, b);
    let first_times = b / g;
    let second_times = a / g;
    let Some(p) = multiplier(d, first_times) else {
        return Err(NormalFault::Wide);
    };
    let Some(q) = multiplier(e, second_times) else {
        return Err(NormalFault::Wide);
    };
    let sum = Linear::combine(alloc, &d.form, p, &e.form, q)?;
    Ok(Combined {
        first: d,
        second: e,
        p,
        q,
        fact: sum.at_least_zero(alloc)?,
    })
}

/// Whether the sum is true, or known after tightening.
pub fn says_nothing_new(alloc: Global, entries: &[Entry], sum: &Term) -> Result<bool, AllocError>
    ensures { IfOk result (λ b. b ≡ (is_truth true sum.now || is_known entries.now (tighten sum.now))) }
{
    if sum.is_truth(true) {
        return Ok(true);
    }
    is_known(alloc, entries, &tighten(alloc, sum)?)
}

/// The combination of the two, unless it says nothing new. Wide exactly where it leaves 128 bits.
pub fn combine_pair<'a>(
    alloc: Global,
    entries: &[Entry],
    d: &'a Entry,
    e: &'a Entry,
) -> Result<Option<Combined<'a>>, NormalFault>
    ensures { Attempts combined_of result (combine_pair entries.now (d.now, e.now)) }
{
    if !are_opposite(d, e) {
        return Ok(None);
    }
    let combined = combine_two(alloc, d, e)?;
    if says_nothing_new(alloc, entries, &combined.fact)? {
        Ok(None)
    } else {
        Ok(Some(combined))
    }
}

/// The first combination of one of these with a later one.
fn combine_with<'a>(
    alloc: Global,
    entries: &[Entry],
    before: &'a [Entry],
    e: &'a Entry,
) -> Result<Option<Combined<'a>>, NormalFault>
    ensures { Attempts combined_of result (first_attempt (combine_pair entries.now) (map (λ d. (d, e.now)) before.now)) }
{
    for d in before {
        if let Some(combined) = combine_pair(alloc, entries, d, e)? {
            return Ok(Some(combined));
        }
    }
    Ok(None)
}

/// The first combination: that of the oldest later fact, and then of the oldest earlier one.
pub fn first_combined(alloc: Global, entries: &[Entry]) -> Result<Option<Combined>, NormalFault>
    ensures { Attempts combined_of result (first_attempt (combine_pair entries.now) (pairs_from [] entries.now)) }
{
    for (i, e) in entries.iter().enumerate() {
        if let Some(combined) = combine_with(alloc, entries, &entries[..i], e)? {
            return Ok(Some(combined));
        }
    }
    Ok(None)
}

/// The sum is added, tightened. No definition plays a part.
pub fn add_combined(alloc: Global, branch: Branch, combined: Combined) -> Result<Move, AllocError>
    ensures { IfOk result (λ m. move_of m ≡ combined_by [] branch (combined_of combined.entry)) }
{
    let Combined {
        first,
        second,
        p,
        q,
        fact,
    } = combined;
    let mut made = Made::begun(alloc, branch);
    let step = Step::Combine {
        first: first.number,
        first_times: p,
        second: second.number,
        second_times: q,
    };
    let sum = append_by(alloc, &mut made, step, fact)?;
    add(&mut made, sum)?;
    Ok(Move::on_one(alloc, made)?)
}

/// Of two linear facts with one lead atom and coefficients of opposite signs such multiples are added
/// that it goes away.
pub fn combine(alloc: Global, defs: &[Def], branch: Branch) -> Result<Attempt, NormalFault>
    ensures { Tries branch result (combine defs.now branch) }
{
    let entries = entries(alloc, defs, &branch)?;
    match first_combined(alloc, &entries)? {
        Some(combined) => Ok(Attempt::Gives(add_combined(alloc, branch, combined)?)),
        None => Ok(Attempt::Passes(branch)),
    }
}
