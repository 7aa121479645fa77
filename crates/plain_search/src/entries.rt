// The linear facts that are combined.
ghost use Rattle.std.specs.Prelude.{◌≡◌, [], ◌∷◌, ◌++◌, int_le, true, false, IfOk, OnOk};
ghost use Rattle.std.specs.List.{list_any};
ghost use Rattle.logic_core.specs.Same.{same_parts};
ghost use Rattle.logic_core.specs.View.{parts_of};
ghost use Rattle.logic_core.specs.Combine.{lead};
ghost use Rattle.theory_rules.specs.Combining.{counted, is_at_most, is_positive, is_negative, are_opposite, is_known, entries_of, entries};
ghost use Rattle.theory_rules.specs.Counting.{counted_parts, counted_number, has_no_greater};

use crate::left_sides::left_side;
use logic_core::copy::copy_parts;
use logic_core::def::Def;
use logic_core::sum::Linear;
use logic_core::term::{Node, Term};
use std::alloc::{AllocError, Global};
use std::marker::Model;
use tableau_branch::branch::Branch;
use tableau_branch::fact::Fact;
use theory_rules::counting::same_number;

/// A linear fact of this number: `Le(0, form)`, or `Eq(form, 0)` counted as `Le(0, form)` or, where it
/// is turned, as `Le(0, -form)`.
#[derive(Drop)]
pub struct Entry {
    pub number: u64,
    pub form: Linear,
    pub turned: bool,
}

impl Model for Entry {
    ghost use Rattle.theory_rules.specs.Combining.{Entry as entry};
    ghost use Rattle.theory_rules.specs.Codes.{coded_entry};

    ghost Value = { entry };

    ghost coded = { coded_entry };

    ghost view = { λ a. record { number = a.number; form = a.form; turned = a.turned } };
}

/// Whether the second parts are the first ones, or their opposites where these are turned.
#[tactic(auto, using(theory_rules::proofs::CountedForms::counted_part))]
pub fn same_parts(turned: bool, mine: &[(i128, Term)], theirs: &[(i128, Term)]) -> bool
    ensures { result ≡ same_parts (counted_parts turned (parts_of mine.now)) (parts_of theirs.now) }
{
    let shared = mine.len().min(theirs.len());
    for i in 0..shared {
        if !same_number(turned, mine[i].0, theirs[i].0) || !mine[i].1.equals(&theirs[i].1) {
            return false;
        }
    }
    mine.len() == theirs.len()
}

/// Whether the fact has the same parts as this form, and a constant no greater.
pub fn has_no_greater(entry: &Entry, form: &Linear) -> bool
    ensures { result ≡ has_no_greater form.now entry.now }
{
    same_parts(entry.turned, &entry.form.parts, &form.parts)
        && is_no_greater(entry.turned, entry.form.rest, form.rest)
}

/// Whether the first number, or its opposite where it is turned, is at most the second.
fn is_no_greater(turned: bool, mine: i128, theirs: i128) -> bool
    ensures { result ≡ int_le (counted_number turned mine) theirs }
{
    if turned {
        match mine.checked_neg() {
            Some(opposite) => opposite <= theirs,
            None => false,
        }
    } else {
        mine <= theirs
    }
}

/// Whether a fact has the same parts, and a constant no greater.
pub fn is_known(alloc: Global, entries: &[Entry], fact: &Term) -> Result<bool, AllocError>
    ensures { IfOk result (λ b. b ≡ is_known entries.now fact.now) }
{
    match Linear::of(alloc, fact)? {
        Some(form) => Ok(any_no_greater(entries, &form)),
        None => Ok(false),
    }
}

fn any_no_greater(entries: &[Entry], form: &Linear) -> bool
    ensures { result ≡ list_any (has_no_greater form.now) entries.now }
{
    for entry in entries {
        if has_no_greater(entry, form) {
            return true;
        }
    }
    false
}

/// Whether the coefficient is positive as the entry counts.
#[tactic(auto, using(theory_rules::proofs::CountedForms::turned_above))]
fn is_positive(turned: bool, k: i128) -> bool
    ensures { result ≡ is_positive (counted_number turned k) }
{
    if turned { k < 0 } else { k > 0 }
}

/// Whether the coefficient is negative as the entry counts.
#[tactic(auto, using(theory_rules::proofs::CountedForms::turned_below))]
fn is_negative(turned: bool, k: i128) -> bool
    ensures { result ≡ is_negative (counted_number turned k) }
{
    if turned { k > 0 } else { k < 0 }
}

/// Whether the two have one lead atom, with coefficients of opposite signs.
pub fn are_opposite(d: &Entry, e: &Entry) -> bool
    ensures { result ≡ are_opposite (lead (counted d.now)) (lead (counted e.now)) }
{
    let Some((j, t)) = d.form.lead() else {
        return false;
    };
    let Some((k, u)) = e.form.lead() else {
        return false;
    };
    t.equals(u)
        && ((is_negative(d.turned, *j) && is_positive(e.turned, *k))
            || (is_positive(d.turned, *j) && is_negative(e.turned, *k)))
}

/// An equal form.
fn copy_form(alloc: Global, form: &Linear) -> Result<Linear, AllocError>
    ensures { IfOk result (λ s. s ≡ form.now) }
{
    Ok(Linear {
        parts: copy_parts(alloc, &form.parts)?,
        rest: form.rest,
    })
}

/// An Eq that isn't oriented, twice.
fn push_both(
    alloc: Global,
    number: u64,
    form: Linear,
    entries: &mut Vec<Entry>,
) -> Result<(), AllocError>
    ensures { OnOk result (entries.new.items ≡ entries.old.items ++ record { number = number; form = form; turned = false } ∷ record { number = number; form = form; turned = true } ∷ []) }
{
    let turned = copy_form(alloc, &form)?;
    entries.push(Entry {
        number,
        form,
        turned: false,
    })?;
    entries.push(Entry {
        number,
        form: turned,
        turned: true,
    })?;
    Ok(())
}

/// What the fact counts as.
pub fn push_entries(
    alloc: Global,
    defs: &[Def],
    branch: &Branch,
    fact: &Fact,
    entries: &mut Vec<Entry>,
) -> Result<(), AllocError>
    ensures { OnOk result (entries.new.items ≡ entries.old.items ++ entries_of defs.now branch.now fact.now) }
{
    let Some(form) = Linear::of(alloc, fact.term())? else {
        return Ok(());
    };
    if is_at_most(fact.term()) {
        entries.push(Entry {
            number: fact.number(),
            form,
            turned: false,
        })?;
        return Ok(());
    }
    if left_side(alloc, &branch.vars, defs, fact)?.is_some() {
        return Ok(());
    }
    push_both(alloc, fact.number(), form, entries)
}

/// Whether the formula is a Le.
pub fn is_at_most(term: &Term) -> bool
    ensures { result ≡ is_at_most term.now }
{
    matches!(&term.node, Node::Le(_, _))
}

/// The linear facts of the branch as they count.
pub fn entries(alloc: Global, defs: &[Def], branch: &Branch) -> Result<Vec<Entry>, AllocError>
    ensures { IfOk result (λ v. v.items ≡ entries defs.now branch.now) }
{
    let mut entries = Vec::new(alloc);
    for fact in &branch.facts {
        push_entries(alloc, defs, branch, fact, &mut entries)?;
    }
    Ok(entries)
}
