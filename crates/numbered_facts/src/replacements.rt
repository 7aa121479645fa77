// Terms with one replaced by another, found once.
ghost use Rattle.std.specs.Prelude.{◌≡◌, ◌<◌, ◌&&◌, nat_eq, length, IfOk, IfSome};
ghost use Rattle.logic_core.specs.Subterm.{replaced};
ghost use Rattle.term_bank.specs.Numbered.{at, Begins};
ghost use Rattle.numbered_terms.specs.At.{IsAt};
ghost use Rattle.numbered_terms.specs.Slots.{kept_at};
ghost use Rattle.numbered_facts.specs.Memos.{IsReplacement, AreReplacements};

use numbered_terms::Terms;
use numbered_terms::replace::replaced;
use numbered_terms::slots::Slots;
use std::alloc::AllocError;
use term_bank::TermId;

// So many are kept.
const MOST: usize = 8_192;

/// What a term becomes where a part of it is replaced by another term.
#[derive(Clone, Copy)]
pub(crate) struct Replacement {
    pub(crate) whole: TermId,
    pub(crate) part: TermId,
    pub(crate) by: TermId,
    pub(crate) term: TermId,
}

impl Replacement {
    // Whether it is what this term becomes where this part is replaced by that term.
    fn is_of(&self, whole: TermId, part: TermId, by: TermId) -> bool
        ensures { result ≡ (nat_eq self.now.whole whole && (nat_eq self.now.part part && nat_eq self.now.by by)) }
    {
        self.whole.number == whole.number
            && (self.part.number == part.number && self.by.number == by.number)
    }
}

// Where it is kept, with others that have the same place: what comes later stays.
fn place_of(whole: TermId, part: TermId, by: TermId) -> TermId {
    let spread = part.number.wrapping_mul(3).wrapping_add(by.number);
    TermId {
        number: spread.wrapping_add(whole.number) % MOST,
    }
}

// What is kept at a place.
fn replacement_at(memo: &Slots<Replacement>, place: TermId) -> Option<Replacement>
    ensures { result ≡ kept_at memo.now.slots.items place }
{
    match memo.get(place) {
        Some(found) => Some(*found),
        None => None,
    }
}

// What the term becomes, where that is kept.
fn kept_replacement(
    terms: &Terms,
    memo: &Slots<Replacement>,
    part: TermId,
    by: TermId,
    whole: TermId,
) -> Option<TermId>
    requires { AreReplacements terms.now memo.now.slots.items }
    ensures { IfSome result (λ i. IsAt terms.now i (replaced (at terms.now part) (at terms.now by) (at terms.now whole))) }
{
    terms.are_stored();
    let place = place_of(whole, part, by);
    if let Some(found) = replacement_at(memo, place) {
        if found.is_of(whole, part, by) {
            return Some(found.term);
        }
    }
    None
}

// From now on it is kept, while no other takes its place.
fn keep_replacement(
    terms: &Terms,
    memo: &mut Slots<Replacement>,
    found: Replacement,
) -> Result<(), AllocError>
    requires found { IsReplacement terms.now found }
    requires right { AreReplacements terms.now memo.old.slots.items }
    ensures { AreReplacements terms.now memo.new.slots.items }
{
    terms.are_stored();
    let place = place_of(found.whole, found.part, found.by);
    memo.put(place, found)?;
    Ok(())
}

/// The term with every occurrence of the part, inside quantifiers and triggers too, replaced by another
/// term. It is kept.
pub(crate) fn with_replaced(
    terms: &mut Terms,
    memo: &mut Slots<Replacement>,
    part: TermId,
    by: TermId,
    whole: TermId,
) -> Result<TermId, AllocError>
    requires part { part < length terms.old }
    requires by { by < length terms.old }
    requires whole { whole < length terms.old }
    requires right { AreReplacements terms.old memo.old.slots.items }
    ensures grows { Begins terms.old terms.new }
    ensures right { AreReplacements terms.new memo.new.slots.items }
    ensures gives { IfOk result (λ i. IsAt terms.new i (replaced (at terms.old part) (at terms.old by) (at terms.old whole))) }
{
    if let Some(found) = kept_replacement(terms, memo, part, by, whole) {
        return Ok(found);
    }
    let term = replaced(terms, part, by, whole)?;
    let found = Replacement {
        whole,
        part,
        by,
        term,
    };
    keep_replacement(terms, memo, found)?;
    Ok(term)
}
