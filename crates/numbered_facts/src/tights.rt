// Tightened facts, found once.
ghost use Rattle.std.specs.Prelude.{◌≡◌, ◌<◌, length, IfOk, OnOk, OnErr};
ghost use Rattle.logic_core.specs.Tighten.{tighten};
ghost use Rattle.term_bank.specs.Numbered.{at, Begins};
ghost use Rattle.numbered_terms.specs.At.{IsAt};
ghost use Rattle.numbered_terms.specs.Slots.{kept_at, AreAlike, IsPut, AreKept};
ghost use Rattle.numbered_facts.specs.Memos.{IsTight};

use crate::tightening::tightened;
use numbered_terms::Terms;
use numbered_terms::slots::Slots;
use std::alloc::AllocError;
use term_bank::TermId;

// The number that is kept of a number.
fn kept_number(memo: &Slots<TermId>, id: TermId) -> Option<TermId>
    ensures { result ≡ kept_at memo.now.slots.items id }
{
    match memo.get(id) {
        Some(found) => Some(*found),
        None => None,
    }
}

// From now on this is kept of the number.
fn keep_number(memo: &mut Slots<TermId>, id: TermId, found: TermId) -> Result<(), AllocError>
    ensures ok { OnOk result (IsPut memo.old.slots.items id found memo.new.slots.items) }
    ensures memory { OnErr result (AreAlike memo.old.slots.items memo.new.slots.items) }
{
    memo.put(id, found)
}

/// A normal fact, tightened. It is kept.
pub(crate) fn tight(
    terms: &mut Terms,
    tights: &mut Slots<TermId>,
    id: TermId,
) -> Result<TermId, AllocError>
    requires id { id < length terms.old }
    requires right { AreKept (IsTight terms.old) tights.old.slots.items }
    ensures grows { Begins terms.old terms.new }
    ensures right { AreKept (IsTight terms.new) tights.new.slots.items }
    ensures gives { IfOk result (λ i. IsAt terms.new i (tighten (at terms.old id))) }
{
    if let Some(found) = kept_number(tights, id) {
        return Ok(found);
    }
    let tight = tightened(terms, id)?;
    keep_number(tights, id, tight)?;
    Ok(tight)
}
