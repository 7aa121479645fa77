// What is kept of numbers.
ghost use Rattle.std.specs.Prelude.{◌≡◌, OnOk, OnErr};
ghost use Rattle.numbered_terms.specs.Slots.{kept_at, AreAlike, IsPut};

use numbered_terms::slots::Slots;
use std::alloc::AllocError;
use term_bank::TermId;

/// What is kept of a number: a number, or that there is none.
pub(crate) fn kept(memo: &Slots<Option<TermId>>, id: TermId) -> Option<Option<TermId>>
    ensures { result ≡ kept_at memo.now.slots.items id }
{
    match memo.get(id) {
        Some(found) => Some(*found),
        None => None,
    }
}

/// From now on this is kept of the number.
pub(crate) fn keep(
    memo: &mut Slots<Option<TermId>>,
    id: TermId,
    found: &Option<TermId>,
) -> Result<(), AllocError>
    ensures ok { OnOk result (IsPut memo.old.slots.items id found.now memo.new.slots.items) }
    ensures memory { OnErr result (AreAlike memo.old.slots.items memo.new.slots.items) }
{
    memo.put(id, *found)
}
