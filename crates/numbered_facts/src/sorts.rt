// Sorts of closed terms, found once.
ghost use Rattle.std.specs.Prelude.{◌≡◌, ◌<◌, [], Some, true, length, is_some, OnOk, OnErr, IfOk};
ghost use Rattle.std.specs.Option.{option_copied};
ghost use Rattle.logic_core.specs.Sorts.{is, sort_of};
ghost use Rattle.logic_core.specs.Tree.{boolean};
ghost use Rattle.term_bank.specs.Numbered.{at};
ghost use Rattle.numbered_terms.specs.Slots.{kept_at, AreAlike, IsPut, AreKept};
ghost use Rattle.numbered_facts.specs.Memos.{IsSort};
ghost use Rattle.numbered_facts.specs.Sorted.{is_map};

use logic_core::{Def, Sort, SortKind};
use numbered_forms::sorts::sort_of;
use numbered_terms::Terms;
use numbered_terms::slots::Slots;
use std::alloc::{AllocError, Global};
use term_bank::TermId;

// Whether something is kept of the number.
fn is_kept(memo: &Slots<Option<Sort>>, id: TermId) -> bool
    ensures { result ≡ is_some (kept_at memo.now.slots.items id) }
{
    memo.get(id).is_some()
}

// From now on this is kept of the number.
fn keep_sort(
    memo: &mut Slots<Option<Sort>>,
    id: TermId,
    sort: Option<Sort>,
) -> Result<(), AllocError>
    ensures ok { OnOk result (IsPut memo.old.slots.items id sort memo.new.slots.items) }
    ensures memory { OnErr result (AreAlike memo.old.slots.items memo.new.slots.items) }
{
    memo.put(id, sort)
}

/// The sort of a closed term is kept.
pub(crate) fn find_sort(
    terms: &Terms,
    memo: &mut Slots<Option<Sort>>,
    vars: &[Sort],
    defs: &[Def],
    id: TermId,
) -> Result<(), AllocError>
    requires id { id < length terms.now }
    requires right { AreKept (IsSort (record { terms = terms.now; vars = vars.now; defs = defs.now })) memo.old.slots.items }
    ensures right { AreKept (IsSort (record { terms = terms.now; vars = vars.now; defs = defs.now })) memo.new.slots.items }
    ensures there { OnOk result (is_some (kept_at memo.new.slots.items id) ≡ true) }
{
    if is_kept(memo, id) {
        return Ok(());
    }
    let sort = sort_of(terms, vars, defs, &[], id)?;
    keep_sort(memo, id, sort)?;
    Ok(())
}

/// The sort that is kept of a number.
pub(crate) fn sort_at(memo: &Slots<Option<Sort>>, id: TermId) -> Option<&Sort>
    requires { is_some (kept_at memo.now.slots.items id) ≡ true }
    ensures { kept_at memo.now.slots.items id ≡ Some (option_copied result) }
{
    match memo.get(id) {
        Some(sort) => sort.as_ref(),
        None => None,
    }
}

// The same sort, where there is one.
fn copy_sort(alloc: Global, sort: Option<&Sort>) -> Result<Option<Sort>, AllocError>
    ensures { IfOk result (λ s. s ≡ option_copied sort.entry) }
{
    match sort {
        Some(sort) => Ok(Some(sort.copy(alloc)?)),
        None => Ok(None),
    }
}

/// The sort of a closed term, where it is well sorted. It is kept.
pub(crate) fn sort(
    terms: &Terms,
    memo: &mut Slots<Option<Sort>>,
    vars: &[Sort],
    defs: &[Def],
    id: TermId,
) -> Result<Option<Sort>, AllocError>
    requires id { id < length terms.now }
    requires right { AreKept (IsSort (record { terms = terms.now; vars = vars.now; defs = defs.now })) memo.old.slots.items }
    ensures right { AreKept (IsSort (record { terms = terms.now; vars = vars.now; defs = defs.now })) memo.new.slots.items }
    ensures gives { IfOk result (λ s. s ≡ sort_of vars.now defs.now [] (at terms.now id)) }
{
    find_sort(terms, memo, vars, defs, id)?;
    copy_sort(terms.alloc(), sort_at(memo, id))
}

// Whether there is a sort, and it is Bool.
fn is_of_formulas(sort: Option<&Sort>) -> bool
    ensures { result ≡ is boolean (option_copied sort.entry) }
{
    match sort {
        Some(sort) => sort.equals(&Sort::boolean()),
        None => false,
    }
}

/// Whether a closed term is well sorted, of sort Bool. Its sort is kept.
pub(crate) fn is_boolean(
    terms: &Terms,
    memo: &mut Slots<Option<Sort>>,
    vars: &[Sort],
    defs: &[Def],
    id: TermId,
) -> Result<bool, AllocError>
    requires id { id < length terms.now }
    requires right { AreKept (IsSort (record { terms = terms.now; vars = vars.now; defs = defs.now })) memo.old.slots.items }
    ensures right { AreKept (IsSort (record { terms = terms.now; vars = vars.now; defs = defs.now })) memo.new.slots.items }
    ensures is { IfOk result (λ b. b ≡ is boolean (sort_of vars.now defs.now [] (at terms.now id))) }
{
    find_sort(terms, memo, vars, defs, id)?;
    Ok(is_of_formulas(sort_at(memo, id)))
}

// Whether there is a sort, and it is that of a map.
fn is_of_maps(sort: Option<&Sort>) -> bool
    ensures { result ≡ is_map (option_copied sort.entry) }
{
    match sort {
        Some(sort) => match &sort.kind {
            SortKind::Map(_) => true,
            _ => false,
        },
        None => false,
    }
}

/// Whether a closed term is well sorted, of the sort of a map. Its sort is kept.
pub(crate) fn is_map(
    terms: &Terms,
    memo: &mut Slots<Option<Sort>>,
    vars: &[Sort],
    defs: &[Def],
    id: TermId,
) -> Result<bool, AllocError>
    requires id { id < length terms.now }
    requires right { AreKept (IsSort (record { terms = terms.now; vars = vars.now; defs = defs.now })) memo.old.slots.items }
    ensures right { AreKept (IsSort (record { terms = terms.now; vars = vars.now; defs = defs.now })) memo.new.slots.items }
    ensures is { IfOk result (λ b. b ≡ is_map (sort_of vars.now defs.now [] (at terms.now id))) }
{
    find_sort(terms, memo, vars, defs, id)?;
    Ok(is_of_maps(sort_at(memo, id)))
}
