// Counts by number.
ghost use Rattle.std.specs.Prelude.{◌≡◌, ◌<◌, ◌+◌, ◌-◌, ℕ, nat_eq, cond, length, get_or, IfOk, OnOk};
ghost use Rattle.numbered_instances.specs.Shared.{times};

use std::alloc::AllocError;
use term_bank::TermId;

/// The count of the number.
pub(crate) fn count_of(counts: &[usize], id: TermId) -> usize
    ensures { result ≡ get_or counts.now id 0 }
{
    match counts.get(id.number) {
        Some(count) => *count,
        None => 0,
    }
}

// Room for the number's count.
fn make_room(counts: &mut Vec<usize>, id: TermId) -> Result<(), AllocError>
    ensures same { (j : ℕ) → get_or counts.new.items j 0 ≡ get_or counts.old.items j 0 }
    ensures room { OnOk result (id < length counts.new.items) }
{
    if id.number < counts.len() {
        return Ok(());
    }
    counts.reserve(id.number.saturating_sub(counts.len()).saturating_add(1))?;
    while counts.len() <= id.number {
        counts.push(0)?;
    }
    Ok(())
}

// From now on this is the number's count.
fn set_count(counts: &mut Vec<usize>, id: TermId, count: usize)
    requires { id < length counts.old.items }
    ensures { (j : ℕ) → get_or counts.new.items j 0 ≡ cond (nat_eq j id) count (get_or counts.old.items j 0) }
{
    counts[id.number] = count;
}

// The next count. No memory holds as many facts as a count of a word doesn't hold.
fn next(count: usize) -> Result<usize, AllocError>
    ensures { IfOk result (λ n. n ≡ count + 1) }
{
    match count.checked_add(1) {
        Some(next) => Ok(next),
        None => Err(AllocError),
    }
}

// One more of the number.
fn add_one(counts: &mut Vec<usize>, id: TermId) -> Result<(), AllocError>
    ensures { OnOk result ((j : ℕ) → get_or counts.new.items j 0 ≡ get_or counts.old.items j 0 + cond (nat_eq j id) 1 0) }
{
    make_room(counts, id)?;
    let more = next(count_of(counts, id))?;
    set_count(counts, id, more);
    Ok(())
}

// One less of the number.
fn take_one(counts: &mut Vec<usize>, id: TermId)
    ensures { (j : ℕ) → get_or counts.new.items j 0 ≡ get_or counts.old.items j 0 - cond (nat_eq j id) 1 0 }
{
    if id.number < counts.len() {
        let less = count_of(counts, id).saturating_sub(1);
        set_count(counts, id, less);
    }
}

/// One more of each of these numbers.
pub(crate) fn add_each(counts: &mut Vec<usize>, ids: &[TermId]) -> Result<(), AllocError>
    ensures { OnOk result ((j : ℕ) → get_or counts.new.items j 0 ≡ get_or counts.old.items j 0 + times j ids.now) }
{
    for id in ids {
        add_one(counts, *id)?;
    }
    Ok(())
}

/// One less of each of these numbers.
pub(crate) fn take_each(counts: &mut Vec<usize>, ids: &[TermId])
    ensures { (j : ℕ) → get_or counts.new.items j 0 ≡ get_or counts.old.items j 0 - times j ids.now }
{
    for id in ids {
        take_one(counts, *id);
    }
}
