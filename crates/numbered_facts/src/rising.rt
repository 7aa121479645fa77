// Lists of numbers that rise.
ghost use Rattle.std.specs.Prelude.{◌≡◌, ◌<◌, ◌≤◌, ◌+◌, ◌^◌, ◌&&◌, nat_lt, nat_eq, cond, length, IfOk};
ghost use Rattle.std.specs.List.{list_any};
ghost use Rattle.numbered_facts.specs.Atoms.{IsRising, AreBoth};

use numbered_terms::number_set::is_among;
use std::alloc::{AllocError, Global};
use term_bank::TermId;

// Of two numbers the one that isn't greater.
fn lower(x: TermId, y: TermId) -> TermId
    ensures { result ≡ cond (nat_lt y x) y x }
{
    if y.number < x.number {
        return y;
    }
    x
}

// One, unless the first number is greater.
fn one_up_to(x: TermId, y: TermId) -> usize
    ensures { result ≡ cond (nat_lt y x) 0 1 }
{
    if y.number < x.number {
        return 0;
    }
    1
}

// Whether both lists go on behind these places.
fn both_go_on(xs: &[TermId], i: usize, ys: &[TermId], j: usize) -> bool
    ensures { result ≡ (nat_lt i (length xs.now) && nat_lt j (length ys.now)) }
{
    i < xs.len() && j < ys.len()
}

/// The numbers of two lists that rise.
pub(crate) fn both(alloc: Global, xs: &[TermId], ys: &[TermId]) -> Result<Vec<TermId>, AllocError>
    requires first { IsRising xs.now }
    requires second { IsRising ys.now }
    ensures { IfOk result (λ v. AreBoth xs.now ys.now v.items) }
{
    let mut numbers = Vec::new(alloc);
    numbers.reserve(xs.len() + ys.len())?;
    let mut i = 0;
    let mut j = 0;
    while both_go_on(xs, i, ys, j) {
        let x = xs[i];
        let y = ys[j];
        numbers.push(lower(x, y))?;
        i += one_up_to(x, y);
        j += one_up_to(y, x);
    }
    numbers.extend_from_slice(&xs[i..])?;
    numbers.extend_from_slice(&ys[j..])?;
    Ok(numbers)
}

// A place between two others.
fn between(low: usize, high: usize) -> usize
    requires { low < high }
    ensures { (low ≤ result) × (result < high) }
{
    low + (high - low) / 2
}

// Where the search begins from then on: behind the place, if the number there is lower.
fn low_from(found: TermId, id: TermId, place: usize, low: usize) -> usize
    requires { place < 2 ^ 63 }
    ensures { result ≡ cond (nat_lt found id) (place + 1) low }
{
    if found.number < id.number {
        return place + 1;
    }
    low
}

// Where the search ends from then on: before the place, unless the number there is lower.
fn high_from(found: TermId, id: TermId, place: usize, high: usize) -> usize
    ensures { result ≡ cond (nat_lt found id) high place }
{
    if found.number < id.number {
        return high;
    }
    place
}

// Whether the number is among these, which rise: it is searched for by halves.
fn is_in_half(id: TermId, ids: &[TermId]) -> bool
    requires { IsRising ids.now }
    ensures { result ≡ list_any (nat_eq id) ids.now }
{
    let mut low = 0;
    let mut high = ids.len();
    while low < high {
        let place = between(low, high);
        let found = ids[place];
        if found == id {
            return true;
        }
        low = low_from(found, id, place, low);
        high = high_from(found, id, place, high);
    }
    false
}

// So many numbers are compared one by one.
const FEW: usize = 16;

/// Whether the number is among these, which rise.
pub(crate) fn is_in(id: TermId, ids: &[TermId]) -> bool
    requires { IsRising ids.now }
    ensures { result ≡ list_any (nat_eq id) ids.now }
{
    if ids.len() <= FEW {
        return is_among(id, ids);
    }
    is_in_half(id, ids)
}
