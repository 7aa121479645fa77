// Sums of numbers, and numbers in rising order.
ghost use Rattle.std.specs.Prelude.{◌≡◌, ◌+◌, ◌==◌, ◌<◌, not, IfOk, take, length, slice_index_or};
ghost use Rattle.std.specs.List.{list_any};
ghost use Rattle.std.specs.List.Sorted.{IsNonDecreasing};
ghost use Rattle.bpl_model.specs.Rising.{inside};

use std::alloc::{AllocError, Global};

/// The sum. A number too great for a `u64` has no place in memory either.
pub fn sum(a: u64, b: u64) -> Result<u64, AllocError>
    ensures { IfOk result (λ n. n ≡ a + b) }
{
    a.checked_add(b).ok_or(AllocError)
}

/// The numbers from `low` on, up to `count` of them, that stand in the list: each once, and in rising
/// order.
pub fn rising(alloc: Global, numbers: &[u64], low: u64, count: u64) -> Result<Vec<u64>, AllocError>
    ensures { IfOk result (λ v. v.items ≡ inside low count numbers.now) }
{
    let mut sorted = Vec::from_slice(alloc, numbers)?;
    sorted.sort()?;
    each_once(alloc, sorted.as_slice(), low, count)
}

// Those of sorted numbers.
fn each_once(alloc: Global, sorted: &[u64], low: u64, count: u64) -> Result<Vec<u64>, AllocError>
    requires { IsNonDecreasing sorted.now }
    ensures { IfOk result (λ v. v.items ≡ inside low count sorted.now) }
{
    let mut kept = Vec::new(alloc);
    for i in 0..sorted.len() {
        let x = sorted[i];
        if low <= x && x - low < count && is_first(sorted, i) {
            kept.push(x)?;
        }
    }
    Ok(kept)
}

// Whether sorted numbers have this one nowhere before.
fn is_first(sorted: &[u64], i: usize) -> bool
    requires order { IsNonDecreasing sorted.now }
    requires there { i < length sorted.now }
    ensures { result ≡ not (list_any (λ x. x == slice_index_or sorted.now i 0) (take i sorted.now)) }
{
    i == 0 || sorted[i - 1] != sorted[i]
}
