//! The keys that are present, and the answers of others.
ghost use Rattle.std.specs.Prelude.{◌≡◌, ℕ, ◌-◌, ◌^◌, ◌≤◌, ◌<◌, min, cond, nat_lt, not, List, map, filter, length, IfOk};
ghost use Rattle.std.specs.List.{sum_by};
ghost use Rattle.std.specs.Arc.{arc_value};
ghost use Rattle.indexmap.specs.IndexMap.{spare};
ghost use Rattle.bv_base.specs.Text.{is_among};
ghost use Rattle.board_core.specs.Limits.{absent_limit};
ghost use Rattle.board_core.specs.Present.{is_present, absent_size};

use bv_base::Question;
use indexmap::{IndexMap, IndexSet};
use std::alloc::{AllocError, Global};
use std::sync::Arc;

/// How many bytes absent keys may have together whose answers stay: 64 MiB.
pub const LIMIT: u64 = 67_108_864;

/// The questions' keys.
pub(crate) fn keys_of<'q, Q: Question>(
    alloc: Global,
    questions: &'q [Arc<Q, Global>],
) -> Result<IndexSet<&'q [u8]>, AllocError>
    ensures { IfOk result (λ s. (k : List ℕ) → is_present s.keys k ≡ is_among (map (λ q. Q.key (arc_value q)) questions.now) k) }
{
    let mut keys = IndexSet::new(alloc);
    for question in questions {
        keys.insert(question.key())?;
    }
    Ok(keys)
}

// How many bytes the keys have together, or 2^64 - 1 where these are more.
fn size_of<T>(kept: &IndexMap<Vec<u8>, T>) -> u64
    ensures { result ≡ min (sum_by (λ e. length e.0.items) kept.now.entries) (2 ^ 64 - 1) }
{
    let mut size: u64 = 0;
    for (key, _) in kept {
        size = size.saturating_add(key.len() as u64);
    }
    size
}

/// Whether the keys have at most `LIMIT` bytes together.
pub(crate) fn is_within_limit<T>(kept: &IndexMap<Vec<u8>, T>) -> bool
    ensures { result ≡ not (nat_lt absent_limit (sum_by (λ e. length e.0.items) kept.now.entries)) }
{
    size_of(kept) <= LIMIT
}

// How many bytes the keys have together that are not present, or 2^64 - 1 where these are more.
fn size_of_absent<T>(kept: &IndexMap<Vec<u8>, T>, present: &IndexSet<&[u8]>) -> u64
    ensures { result ≡ min (absent_size (λ v. v.items) present.now.keys kept.now.entries) (2 ^ 64 - 1) }
{
    let mut size: u64 = 0;
    for (key, _) in kept {
        if !present.contains(key.as_slice()) {
            size = size.saturating_add(key.len() as u64);
        }
    }
    size
}

// Drops the entries whose keys are not present.
fn drop_absent<T: Drop>(kept: &mut IndexMap<Vec<u8>, T>, present: &IndexSet<&[u8]>)
    ensures entries { kept.new.entries ≡ filter (λ e. is_present present.now.keys e.0.items) kept.old.entries }
    ensures room { spare kept.old ≤ spare kept.new }
{
    kept.retain(
        |key: &Vec<u8>, value: &mut T| -> bool
            ensures { (result ≡ is_present present.entry.now.keys key.now.items) × (value.new ≡ value.old) }
        { present.contains(key.as_slice()) },
    );
}

/// Drops the entries whose keys are not present, where these keys have more bytes together than
/// `LIMIT`.
pub(crate) fn trim_entries<T: Drop>(kept: &mut IndexMap<Vec<u8>, T>, present: &IndexSet<&[u8]>)
    ensures entries { kept.new.entries ≡ cond (nat_lt absent_limit (absent_size (λ v. v.items) present.now.keys kept.old.entries)) (filter (λ e. is_present present.now.keys e.0.items) kept.old.entries) kept.old.entries }
    ensures room { spare kept.old ≤ spare kept.new }
{
    if size_of_absent(kept, present) > LIMIT {
        drop_absent(kept, present);
    }
}
