// The caller's variables for those of contracts, by number.
ghost use Rattle.std.specs.Prelude.{◌≡◌, ◌≢◌, ◌+◌, ◌<◌, ℕ, IfOk, OnOk, length, slice_index};
ghost use Rattle.std.specs.List.Sorted.{IsStrictlyIncreasing};
ghost use Rattle.bpl_model.specs.Contract.{modified};
ghost use Rattle.call_cut.specs.Table.{between_calls, at_call};

use crate::number::{first_entry, range};
use bpl_model::number::sum;
use bpl_model::{Parts, Proc};
use std::alloc::{AllocError, Global};

/// The table between calls: constants and globals stand for themselves, and an entry value for its
/// global.
pub fn between_calls(alloc: Global, parts: &Parts) -> Result<Vec<u64>, AllocError>
    ensures { IfOk result (λ v. v.items ≡ between_calls parts.now) }
{
    let mut table = range(alloc, 0, first_entry(parts)? as usize)?;
    let mut entries = range(alloc, parts.consts.len() as u64, parts.globals.len())?;
    table.append(&mut entries)?;
    Ok(table)
}

// Writes each value at its place, `shift` further on.
fn write(table: &mut Vec<u64>, shift: usize, places: &[u64], values: &[u64])
    requires rise { IsStrictlyIncreasing places.now }
    requires as_many { length values.now ≡ length places.now }
    requires inside { (k : ℕ) → k < length places.now → slice_index places.now k + shift < length table.old.items }
    ensures long { length table.new.items ≡ length table.old.items }
    ensures written { (k : ℕ) → k < length places.now → slice_index table.new.items (slice_index places.now k + shift) ≡ slice_index values.now k }
    ensures others { (v : ℕ) → ((k : ℕ) → k < length places.now → v ≢ slice_index places.now k + shift) → slice_index table.new.items v ≡ slice_index table.old.items v }
{
    for i in 0..places.len() {
        table[places[i] as usize + shift] = values[i];
    }
}

/// From the table between calls that of a call whose own variables begin at number `n`; `changed`
/// are the globals that the callee may modify.
pub fn enter_call(
    alloc: Global,
    table: &mut Vec<u64>,
    parts: &Parts,
    callee: &Proc,
    changed: &[u64],
    n: u64,
) -> Result<(), AllocError>
    requires between { table.old.items ≡ between_calls parts.now }
    requires may { changed.now ≡ modified parts.now callee.now }
    ensures { OnOk result (table.new.items ≡ at_call parts.now callee.now n) }
{
    let globals = parts.globals.len();
    let ins = callee.ins.len();
    let outs = callee.outs.len();
    let first_old = sum(n, ins as u64)?;
    let olds = range(alloc, first_old, changed.len())?;
    write(table, globals, changed, olds.as_slice());
    let mut arguments = range(alloc, n, ins)?;
    table.append(&mut arguments)?;
    let first_result = sum(first_old, changed.len() as u64)?;
    let mut results = range(alloc, first_result, outs)?;
    table.append(&mut results)?;
    Ok(())
}

/// From the table of a call that between calls. The time is that of the callee's contract alone.
pub fn leave_call(table: &mut Vec<u64>, parts: &Parts, callee: &Proc, changed: &[u64])
    requires called { (n : ℕ) × (table.old.items ≡ at_call parts.now callee.now n) }
    requires may { changed.now ≡ modified parts.now callee.now }
    ensures { table.new.items ≡ between_calls parts.now }
{
    let globals = parts.globals.len();
    let ins = callee.ins.len();
    let outs = callee.outs.len();
    write(table, globals, changed, changed);
    let long = table.len().saturating_sub(ins).saturating_sub(outs);
    table.truncate(long);
}
