// What is kept of numbers, each at the place of its number.
ghost use Rattle.std.specs.Prelude.{◌≡◌, ◌≤◌, [], length, OnOk, OnErr};
ghost use Rattle.std.specs.Option.{option_copied};
ghost use Rattle.numbered_terms.specs.Slots.{kept_at, AreAlike, IsPut};

use std::alloc::{AllocError, Global};
use term_bank::TermId;

/// What is kept of numbers. It takes memory for each number up to the highest of which something is
/// kept.
#[derive(Drop)]
pub struct Slots<V> {
    /// What is kept of each number.
    pub slots: Vec<Option<V>>,
}

// So many slots at least, the new ones empty.
fn reach<V: Drop>(slots: &mut Vec<Option<V>>, count: usize) -> Result<(), AllocError>
    ensures alike { AreAlike slots.old.items slots.new.items }
    ensures count { OnOk result (count ≤ length slots.new.items) }
{
    for _ in slots.len()..count {
        slots.push(None)?;
    }
    Ok(())
}

impl<V: Drop> Slots<V> {
    /// Nothing is kept.
    pub fn new(alloc: Global) -> Slots<V>
        ensures { result.slots.items ≡ [] }
    {
        Slots {
            slots: Vec::new(alloc),
        }
    }

    /// What is kept of the number.
    pub fn get(&self, id: TermId) -> Option<&V>
        ensures { option_copied result ≡ kept_at self.now.slots.items id }
    {
        match self.slots.get(id.number) {
            Some(Some(value)) => Some(value),
            _ => None,
        }
    }

    /// From now on this is kept of the number.
    pub fn put(&mut self, id: TermId, value: V) -> Result<(), AllocError>
        ensures ok { OnOk result (IsPut self.old.slots.items id value self.new.slots.items) }
        ensures memory { OnErr result (AreAlike self.old.slots.items self.new.slots.items) }
    {
        reach(&mut self.slots, id.number)?;
        if self.slots.len() == id.number {
            self.slots.push(Some(value))?;
            return Ok(());
        }
        self.slots[id.number] = Some(value);
        Ok(())
    }
}
