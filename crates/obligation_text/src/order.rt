// Numbers in the order in which they came.
ghost use Rattle.std.specs.Prelude.{◌≡◌, ℕ, ◌<◌, nat_eq, None, [], OnOk, slice_index_or};
ghost use Rattle.std.specs.Vec.{vec_len};
ghost use Rattle.std.specs.List.{list_any, position_from};
ghost use Rattle.logic_core.specs.Variables.{joined};

use std::alloc::{AllocError, Global};
use std::marker::Model;

/// Numbers, each once, in the order in which they came. Where a number stands is kept too, so that
/// no search is needed.
#[derive(Drop)]
pub struct Order {
    numbers: Vec<u64>,
    // of each number its place, as far as numbers have come
    places: Vec<Option<u64>>,
}

impl Model for Order {
    ghost use Rattle.std.specs.Prelude.{ℕ, List};

    ghost Value = { List ℕ };

    ghost view = { λ a. a.numbers.items };

    ghost use Rattle.obligation_text.specs.Places.{HasPlaces};

    ghost invariant = { λ a. HasPlaces a.places.items a.numbers.items };
}

// The table has an entry for the number; entries that are new have no place.
#[tactic(auto, using(crate::proofs::PlacesJoined::entry_more))]
fn reach(places: &mut Vec<Option<u64>>, number: u64) -> Result<(), AllocError>
    ensures same { (v : ℕ) → slice_index_or places.new.items v None ≡ slice_index_or places.old.items v None }
    ensures long { OnOk result (number < vec_len places.new) }
{
    while places.len() as u64 <= number {
        places.push(None)?;
    }
    Ok(())
}

impl Order {
    /// No numbers.
    pub fn new(alloc: Global) -> Order
        ensures { result ≡ [] }
    {
        Order {
            numbers: Vec::new(alloc),
            places: Vec::new(alloc),
        }
    }

    /// The numbers.
    pub fn numbers(&self) -> &[u64]
        ensures { result.now ≡ self.now }
    {
        &self.numbers
    }

    /// Where the number stands, if it has come.
    pub fn place(&self, number: u64) -> Option<u64>
        ensures { result ≡ position_from (nat_eq number) 0 self.now }
    {
        match self.places.get(number as usize) {
            Some(place) => *place,
            None => None,
        }
    }

    /// Whether the number has come.
    #[tactic(auto, using(crate::proofs::PlacesJoined::among_by_place))]
    pub fn contains(&self, number: u64) -> bool
        ensures { result ≡ list_any (nat_eq number) self.now }
    {
        self.place(number).is_some()
    }

    /// The number comes, where it hasn't yet.
    #[tactic(auto, using(crate::proofs::PlacesJoined::places_joined))]
    pub fn join(&mut self, number: u64) -> Result<(), AllocError>
        ensures { OnOk result (self.new ≡ joined self.old number) }
    {
        if self.contains(number) {
            return Ok(());
        }
        reach(&mut self.places, number)?;
        let place = self.numbers.len() as u64;
        self.numbers.push(number)?;
        self.places[number as usize] = Some(place);
        Ok(())
    }
}
