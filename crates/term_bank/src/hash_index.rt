// Numbers in order, as hashes are, and where each stands: from its last place back to its first.
ghost use Rattle.std.specs.Prelude.{◌≡◌, ◌<◌, ◌-◌, ℕ, [], ◌∷◌, ◌++◌, nat_eq, cond, length, take, get_or, IsSome, OnOk, OnErr};
ghost use Rattle.std.specs.Map.{lookup};
ghost use Rattle.std.specs.Vec.{vec_len, vec_capacity};
ghost use Rattle.indexmap.specs.IndexMap.{spare, insert_entry};
ghost use Rattle.term_bank.specs.LastAt.{last_at};

use indexmap::IndexMap;
use std::alloc::{AllocError, Global};
use std::marker::Model;

/// Hashes in the order in which they came, a hash perhaps several times.
#[derive(Drop)]
pub struct HashIndex {
    hashes: Vec<u64>,
    latest: IndexMap<u64, usize>,
    earlier: Vec<Option<usize>>,
}

impl Model for HashIndex {
    ghost use Rattle.std.specs.Prelude.{ℕ, List};

    ghost Value = { List ℕ };

    ghost use Rattle.term_bank.specs.LastAt.{IsIndexed};

    ghost view = { λ a. a.hashes.items };

    ghost invariant = { λ a. IsIndexed a.hashes.items a.latest.entries a.earlier.items };
}

// Puts in the last place of a hash, for which there is room.
fn put_latest(latest: &mut IndexMap<u64, usize>, hash: u64, place: usize)
    requires { 0 < spare latest.old }
    ensures { latest.new.entries ≡ insert_entry nat_eq latest.old.entries hash place }
{
    latest.insert(hash, place).unwrap();
}

// Puts in the earlier place of the next hash, for which there is room.
fn put_earlier(earlier: &mut Vec<Option<usize>>, place: Option<usize>)
    requires { vec_len earlier.old < vec_capacity earlier.old }
    ensures { earlier.new.items ≡ earlier.old.items ++ place ∷ [] }
{
    earlier.push(place).unwrap();
}

// Sets the last place of a hash back to the one before it, and forgets a hash that has none before.
fn set_back(latest: &mut IndexMap<u64, usize>, hash: u64, before: Option<usize>)
    requires { IsSome (lookup (nat_eq hash) latest.old.entries) }
    ensures { (n : ℕ) → lookup (nat_eq n) latest.new.entries ≡ cond (nat_eq hash n) before (lookup (nat_eq n) latest.old.entries) }
{
    match before {
        Some(place) => {
            latest.insert(hash, place).unwrap();
        }
        None => {
            latest.swap_remove(&hash);
        }
    }
}

impl HashIndex {
    /// No hashes.
    pub fn new(alloc: Global) -> HashIndex
        ensures { result ≡ [] }
    {
        HashIndex {
            hashes: Vec::new(alloc),
            latest: IndexMap::new(alloc),
            earlier: Vec::new(alloc),
        }
    }

    /// The last place of a hash.
    pub fn latest(&self, hash: u64) -> Option<usize>
        ensures { result ≡ last_at self.now hash }
    {
        self.latest.get(&hash).copied()
    }

    /// The last place before this one at which the same hash stands.
    pub fn earlier(&self, place: usize) -> Option<usize>
        requires { place < length self.now }
        ensures { result ≡ last_at (take place self.now) (get_or self.now place 0) }
    {
        self.earlier[place]
    }

    /// One more hash, behind the others.
    pub fn push(&mut self, hash: u64) -> Result<(), AllocError>
        ensures ok { OnOk result (self.new ≡ self.old ++ hash ∷ []) }
        ensures memory { OnErr result (self.new ≡ self.old) }
    {
        self.latest.reserve(1)?;
        self.earlier.reserve(1)?;
        let before = self.latest.get(&hash).copied();
        let place = self.hashes.len();
        self.hashes.push(hash)?;
        put_earlier(&mut self.earlier, before);
        put_latest(&mut self.latest, hash, place);
        Ok(())
    }

    // How many hashes there are.
    fn len(&self) -> usize
        ensures { result ≡ length self.now }
    {
        self.hashes.len()
    }

    // The last hash goes.
    fn pop(&mut self)
        requires { 0 < length self.old }
        ensures { self.new ≡ take (length self.old - 1) self.old }
    {
        let hash = self.hashes.pop().unwrap();
        let before = self.earlier.pop().unwrap();
        set_back(&mut self.latest, hash, before);
    }

    /// The first hashes stay, and all others go.
    pub fn truncate(&mut self, len: usize)
        ensures { self.new ≡ take len self.old }
    {
        while self.len() > len {
            self.pop();
        }
    }
}
