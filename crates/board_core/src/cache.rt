//! The cache of answers.
ghost use Rattle.std.specs.Prelude.{◌≡◌, IsTrue, IfSome, OnOk, OnErr, is_some, None, ◌<◌, ◌≤◌, ◌+◌, [], ◌∷◌, ◌++◌, map, position, List, ℕ, bytes_eq, not, nat_lt};
ghost use Rattle.std.specs.Arc.{arc_value};
ghost use Rattle.std.specs.Option.{option_map};
ghost use Rattle.indexmap.specs.IndexMap.{spare, get_by};
ghost use Rattle.bv_base.specs.Text.{is_among};
ghost use Rattle.board_core.specs.Kept.{kept_keys, kept_at, has_place, with_place, without_key, with_answer, trimmed, key_bytes};
ghost use Rattle.board_core.specs.Limits.{absent_limit};

use crate::present::{is_within_limit, keys_of, trim_entries};
use bv_base::{Answered, Question};
use indexmap::IndexMap;
use std::alloc::{AllocError, Global};
use std::marker::Model;
use std::sync::Arc;

/// Answers by key, in the order in which they were kept, and the places that wait for one.
#[derive(Drop)]
pub struct Cache<A: Answered> {
    kept: IndexMap<Vec<u8>, Arc<A, Global>>,
    places: Vec<Vec<u8>>,
    alloc: Global,
}

impl<A: Answered> Model for Cache<A> {
    ghost use Rattle.board_core.specs.Kept.{Cached};

    ghost Value = { Cached A };

    ghost use Rattle.board_core.specs.InsideCache.{cached, IsKept};

    ghost view = { cached };

    ghost invariant = { IsKept (λ a. A.Q.key (A.asked a)) A.right };
}

// Where the key stands.
fn place_of(places: &[Vec<u8>], key: &[u8]) -> Option<usize>
    ensures { result ≡ position (λ k. bytes_eq key.now k.items) places.now }
{
    places.iter().position(|place| key == place.as_slice())
}

// Puts in the answer of a new key, for which there is room.
fn put_new<A: Drop>(
    kept: &mut IndexMap<Vec<u8>, Arc<A, Global>>,
    key: Vec<u8>,
    answer: Arc<A, Global>,
)
    requires room { 0 < spare kept.old }
    requires new { get_by (λ k. bytes_eq key.items k.items) kept.old ≡ None }
    ensures entries { kept.new.entries ≡ kept.old.entries ++ (key, answer) ∷ [] }
    ensures room { spare kept.old ≤ spare kept.new + 1 }
{
    kept.insert(key, answer).unwrap();
}

impl<A: Answered + Drop> Cache<A> {
    /// A cache without answers. It keeps the allocator.
    pub fn new(alloc: Global) -> Cache<A>
        ensures { result ≡ record { kept = []; places = [] } }
    {
        Cache {
            kept: IndexMap::new(alloc),
            places: Vec::new(alloc),
            alloc,
        }
    }

    /// The answer whose key is equal, byte for byte. None exactly where no answer has that key.
    pub fn find(&self, key: &[u8]) -> Option<&Arc<A, Global>>
        ensures value { option_map (λ a. arc_value a.now) result ≡ kept_at self.now.kept key.now }
        ensures exactly { is_some result ≡ is_among (kept_keys self.now.kept) key.now }
        ensures right { IfSome result (λ a. (A.Q.key (A.asked (arc_value a.now)) ≡ key.now) × A.right (arc_value a.now)) }
    {
        self.kept.get(key)
    }

    /// Whether the key has a place, with an answer or without.
    pub fn has_place(&self, key: &[u8]) -> bool
        ensures { result ≡ has_place self.now key.now }
    {
        self.kept.contains_key(key) || place_of(&self.places, key).is_some()
    }

    /// Makes a place for the question's key, unless it has one. The answers are as before, and
    /// without memory the cache is as before.
    pub fn place(&mut self, question: &Arc<A::Q, Global>) -> Result<(), AllocError>
        ensures placed { OnOk result (self.new ≡ with_place self.old (A.Q.key (arc_value question.now))) }
        ensures memory { OnErr result (self.new ≡ self.old) }
    {
        let key = question.key();
        if self.has_place(key) {
            return Ok(());
        }
        self.kept.reserve(self.places.len() + 1)?;
        let key = Vec::from_slice(self.alloc, key)?;
        self.places.push(key)?;
        Ok(())
    }

    /// Takes the key's place away where it has no answer, and else changes nothing.
    pub fn unplace(&mut self, key: &[u8])
        ensures { self.new ≡ record self.old { places = without_key key.now self.old.places } }
    {
        if let Some(at) = place_of(&self.places, key) {
            self.places.remove(at);
        }
    }

    /// Keeps the answer in its key's place, in which an older answer stays. It takes no memory. The
    /// answer is a right one, as each is.
    pub fn keep(&mut self, answer: Arc<A, Global>)
        requires { IsTrue (has_place self.old (A.Q.key (A.asked (arc_value answer)))) }
        ensures kept { self.new.kept ≡ with_answer self.old.kept (A.Q.key (A.asked (arc_value answer))) (arc_value answer) }
        ensures places { self.new.places ≡ without_key (A.Q.key (A.asked (arc_value answer))) self.old.places }
        ensures right { A.right (arc_value answer) }
    {
        if let Some(at) = place_of(&self.places, answer.question().key()) {
            let key = self.places.remove(at);
            put_new(&mut self.kept, key, answer);
        }
    }

    /// Whether the keys of the kept answers have at most `LIMIT` bytes together. Then `trim` drops
    /// none of them.
    pub fn is_within_limit(&self) -> bool
        ensures { result ≡ not (nat_lt absent_limit (key_bytes self.now.kept)) }
    {
        is_within_limit(&self.kept)
    }

    /// Drops the answers of absent keys, with their places, exactly where these keys together have
    /// more than `LIMIT` bytes. Every place without an answer stays. Without memory the cache
    /// is as before.
    pub fn trim(&mut self, present: &[Arc<A::Q, Global>]) -> Result<(), AllocError>
        ensures trimmed { OnOk result (self.new ≡ record self.old { kept = trimmed (map (λ q. A.Q.key (arc_value q)) present.now) self.old.kept }) }
        ensures memory { OnErr result (self.new ≡ self.old) }
    {
        if self.is_within_limit() {
            return Ok(());
        }
        let present = keys_of(self.alloc, present)?;
        trim_entries(&mut self.kept, &present);
        Ok(())
    }
}
