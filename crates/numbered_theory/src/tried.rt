// Pairs of linear facts that were tried, kept from branch to branch.
ghost use Rattle.std.specs.Prelude.{◌≡◌, ◌≤◌, true, List, length, take};
ghost use Rattle.logic_core.specs.Tree.{Tree};
ghost use Rattle.numbered_theory.specs.Entries.{entries_at};
ghost use Rattle.numbered_theory.specs.Tried.{IsTried, AreTried};

use crate::entries::Entry;
use std::alloc::Global;

/// The linear facts that were listed last, and how many of them, from the first on, have no pair of which
/// anything comes.
#[derive(Drop)]
pub struct Tried {
    pub entries: Vec<Entry>,
    pub pairs: usize,
}

// Whether the two are one fact, counted alike.
fn is_same(d: &Entry, e: &Entry) -> bool
    ensures { result ≡ true → d.now ≡ e.now }
{
    d.number == e.number && d.sum == e.sum && d.turned == e.turned
}

// Where this is so the facts begin with the others.
fn begin_with(entries: &[Entry], first: &[Entry]) -> bool
    ensures same { result ≡ true → take (length first.now) entries.now ≡ first.now }
    ensures within { result ≡ true → length first.now ≤ length entries.now }
{
    if entries.len() < first.len() {
        return false;
    }
    for i in 0..first.len() {
        let same = is_same(&entries[i], &first[i]);
        if !same {
            return false;
        }
    }
    true
}

// Of how many facts, from the first on, nothing comes, where it is so of so many others.
fn still_tried(entries: &[Entry], others: &[Entry], pairs: usize) -> usize
    requires { pairs ≤ length others.now }
    ensures within { result ≤ length entries.now }
    ensures tried { (ts : List Tree) → IsTried (entries_at ts others.now) pairs → IsTried (entries_at ts entries.now) result }
{
    if begin_with(entries, others) {
        return pairs;
    }
    0
}

impl Tried {
    /// No facts.
    pub fn new(alloc: Global) -> Tried
        ensures { (ts : List Tree) → AreTried ts result }
    {
        Tried {
            entries: Vec::new(alloc),
            pairs: 0,
        }
    }

    /// These facts are listed. What is known of the others is so still where these begin with them.
    pub fn list(&mut self, entries: Vec<Entry>)
        requires { self.old.pairs ≤ length self.old.entries.items }
        ensures listed { self.new.entries ≡ entries }
        ensures within { self.new.pairs ≤ length entries.items }
        ensures tried { (ts : List Tree) → IsTried (entries_at ts self.old.entries.items) self.old.pairs → IsTried (entries_at ts entries.items) self.new.pairs }
    {
        self.pairs = still_tried(&entries, &self.entries, self.pairs);
        self.entries = entries;
    }
}
