// Distinct terms by number, each with its node, and the places at which they stand.
ghost use Rattle.std.specs.Prelude.{◌≡◌, ◌<◌, ◌≤◌, ℕ, [], ◌∷◌, ◌++◌, None, Some, length, take, IfSome, IfOk, OnOk, OnErr};
ghost use Rattle.std.specs.Vec.{vec_len, vec_capacity};
ghost use Rattle.std.specs.List.{All, AllByRecursion};
ghost use Rattle.term_bank.specs.Numbered.{at, number_of, with_term, Begins, IsNumber};
ghost use Rattle.term_bank.specs.Node.{tree_over, numbers_in};
ghost use Rattle.term_bank.specs.Standing.{part_or_self};
ghost use Rattle.term_bank.specs.Hash.{hash_of};

use crate::hash::hash;
use crate::hash_index::HashIndex;
use crate::node::{Node, TermId};
use crate::places::{Places, Way};
use logic_core::Term;
use std::alloc::{AllocError, Global};
use std::marker::Model;

// A term by its number.
#[derive(Drop)]
struct Entry {
    // Its node, over the terms of lower numbers.
    node: Node,
    // Where it stands.
    place: usize,
}

/// Terms by number, no term twice.
#[derive(Drop)]
pub(crate) struct Table {
    entries: Vec<Entry>,
    places: Places,
    index: HashIndex,
    alloc: Global,
}

impl Model for Table {
    ghost use Rattle.term_bank.specs.Tabled.{Tabled, coded_tabled};

    ghost Value = { Tabled };

    ghost coded = { coded_tabled };

    ghost use Rattle.term_bank.specs.Table.{tabled, IsKept};

    ghost view = { tabled };

    ghost invariant = { IsKept };
}

// Puts in the next entry, for which there is room.
fn put_entry(entries: &mut Vec<Entry>, entry: Entry)
    requires { vec_len entries.old < vec_capacity entries.old }
    ensures { entries.new.items ≡ entries.old.items ++ entry ∷ [] }
{
    entries.push(entry).unwrap();
}

// How many of so many places, the first ones, have the place of each entry among them.
fn reached(entries: &[Entry], places: usize) -> usize
    requires { All (λ e. e.place < places) entries.now }
    ensures each { All (λ e. e.place < result) entries.now }
    ensures least { (n : ℕ) → All (λ e. e.place < n) entries.now → result ≤ n }
{
    let mut count = 0;
    for entry in entries {
        if count <= entry.place {
            count = entry.place + 1;
        }
    }
    count
}

// Lets a node go.
fn discard(_node: Node) {}

impl Table {
    /// No terms.
    pub fn new(alloc: Global) -> Table
        ensures terms { result.terms ≡ [] }
        ensures standing { result.standing ≡ [] }
    {
        Table {
            entries: Vec::new(alloc),
            places: Places::new(alloc),
            index: HashIndex::new(alloc),
            alloc,
        }
    }

    /// The allocator that the table keeps.
    pub fn alloc(&self) -> Global {
        self.alloc
    }

    /// The number of terms.
    pub fn len(&self) -> usize
        ensures { result ≡ length self.now.terms }
    {
        self.entries.len()
    }

    /// The term of a number.
    pub fn term(&self, id: TermId) -> &Term
        requires { id < length self.now.terms }
        ensures term { result.now ≡ at self.now.terms id }
        ensures one_number { number_of self.now.terms result.now ≡ Some id }
    {
        self.places.term(self.entries[id.number].place)
    }

    /// The node of a number.
    pub fn node(&self, id: TermId) -> &Node
        requires { id < length self.now.terms }
        ensures node { tree_over (at self.now.terms) result.now ≡ at self.now.terms id }
        ensures lower { AllByRecursion (λ j. j < id) (numbers_in result.now) }
    {
        &self.entries[id.number].node
    }

    /// The number of a term, if it has one.
    pub fn find(&self, term: &Term) -> Option<TermId>
        ensures { result ≡ number_of self.now.terms term.now }
    {
        let mut latest = self.index.latest(hash(term));
        while let Some(number) = latest {
            if self.term(TermId { number }).equals(term) {
                return Some(TermId { number });
            }
            latest = self.index.earlier(number);
        }
        None
    }

    /// A place for a term.
    pub fn place_whole(&mut self, term: Term) -> Result<usize, AllocError>
        ensures place { IfOk result (λ p. (p < length self.new.standing) × (at self.new.standing p ≡ term)) }
        ensures standing { Begins self.old.standing self.new.standing }
        ensures terms { self.new.terms ≡ self.old.terms }
    {
        let place = self.places.push_whole(term)?;
        Ok(place)
    }

    /// A place for a part of the term at a place.
    pub fn place_part(&mut self, of: usize, way: Way) -> Result<usize, AllocError>
        requires { of < length self.old.standing }
        ensures place { IfOk result (λ p. (p < length self.new.standing) × (at self.new.standing p ≡ part_or_self (at self.old.standing of) way)) }
        ensures standing { Begins self.old.standing self.new.standing }
        ensures terms { self.new.terms ≡ self.old.terms }
    {
        let place = self.places.push_part(of, way)?;
        Ok(place)
    }

    // One more term, which isn't there yet.
    fn push(&mut self, node: Node, place: usize, hash: u64) -> Result<(), AllocError>
        requires within { place < length self.old.standing }
        requires node { tree_over (at self.old.terms) node ≡ at self.old.standing place }
        requires lower { AllByRecursion (λ j. j < length self.old.terms) (numbers_in node) }
        requires new { number_of self.old.terms (at self.old.standing place) ≡ None }
        requires hash { hash ≡ hash_of (at self.old.standing place) }
        ensures terms { OnOk result (self.new.terms ≡ self.old.terms ++ at self.old.standing place ∷ []) }
        ensures standing { self.new.standing ≡ self.old.standing }
        ensures memory { OnErr result (self.new.terms ≡ self.old.terms) }
    {
        self.entries.reserve(1)?;
        self.index.push(hash)?;
        put_entry(&mut self.entries, Entry { node, place });
        Ok(())
    }

    /// The first terms stay, with the places up to the last of theirs, and all others go.
    pub fn truncate(&mut self, len: usize)
        ensures { self.new.terms ≡ take len self.old.terms }
    {
        self.entries.truncate(len);
        self.index.truncate(len);
        let places = reached(&self.entries, self.places.len());
        self.places.truncate(places);
    }

    /// The number of the term at a place, of which this is a node. A new term has the next number.
    #[tactic(auto, using(crate::proofs::Numbers::with_there, crate::proofs::Numbers::with_new, crate::proofs::Numbers::begins_term, crate::proofs::Numbers::begins_same))]
    pub fn add(&mut self, node: Node, term: &Term, place: usize) -> Result<TermId, AllocError>
        requires within { place < length self.old.standing }
        requires stands { at self.old.standing place ≡ term.now }
        requires node { tree_over (at self.old.terms) node ≡ term.now }
        requires lower { AllByRecursion (λ j. j < length self.old.terms) (numbers_in node) }
        ensures terms { OnOk result (self.new.terms ≡ with_term self.old.terms term.now) }
        ensures number { IfOk result (λ i. IsNumber self.new.terms i term.now) }
        ensures kept { Begins self.old.terms self.new.terms }
        ensures standing { self.new.standing ≡ self.old.standing }
        ensures memory { OnErr result (Begins self.new.terms (with_term self.old.terms term.now)) }
    {
        if let Some(found) = self.find(term) {
            discard(node);
            return Ok(found);
        }
        let number = self.entries.len();
        self.push(node, place, hash(term))?;
        Ok(TermId { number })
    }
}
