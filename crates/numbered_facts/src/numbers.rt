// Sets of numbers, in the order in which they came.
ghost use Rattle.std.specs.Prelude.{◌≡◌, ◌≤◌, ◌<◌, ◌∷◌, ◌++◌, [], false, cond, nat_eq, length, IfOk, OnOk, OnErr};
ghost use Rattle.std.specs.List.{list_any};
ghost use Rattle.std.specs.Vec.{vec_len, vec_capacity};
ghost use Rattle.indexmap.specs.IndexSet.{insert_key};
ghost use Rattle.numbered_facts.specs.Atoms.{AreOnce};
ghost use Rattle.numbered_facts.specs.Members.{AreFound};

use indexmap::IndexSet;
use numbered_terms::number_set::is_among;
use std::alloc::{AllocError, Global};
use std::marker::Model;
use term_bank::TermId;

// So many numbers are compared one by one.
const FEW: usize = 16;

/// Numbers, each once, in the order in which they came. A few are compared one by one, and more are
/// looked up.
pub(crate) struct Members {
    members: Vec<TermId>,
    index: IndexSet<usize>,
    alloc: Global,
}

impl Model for Members {
    ghost use Rattle.std.specs.Prelude.{ℕ, List};

    ghost Value = { List ℕ };

    ghost use Rattle.numbered_facts.specs.Members.{AreMembers};

    ghost view = { λ a. a.members.items };

    ghost invariant = { λ a. AreMembers a.members.items a.index.keys };
}

// Written out: a derived drop is proved again wherever a set is dropped.
impl Drop for Members {
    fn drop(self) {
        let Members {
            members: _members,
            index: _index,
            alloc: _,
        } = self;
    }
}

// The number joins the index, unless it is there.
fn list_one(index: &mut IndexSet<usize>, id: TermId) -> Result<(), AllocError>
    ensures ok { OnOk result (index.new.keys ≡ insert_key nat_eq index.old.keys id) }
    ensures memory { OnErr result (index.new.keys ≡ index.old.keys) }
{
    index.insert(id.number)?;
    Ok(())
}

// Whether the number is in the index.
fn is_listed(index: &IndexSet<usize>, id: TermId) -> bool
    ensures { result ≡ list_any (nat_eq id) index.now.keys }
{
    index.contains(&id.number)
}

// An index of numbers.
fn index_of(alloc: Global, ids: &[TermId]) -> Result<IndexSet<usize>, AllocError>
    requires { AreOnce ids.now }
    ensures { IfOk result (λ s. s.keys ≡ ids.now) }
{
    let mut index = IndexSet::new(alloc);
    for id in ids {
        list_one(&mut index, *id)?;
    }
    Ok(index)
}

// From now on the numbers, which aren't a few any more, are looked up.
fn look_up(alloc: Global, members: &[TermId], index: &mut IndexSet<usize>) -> Result<(), AllocError>
    requires once { AreOnce members.now }
    requires found { AreFound members.now index.old.keys }
    requires many { 16 ≤ length members.now }
    ensures ok { OnOk result (index.new.keys ≡ members.now) }
    ensures found { AreFound members.now index.new.keys }
{
    if members.len() > FEW {
        return Ok(());
    }
    *index = index_of(alloc, members)?;
    Ok(())
}

// Puts in the next number, for which there is room.
fn put_member(members: &mut Vec<TermId>, id: TermId)
    requires { vec_len members.old < vec_capacity members.old }
    ensures { members.new.items ≡ members.old.items ++ id ∷ [] }
{
    members.push(id).unwrap();
}

impl Members {
    /// No numbers.
    pub(crate) fn new(alloc: Global) -> Members
        ensures { result ≡ [] }
    {
        Members {
            members: Vec::new(alloc),
            index: IndexSet::new(alloc),
            alloc,
        }
    }

    /// The numbers.
    pub(crate) fn into_list(self) -> Vec<TermId>
        ensures items { result.items ≡ self }
        ensures once { AreOnce result.items }
    {
        let Members {
            members,
            index,
            alloc: _,
        } = self;
        drop(index);
        members
    }

    // Whether the number is there.
    fn contains(&self, id: TermId) -> bool
        ensures { result ≡ list_any (nat_eq id) self.now }
    {
        if self.members.len() > FEW {
            return is_listed(&self.index, id);
        }
        is_among(id, &self.members)
    }

    // One more number, which isn't there yet.
    fn push(&mut self, id: TermId) -> Result<(), AllocError>
        requires { list_any (nat_eq id) self.old ≡ false }
        ensures { OnOk result (self.new ≡ self.old ++ id ∷ []) }
    {
        if self.members.len() < FEW {
            self.members.push(id)?;
            return Ok(());
        }
        self.members.reserve(1)?;
        look_up(self.alloc, &self.members, &mut self.index)?;
        list_one(&mut self.index, id)?;
        put_member(&mut self.members, id);
        Ok(())
    }
}

/// The number joins the set, unless it is there.
pub(crate) fn add(set: &mut Members, id: TermId) -> Result<(), AllocError>
    ensures { OnOk result (set.new ≡ insert_key nat_eq set.old id) }
{
    if set.contains(id) {
        return Ok(());
    }
    set.push(id)
}

/// Whether the number is in the set.
pub(crate) fn is_in(set: &Members, id: TermId) -> bool
    ensures { result ≡ list_any (nat_eq id) set.now }
{
    set.contains(id)
}

/// The number joins the end, where it is to.
pub(crate) fn push_where(ids: &mut Vec<TermId>, id: TermId, joins: bool) -> Result<(), AllocError>
    ensures { OnOk result (ids.new.items ≡ ids.old.items ++ cond joins (id ∷ []) []) }
{
    if !joins {
        return Ok(());
    }
    ids.push(id)?;
    Ok(())
}
