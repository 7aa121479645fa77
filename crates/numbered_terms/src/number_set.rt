// Numbers of terms, each once.
ghost use Rattle.std.specs.Prelude.{◌≡◌, ◌<◌, ℕ, [], ◌∷◌, ◌++◌, nat_eq, cond, true, false, length, get_or, OnOk, OnErr};
ghost use Rattle.std.specs.List.{list_any};
ghost use Rattle.std.specs.Vec.{vec_len, vec_capacity};

use std::alloc::{AllocError, Global};
use std::marker::Model;
use term_bank::TermId;

/// Numbers of terms, each once, in the order in which they came.
#[derive(Drop)]
pub struct NumberSet {
    members: Vec<TermId>,
    flags: Vec<bool>,
}

impl Model for NumberSet {
    ghost use Rattle.std.specs.Prelude.{ℕ, List};

    ghost Value = { List ℕ };

    ghost use Rattle.numbered_terms.specs.Flags.{AreFlags};

    ghost view = { λ a. a.members.items };

    ghost invariant = { λ a. AreFlags a.members.items a.flags.items };
}

// So many numbers are compared one by one until one is equal. Of more each is compared, several at a
// time.
const FEW: usize = 32;

// Whether the number is among these, each of which is compared.
fn is_one_of(id: TermId, ids: &[TermId]) -> bool
    ensures { result ≡ list_any (nat_eq id) ids.now }
{
    let mut found = false;
    for other in ids {
        let is_other = id == *other;
        found = found || is_other;
    }
    found
}

/// Whether the number is among these.
pub fn is_among(id: TermId, ids: &[TermId]) -> bool
    ensures { result ≡ list_any (nat_eq id) ids.now }
{
    if ids.len() > FEW {
        return is_one_of(id, ids);
    }
    for other in ids {
        if id == *other {
            return true;
        }
    }
    false
}

// Whether the number's flag is set.
fn flag(flags: &[bool], id: TermId) -> bool
    ensures { result ≡ get_or flags.now id false }
{
    match flags.get(id.number) {
        Some(flag) => *flag,
        None => false,
    }
}

// Room for the number's flag.
fn make_room(flags: &mut Vec<bool>, id: TermId) -> Result<(), AllocError>
    ensures same { (i : ℕ) → get_or flags.new.items i false ≡ get_or flags.old.items i false }
    ensures room { OnOk result (id < length flags.new.items) }
{
    flags.reserve(id.number.saturating_sub(flags.len()).saturating_add(1))?;
    while flags.len() <= id.number {
        flags.push(false)?;
    }
    Ok(())
}

// Sets the number's flag.
fn set_flag(flags: &mut Vec<bool>, id: TermId)
    requires { id < length flags.old.items }
    ensures { (i : ℕ) → get_or flags.new.items i false ≡ cond (nat_eq i id) true (get_or flags.old.items i false) }
{
    flags[id.number] = true;
}

// Takes back the number's flag.
fn take_flag(flags: &mut Vec<bool>, id: TermId)
    ensures { (i : ℕ) → get_or flags.new.items i false ≡ cond (nat_eq i id) false (get_or flags.old.items i false) }
{
    if id.number < flags.len() {
        flags[id.number] = false;
    }
}

// Takes back the flags of these numbers.
fn take_flags(flags: &mut Vec<bool>, ids: &[TermId])
    ensures { (i : ℕ) → get_or flags.new.items i false ≡ cond (list_any (nat_eq i) ids.now) false (get_or flags.old.items i false) }
{
    for id in ids {
        take_flag(flags, *id);
    }
}

// Puts in the next number, for which there is room.
fn put_member(members: &mut Vec<TermId>, id: TermId)
    requires { vec_len members.old < vec_capacity members.old }
    ensures { members.new.items ≡ members.old.items ++ id ∷ [] }
{
    members.push(id).unwrap();
}

impl NumberSet {
    /// No numbers.
    pub fn new(alloc: Global) -> NumberSet
        ensures { result ≡ [] }
    {
        NumberSet {
            members: Vec::new(alloc),
            flags: Vec::new(alloc),
        }
    }

    /// The numbers.
    pub fn members(&self) -> &[TermId]
        ensures { result.now ≡ self.now }
    {
        &self.members
    }

    /// Whether the number is there.
    pub fn contains(&self, id: TermId) -> bool
        ensures { result ≡ list_any (nat_eq id) self.now }
    {
        flag(&self.flags, id)
    }

    /// The number joins the others, unless it is there.
    pub fn insert(&mut self, id: TermId) -> Result<(), AllocError>
        ensures ok { OnOk result (self.new ≡ cond (list_any (nat_eq id) self.old) self.old (self.old ++ id ∷ [])) }
        ensures memory { OnErr result (self.new ≡ self.old) }
    {
        if flag(&self.flags, id) {
            return Ok(());
        }
        self.members.reserve(1)?;
        make_room(&mut self.flags, id)?;
        set_flag(&mut self.flags, id);
        put_member(&mut self.members, id);
        Ok(())
    }

    /// All numbers go.
    pub fn clear(&mut self)
        ensures { self.new ≡ [] }
    {
        take_flags(&mut self.flags, &self.members);
        self.members.clear();
    }
}
