// Whether no name stands twice in an edit.
ghost use Rattle.std.specs.Prelude.{◌≡◌, [], ◌∷◌, ◌++◌, map, not, true, string_bytes, bytes_eq, IfOk};
ghost use Rattle.std.specs.List.{list_any};
ghost use Rattle.request_text.specs.Reading.{are_new, names_of};
ghost use Rattle.request_text.specs.RequestView.{put_view};

use crate::request::Put;
use indexmap::IndexSet;
use std::alloc::{AllocError, Global};
use std::marker::Model;

/// Names that have been seen.
#[derive(Drop)]
pub struct Seen<'a> {
    names: IndexSet<&'a [u8]>,
}

impl<'a> Model for Seen<'a> {
    ghost use Rattle.std.specs.Prelude.{ℕ, List};
    ghost use Rattle.request_text.specs.Names.{names_seen};

    ghost Value = { List (List ℕ) };

    ghost view = { λ a. names_seen a.names.keys };
}

impl<'a> Seen<'a> {
    /// No names.
    pub fn new(alloc: Global) -> Seen<'a>
        ensures { result ≡ [] }
    {
        Seen {
            names: IndexSet::new(alloc),
        }
    }

    /// Whether the name is new; it counts as seen from then on.
    pub fn is_new(&mut self, name: &'a [u8]) -> Result<bool, AllocError>
        ensures new { IfOk result (λ b. b ≡ not (list_any (bytes_eq name.now) self.old)) }
        ensures seen { IfOk result (λ b. b ≡ true → self.new ≡ self.old ++ name.now ∷ []) }
    {
        let (_, new) = self.names.insert_full(name)?;
        Ok(new)
    }
}

// Whether each put's name is new behind those seen.
fn puts_are_new<'a>(seen: &mut Seen<'a>, puts: &'a [Put]) -> Result<bool, AllocError>
    ensures new { IfOk result (λ b. b ≡ are_new seen.old (names_of (map put_view puts.now))) }
    ensures seen { IfOk result (λ b. b ≡ true → seen.new ≡ seen.old ++ names_of (map put_view puts.now)) }
{
    for put in puts {
        if !seen.is_new(put.name.as_bytes())? {
            return Ok(false);
        }
    }
    Ok(true)
}

// Whether each name is new behind those seen.
fn texts_are_new<'a>(seen: &mut Seen<'a>, names: &'a [String]) -> Result<bool, AllocError>
    ensures { IfOk result (λ b. b ≡ are_new seen.old (map string_bytes names.now)) }
{
    for name in names {
        if !seen.is_new(name.as_bytes())? {
            return Ok(false);
        }
    }
    Ok(true)
}

/// Whether no name stands twice among the puts and drops.
#[tactic(auto, using(crate::proofs::NewNames::new_behind, crate::proofs::NewNames::old_among))]
pub fn are_distinct(alloc: Global, puts: &[Put], drops: &[String]) -> Result<bool, AllocError>
    ensures { IfOk result (λ b. b ≡ are_new [] (names_of (map put_view puts.now) ++ map string_bytes drops.now)) }
{
    let mut seen = Seen::new(alloc);
    if !puts_are_new(&mut seen, puts)? {
        return Ok(false);
    }
    texts_are_new(&mut seen, drops)
}
