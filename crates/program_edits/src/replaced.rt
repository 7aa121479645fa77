// The declaration that takes the place of another.
ghost use Rattle.std.specs.List.{All};
ghost use Rattle.std.specs.Prelude.{◌≡◌, ◌<◌, ◌-◌, ◌^◌, ◌||◌, cond, length, map, option_map, Some, None, IfOk, IfErr, IfSome, string_bytes};
ghost use Rattle.bv_base.specs.Text.{is_among};
ghost use Rattle.fault_text.specs.FaultView.{SourcesAreShort};
ghost use Rattle.request_text.specs.RequestView.{put_view, request_view};
ghost use Rattle.program_edits.specs.Edited.{Edited, edited, names, numbered, puts_of, edited_by, IsEdited};
ghost use Rattle.program_edits.specs.Refusals.{TextsAreShort, RefusedBy, Tells, IsRefused, reading};
ghost use Rattle.program_edits.specs.Replaced.{is_misnamed, only_place, are_named, unless_misnamed, placed, all_placed, plain_puts, replaced_by, Replaces, with_replacements, AreThere};

use crate::fault::EditFault;
use crate::names::{is_axiom, is_axiom_name};
use crate::puts::put_decls;
use bpl_ast::Decl;
use request_text::{Put, Request};
use std::alloc::{AllocError, Global};

/// A declaration, and the place of the one that gives way to it.
#[derive(Drop)]
pub struct Replacement {
    pub at: usize,
    pub decl: Decl,
}

// Whether one of them has the name.
fn is_named(name: &[u8], decls: &[Decl]) -> bool
    ensures { result ≡ is_among (names decls.now) name.now }
{
    for decl in decls {
        if name == decl.name.as_bytes() {
            return true;
        }
    }
    false
}

// Whether it is an axiom whose name is not one of axioms, or another declaration whose name is.
fn is_misnamed(decl: &Decl) -> bool
    ensures { result ≡ is_misnamed decl.now }
{
    if is_axiom(decl) {
        return !is_axiom_name(decl.name.as_bytes());
    }
    is_axiom_name(decl.name.as_bytes())
}

// The place of a declaration of this name, unless it is misnamed or a later one has the name too.
fn place_of(name: &[u8], at: usize, decl: &Decl, later: &[Decl]) -> Option<usize>
    ensures { result ≡ cond (is_misnamed decl.now || is_among (names later.now) name.now) None (Some at) }
{
    if is_misnamed(decl) || is_named(name, later) {
        return None;
    }
    Some(at)
}

// The place of the only declaration of this name, where that is not misnamed.
#[tactic(auto, using(crate::proofs::Replacing::place_begins, crate::proofs::Replacing::place_found, crate::proofs::Replacing::place_behind))]
fn only_place(name: &[u8], decls: &[Decl]) -> Option<usize>
    ensures { result ≡ only_place name.now decls.now }
{
    for (at, decl) in decls.iter().enumerate() {
        if name == decl.name.as_bytes() {
            return place_of(name, at, decl, &decls[at + 1..]);
        }
    }
    None
}

// Whether each put's name is that of exactly one declaration, which is not misnamed.
fn are_named(old: &[Decl], puts: &[Put]) -> bool
    ensures { result ≡ are_named old.now (map put_view puts.now) }
{
    for put in puts {
        if only_place(put.name.as_bytes(), old).is_none() {
            return false;
        }
    }
    true
}

// The declaration in the place of the only one of its name.
fn placed(old: &[Decl], decl: Decl) -> Option<Replacement>
    ensures { result ≡ placed old.now (Some decl) }
{
    match only_place(decl.name.as_bytes(), old) {
        Some(at) => Some(Replacement { at, decl }),
        None => {
            drop(decl);
            None
        }
    }
}

fn unless_misnamed(decl: Decl) -> Option<Decl>
    ensures { result ≡ unless_misnamed decl }
{
    if is_misnamed(&decl) {
        drop(decl);
        return None;
    }
    Some(decl)
}

// The declaration, where it is not misnamed, in the place of the only one of its name.
fn plain_placed(old: &[Decl], decl: Decl) -> Option<Replacement>
    ensures { result ≡ placed old.now (unless_misnamed decl) }
{
    match unless_misnamed(decl) {
        Some(decl) => placed(old, decl),
        None => None,
    }
}

// The declarations, each in the place of the only one of its name.
#[tactic(auto, using(crate::proofs::Replacing::none_behind, crate::proofs::Replacing::one_more))]
fn all_placed(
    alloc: Global,
    old: &[Decl],
    decls: Vec<Decl>,
) -> Result<Option<Vec<Replacement>>, AllocError>
    ensures { IfOk result (λ o. option_map (λ v. v.items) o ≡ all_placed old.now (map unless_misnamed decls.items)) }
{
    let mut found = Vec::new(alloc);
    for decl in decls {
        match plain_placed(old, decl) {
            Some(replacement) => found.push(replacement)?,
            None => return Ok(None),
        }
    }
    Ok(Some(found))
}

// The declarations of puts, each in the place of the only one of its name; or the first refusal. Names
// are looked at before a text is read.
#[tactic(auto, using(crate::proofs::Named::unnamed_placed, crate::proofs::Named::read_placed, crate::proofs::Steps::memory_refuses))]
fn replaced_puts(
    alloc: Global,
    old: &[Decl],
    puts: &[Put],
) -> Result<Option<Vec<Replacement>>, EditFault>
    requires short { All (λ (p : Put). length (string_bytes p.text) < 2 ^ 32 - 1) puts.now }
    ensures ok { IfOk result (λ o. option_map (λ v. v.items) o ≡ all_placed old.now (plain_puts reading (map put_view puts.now))) }
    ensures err { IfErr result (RefusedBy (puts_of reading (map put_view puts.now))) }
{
    if !are_named(old, puts) {
        return Ok(None);
    }
    let decls = put_decls(alloc, puts)?;
    match all_placed(alloc, old, decls) {
        Ok(found) => Ok(found),
        Err(AllocError) => Err(EditFault::Memory),
    }
}

#[tactic(auto, using(crate::proofs::Named::refused_by_puts))]
fn replaced_exactly(
    alloc: Global,
    old: &[Decl],
    edit: &Request,
) -> Result<Option<Vec<Replacement>>, EditFault>
    requires short { TextsAreShort (request_view edit.now) }
    ensures ok { IfOk result (λ o. option_map (λ v. v.items) o ≡ replaced_by reading old.now (request_view edit.now)) }
    ensures err { IfErr result (λ fault. (e : Edited) × (edited_by reading old.now (request_view edit.now) ≡ Some e) × Tells fault e) }
{
    match edit {
        Request::Edit { put, drop } => {
            if drop.is_empty() {
                replaced_puts(alloc, old, put)
            } else {
                Ok(None)
            }
        }
        Request::Open { .. }
        | Request::Status
        | Request::Report
        | Request::Sums
        | Request::Proofs
        | Request::Quit => Ok(None),
    }
}

/// The declarations that an edit puts in the places of others, in the order of its puts, where it does
/// nothing else: it has no drop, each put's text is one declaration of its name, exactly one old
/// declaration has that name, and both are axioms, whose name is `@k`, or neither is one. Each other
/// request gives `None`, and no text of it is read where a put's name is that of no such declaration.
/// Where all names are, the first put that is refused is told, as `edited` tells it. The old
/// declarations, whose axioms have their numbers, are lent; the others stay as they are.
pub fn replacements_of(
    alloc: Global,
    old: &[Decl],
    edit: &Request,
) -> Result<Option<Vec<Replacement>>, EditFault>
    requires short { TextsAreShort (request_view edit.now) }
    requires numbered { numbered 0 old.now ≡ old.now }
    ensures exact { IfOk result (λ o. Replaces old.now (request_view edit.now) (option_map (λ v. v.items) o)) }
    ensures there { IfOk result (λ o. IfSome o (λ v. AreThere old.now v.items)) }
    ensures edited { IfOk result (λ o. IfSome o (λ v. IsEdited old.now (request_view edit.now) (edited (with_replacements old.now v.items)))) }
    ensures sources { IfOk result (λ o. IfSome o (λ v. SourcesAreShort old.now → SourcesAreShort (with_replacements old.now v.items))) }
    ensures refused { IfErr result (IsRefused old.now (request_view edit.now)) }
{
    replaced_exactly(alloc, old, edit)
}
