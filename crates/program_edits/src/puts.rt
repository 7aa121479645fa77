// The declarations that puts put in.
ghost use Rattle.std.specs.Prelude.{◌≡◌, ◌≢◌, ◌-◌, ◌^◌, ◌<◌, [], ◌∷◌, map, length, Some, None, string_bytes, ok_or, IfOk, IfErr, IfSome, IsNone};
ghost use Rattle.std.specs.List.{All};
ghost use Rattle.bpl_grammar.specs.Fault.{Fault as Told};
ghost use Rattle.bpl_parse.specs.Program.{IsFaultOf};
ghost use Rattle.request_text.specs.RequestView.{put_view};
ghost use Rattle.request_text.specs.declared.request.Put.{Put};
ghost use Rattle.program_edits.specs.Edited.{other_name, faulty, the_one, put_as, puts_of};
ghost use Rattle.program_edits.specs.Refusals.{IsTold, Tells, RefusedBy, reading};

use crate::fault::{EditFault, faulty, misnamed};
use crate::names::declares;
use bpl_ast::Decl;
use bpl_parse::{Fault, parse_decls};
use request_text::Put;
use std::alloc::{AllocError, Global};

// The declaration where there is exactly one.
fn only(mut decls: Vec<Decl>) -> Option<Decl>
    ensures some { IfSome result (λ d. decls.items ≡ d ∷ []) }
    ensures none { IsNone result → length decls.items ≢ 1 }
{
    if decls.len() != 1 {
        drop(decls);
        return None;
    }
    decls.pop()
}

// The declaration under this name.
fn named(alloc: Global, name: &str, mut decl: Decl) -> Result<Decl, AllocError>
    ensures { IfOk result (λ d. d ≡ record decl { name = name.now }) }
{
    match String::from_str(alloc, name) {
        Ok(name) => {
            decl.name = name;
            Ok(decl)
        }
        Err(e) => {
            drop(decl);
            Err(e)
        }
    }
}

// The declaration under this name, where it is one of it.
#[tactic(auto, using(crate::proofs::Steps::is_the_one, crate::proofs::Steps::not_the_one))]
fn of_name(alloc: Global, name: &str, decl: Decl) -> Result<Decl, EditFault>
    ensures ok { IfOk result (λ d. the_one name.now (decl ∷ []) ≡ Some d) }
    ensures err { IfErr result (RefusedBy (ok_or (the_one name.now (decl ∷ [])) (other_name name.now))) }
{
    if !declares(name.as_bytes(), &decl) {
        drop(decl);
        return Err(misnamed(alloc, name));
    }
    match named(alloc, name, decl) {
        Ok(decl) => Ok(decl),
        Err(AllocError) => Err(EditFault::Memory),
    }
}

// The one declaration of this name.
#[tactic(auto, using(crate::proofs::Steps::many_refused))]
fn one_of_name(alloc: Global, name: &str, decls: Vec<Decl>) -> Result<Decl, EditFault>
    ensures ok { IfOk result (λ d. the_one name.now decls.items ≡ Some d) }
    ensures err { IfErr result (RefusedBy (ok_or (the_one name.now decls.items) (other_name name.now))) }
{
    match only(decls) {
        Some(decl) => of_name(alloc, name, decl),
        None => Err(misnamed(alloc, name)),
    }
}

// That the put's text has this fault.
fn faulty_put(alloc: Global, put: &Put, fault: Fault) -> EditFault
    requires short { length (string_bytes put.now.text) < 2 ^ 32 - 1 }
    requires there { IsFaultOf (string_bytes put.now.text) fault }
    ensures { (f : Told) → IsTold fault f → Tells result (faulty (Some (string_bytes put.now.name)) (string_bytes put.now.text) f) }
{
    match String::from_str(alloc, put.name.as_str()) {
        Ok(name) => faulty(alloc, Some(name), put.text.as_bytes(), fault),
        Err(AllocError) => EditFault::Memory,
    }
}

// The declaration that the put's text is.
#[tactic(auto, using(crate::proofs::Steps::put_spelled, crate::proofs::Steps::put_other, crate::proofs::Steps::put_faulty, crate::proofs::Steps::memory_refuses))]
fn put_decl(alloc: Global, put: &Put) -> Result<Decl, EditFault>
    requires short { length (string_bytes put.now.text) < 2 ^ 32 - 1 }
    ensures ok { IfOk result (λ d. put_as (put_view put.now) (reading (string_bytes put.now.text)) ≡ Ok d) }
    ensures err { IfErr result (RefusedBy (put_as (put_view put.now) (reading (string_bytes put.now.text)))) }
{
    match parse_decls(alloc, put.text.as_bytes()) {
        Ok(decls) => one_of_name(alloc, put.name.as_str(), decls),
        Err(Fault::Memory) => Err(EditFault::Memory),
        Err(fault) => Err(faulty_put(alloc, put, fault)),
    }
}

/// The declarations that the puts put in, each under the put's name, or the first refusal.
pub(crate) fn put_decls(alloc: Global, puts: &[Put]) -> Result<Vec<Decl>, EditFault>
    requires short { All (λ (p : Put). length (string_bytes p.text) < 2 ^ 32 - 1) puts.now }
    ensures ok { IfOk result (λ v. puts_of reading (map put_view puts.now) ≡ Ok v.items) }
    ensures err { IfErr result (RefusedBy (puts_of reading (map put_view puts.now))) }
{
    let mut found = Vec::new(alloc);
    for put in puts {
        found.push(put_decl(alloc, put)?)?;
    }
    Ok(found)
}
