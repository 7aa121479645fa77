// What a request makes of declarations.
ghost use Rattle.std.specs.Prelude.{◌≡◌, ◌-◌, ◌^◌, ◌<◌, map, length, string_bytes, Some, IfOk, IfErr};
ghost use Rattle.std.specs.List.{All};
ghost use Rattle.fault_text.specs.FaultView.{SourcesAreShort};
ghost use Rattle.request_text.specs.RequestView.{put_view, request_view};
ghost use Rattle.request_text.specs.declared.request.Put.{Put};
ghost use Rattle.program_edits.specs.Edited.{Edited, edited, names, opened, after_puts, changed, puts_of, edited_by, IsEdited};
ghost use Rattle.program_edits.specs.Refusals.{Tells, IsRefused, IsChange, TextsAreShort, reading};

use crate::fault::{EditFault, absent, faulty};
use crate::names::names_of;
use crate::places::{applied, first_absent};
use crate::puts::put_decls;
use bpl_ast::Decl;
use bpl_parse::{Fault, parse_decls};
use bpl_scopes::Positions;
use request_text::{Put, Request};
use std::alloc::{AllocError, Global};

// The declarations that the text spells.
#[tactic(auto, using(crate::proofs::Steps::open_spelled, crate::proofs::Steps::open_faulty))]
fn opened(alloc: Global, text: &str) -> Result<Vec<Decl>, EditFault>
    requires short { length text.now < 2 ^ 32 - 1 }
    ensures ok { IfOk result (λ v. opened text.now (reading text.now) ≡ edited v.items) }
    ensures err { IfErr result (λ fault. Tells fault (opened text.now (reading text.now))) }
{
    match parse_decls(alloc, text.as_bytes()) {
        Ok(decls) => Ok(decls),
        Err(Fault::Memory) => Err(EditFault::Memory),
        Err(fault) => Err(faulty(alloc, None, text.as_bytes(), fault)),
    }
}

// The declarations after the puts and drops, none of which is absent.
#[tactic(auto, using(crate::proofs::Steps::after_refused))]
fn after_puts(
    alloc: Global,
    old: &[Decl],
    present: &Positions<'_>,
    puts: &[Put],
    drops: &[String],
) -> Result<Vec<Decl>, EditFault>
    requires present { present.now ≡ names old.now }
    requires short { All (λ (p : Put). length (string_bytes p.text) < 2 ^ 32 - 1) puts.now }
    ensures ok { IfOk result (λ v. after_puts old.now (puts_of reading (map put_view puts.now)) (map string_bytes drops.now) ≡ edited v.items) }
    ensures err { IfErr result (λ fault. Tells fault (after_puts old.now (puts_of reading (map put_view puts.now)) (map string_bytes drops.now))) }
{
    let new = put_decls(alloc, puts)?;
    match applied(alloc, old, present, &new, drops) {
        Ok(decls) => Ok(decls),
        Err(AllocError) => Err(EditFault::Memory),
    }
}

// The declarations after the puts and drops.
fn changed(
    alloc: Global,
    old: &[Decl],
    puts: &[Put],
    drops: &[String],
) -> Result<Vec<Decl>, EditFault>
    requires short { All (λ (p : Put). length (string_bytes p.text) < 2 ^ 32 - 1) puts.now }
    ensures ok { IfOk result (λ v. changed reading old.now (map put_view puts.now) (map string_bytes drops.now) ≡ edited v.items) }
    ensures err { IfErr result (λ fault. Tells fault (changed reading old.now (map put_view puts.now) (map string_bytes drops.now))) }
{
    let present = names_of(alloc, old)?;
    match first_absent(&present, drops) {
        Some(name) => Err(absent(alloc, name.as_str())),
        None => after_puts(alloc, old, &present, puts, drops),
    }
}

fn edited_exactly(alloc: Global, old: &[Decl], edit: &Request) -> Result<Vec<Decl>, EditFault>
    requires change { IsChange (request_view edit.now) }
    requires short { TextsAreShort (request_view edit.now) }
    ensures ok { IfOk result (λ v. edited_by reading old.now (request_view edit.now) ≡ Some (edited v.items)) }
    ensures err { IfErr result (λ fault. (e : Edited) × (edited_by reading old.now (request_view edit.now) ≡ Some e) × Tells fault e) }
{
    match edit {
        Request::Open { text } => opened(alloc, text.as_str()),
        Request::Edit { put, drop } => changed(alloc, old, put, drop),
        Request::Status | Request::Report | Request::Sums | Request::Proofs | Request::Quit =>
            unreachable!(),
    }
}

/// The declarations after an open or an edit. An open's are those that its text spells. An edit takes
/// out what it drops; each put takes the place of the declaration of its name, and the others go to
/// the end, in order. All names are those before the edit, where the k-th axiom is `@k`; the axioms
/// are numbered anew then. A dropped name that the program lacks is told before all that is wrong
/// with puts; of these the first is told: its text's fault, or that the text isn't exactly one
/// declaration of its name.
///
/// The old declarations are lent and stay as they are; what is kept of them is copied, and only the
/// request's texts are read.
pub fn edited(alloc: Global, old: &[Decl], edit: &Request) -> Result<Vec<Decl>, EditFault>
    requires change { IsChange (request_view edit.now) }
    requires short { TextsAreShort (request_view edit.now) }
    ensures ok { IfOk result (λ v. IsEdited old.now (request_view edit.now) (edited v.items)) }
    ensures err { IfErr result (IsRefused old.now (request_view edit.now)) }
    ensures sources { IfOk result (λ v. SourcesAreShort old.now → SourcesAreShort v.items) }
{
    edited_exactly(alloc, old, edit)
}
