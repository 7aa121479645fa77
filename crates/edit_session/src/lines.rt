// The lines of replies.
ghost use Rattle.std.specs.Prelude.{◌≡◌, map, string_bytes, IfOk};
ghost use Rattle.std.specs.Arc.{arc_value};
ghost use Rattle.std.specs.Option.{option_copied};
ghost use Rattle.user_types.specs.Erased.{erased};
ghost use Rattle.tableau.specs.Settled.{Settled as settled};
ghost use Rattle.edit_session.specs.Program.{text_or_none, proof_line};
ghost use Rattle.edit_session.specs.Built.{proc_goals};
ghost use Rattle.edit_session.specs.Sums.{sums_on};

use crate::goals::{marks, names};
use bpl_ast::Program;
use bpl_model::Module;
use proof_core::proof::Proof;
use std::alloc::{AllocError, Global};
use std::sync::Arc;
use tableau::settled::Settled;
use user_types::erase;
use vc_rebuild::BuiltProc;

/// The text that the bytes are. Where they are none, it is answered as want of memory is; the bytes of
/// lines and of faults are always a text.
pub fn text_of(bytes: Vec<u8>) -> Result<String, AllocError>
    ensures { IfOk result (λ s. string_bytes s ≡ bytes.items) }
{
    match String::from_utf8(bytes) {
        Ok(text) => Ok(text),
        Err(_) => Err(AllocError),
    }
}

// The lines as texts.
fn texts(alloc: Global, lines: Vec<Vec<u8>>) -> Result<Vec<String>, AllocError>
    ensures { IfOk result (λ v. map string_bytes v.items ≡ map (λ l. l.items) lines.items) }
{
    let mut found = Vec::new(alloc);
    for line in lines {
        found.push(text_of(line)?)?;
    }
    Ok(found)
}

// The text of a proof, none of no proof.
fn proof_text(alloc: Global, proof: Option<&Proof>) -> Result<Vec<u8>, AllocError>
    ensures { IfOk result (λ v. v.items ≡ text_or_none (option_copied proof.entry)) }
{
    match proof {
        Some(proof) => proof_text::write(alloc, proof),
        None => Ok(Vec::new(alloc)),
    }
}

/// The text of each goal's proof, by the answer to the goal.
pub fn proof_lines(
    alloc: Global,
    answers: &[Arc<Settled, Global>],
) -> Result<Vec<String>, AllocError>
    ensures { IfOk result (λ v. map string_bytes v.items ≡ map (λ a. text_or_none (arc_value {X = settled} a).found) answers.now) }
{
    let mut found = Vec::new(alloc);
    for answer in answers {
        found.push(text_of(proof_text(alloc, answer.proof())?)?)?;
    }
    Ok(found)
}

/// The lines of checksums, of the program without user types.
pub fn sum_lines(
    alloc: Global,
    typed: &Module,
    program: &Program,
    procs: &[BuiltProc],
) -> Result<Vec<String>, AllocError>
    ensures { IfOk result (λ v. map string_bytes v.items ≡ sums_on typed.now (erased program.now) (map proc_goals procs.now)) }
{
    let names = names(alloc, procs)?;
    let marks = marks(alloc, procs)?;
    let erased = erase(alloc, program)?;
    let lines = stmt_checksum::sum_lines(alloc, typed, &erased.decls, &names, &marks)?;
    let found = texts(alloc, lines)?;
    Ok(found)
}
