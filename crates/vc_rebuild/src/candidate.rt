// The procedure before an edit whose obligations a procedure keeps.
ghost use Rattle.std.specs.Prelude.{◌≡◌, IfOk, slice_get, bytes_eq, option_map};
ghost use Rattle.vc_rebuild.specs.Kept.{with_text};
ghost use Rattle.vc_rebuild.specs.Inside.{digests_of, found_from, having_text};
ghost use Rattle.vc_rebuild.specs.Looked.{AreDigests, IsBefore};

use crate::built::Built;
use crate::digest::DigestedText;
use crate::kept::BuiltProc;
use bpl_scopes::names::Positions;
use std::alloc::{AllocError, Global};

/// What was built before.
#[derive(Drop)]
pub struct Before<'a> {
    /// It.
    pub built: &'a Built,
    /// The digests of its procedures' dependency texts, in order. Where few texts are looked for, there
    /// are none.
    pub digests: Option<Positions<'a>>,
}

// The digests of the procedures' texts, and where each stands first.
fn digests<'a>(alloc: Global, procs: &'a [BuiltProc]) -> Result<Positions<'a>, AllocError>
    ensures { IfOk result (λ ds. ds ≡ digests_of procs.now) }
{
    let mut found = Positions::new(alloc);
    for proc in procs {
        found.push(proc.depends().digest())?;
    }
    Ok(found)
}

fn has_text(proc: &BuiltProc, text: &[u8]) -> bool
    ensures { result ≡ bytes_eq text.now proc.now.depends }
{
    text == proc.depends().text()
}

// The first procedure with the text, one after another.
fn first_with<'a>(procs: &'a [BuiltProc], text: &[u8]) -> Option<&'a BuiltProc>
    ensures { option_map (λ b. b.now) result ≡ with_text procs.now text.now }
{
    for proc in procs {
        if has_text(proc, text) {
            return Some(proc);
        }
    }
    None
}

fn proc_at(procs: &[BuiltProc], at: usize) -> Option<&BuiltProc>
    ensures { option_map (λ b. b.now) result ≡ slice_get procs.now at }
{
    procs.get(at)
}

// The procedure there, if it has the text, or else the first one that has it.
fn first_from<'a>(procs: &'a [BuiltProc], at: usize, text: &[u8]) -> Option<&'a BuiltProc>
    ensures { option_map (λ b. b.now) result ≡ found_from procs.now (slice_get procs.now at) text.now }
{
    match proc_at(procs, at) {
        None => None,
        Some(found) => if has_text(found, text) {
            Some(found)
        } else {
            first_with(procs, text)
        },
    }
}

// The first procedure with the text: that of the first digest that is the same, if it has the text,
// or else the texts are looked at one after another.
fn with_text<'a>(
    digests: &Positions<'_>,
    procs: &'a [BuiltProc],
    text: &DigestedText,
) -> Option<&'a BuiltProc>
    requires { digests.now ≡ digests_of procs.now }
    ensures { option_map (λ b. b.now) result ≡ with_text procs.now text.now }
{
    match digests.find(text.digest()) {
        None => None,
        Some(at) => first_from(procs, at, text.text()),
    }
}

// The same, with or without digests.
fn found_by<'a>(
    digests: &Option<Positions<'_>>,
    procs: &'a [BuiltProc],
    text: &DigestedText,
) -> Option<&'a BuiltProc>
    requires { AreDigests digests.now procs.now }
    ensures { option_map (λ b. b.now) result ≡ with_text procs.now text.now }
{
    match digests {
        Some(digests) => with_text(digests, procs, text),
        None => first_with(procs, text.text()),
    }
}

/// The procedure before at this place, if it has the text.
pub fn there<'a>(before: &Before<'a>, place: usize, text: &[u8]) -> Option<&'a BuiltProc>
    ensures { option_map (λ b. b.now) result ≡ having_text (slice_get before.now.built.now.procs place) text.now }
{
    match proc_at(before.built.procs(), place) {
        None => None,
        Some(kept) => if has_text(kept, text) {
            Some(kept)
        } else {
            None
        },
    }
}

/// The first procedure before with this dependency text.
pub fn candidate<'a>(before: &Before<'a>, text: &DigestedText) -> Option<&'a BuiltProc>
    requires { IsBefore before.now }
    ensures { option_map (λ b. b.now) result ≡ with_text before.now.built.now.procs text.now }
{
    found_by(&before.digests, before.built.procs(), text)
}

/// What was built before, to be looked at.
pub fn looked_at<'a>(alloc: Global, built: &'a Built) -> Result<Before<'a>, AllocError>
    ensures before { IfOk result IsBefore }
    ensures same { IfOk result (λ b. b.built.now ≡ built.now) }
{
    let found = digests(alloc, built.procs())?;
    Ok(Before {
        built,
        digests: Some(found),
    })
}
