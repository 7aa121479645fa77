// Whether a declaration is none of the other procedures'.
ghost use Rattle.std.specs.Prelude.{◌≡◌, ◌++◌, ◌||◌, true, false, nat_eq, codes, bytes_eq, slice_get, IfOk};
ghost use Rattle.vc_rebuild.specs.Change.{is_no_blank, is_own, IsOwnAlone};

use crate::change::ChangedBody;
use crate::text::texts_of;
use bpl_model::declarations::{name_at, own_name};
use bpl_model::{Links, Proc};
use std::alloc::{AllocError, Global};

fn same_bytes(first: &[u8], second: &[u8]) -> bool
    ensures { result ≡ bytes_eq first.now second.now }
{
    first == second
}

fn byte_at(name: &[u8], at: usize) -> Option<u8>
    ensures { result ≡ slice_get name.now at }
{
    name.get(at).copied()
}

// Whether no blank stands where one stands in an implementation's name.
fn is_plain(name: &[u8]) -> bool
    ensures { result ≡ is_no_blank (slice_get name.now 14) }
{
    match byte_at(name, 14) {
        None => true,
        Some(byte) => byte != b' ',
    }
}

fn name_of(proc: &Proc) -> &[u8]
    ensures { result.now ≡ proc.now.name }
{
    proc.name.as_bytes()
}

// Whether the name is the procedure's.
fn is_called(proc: &Proc, name: &[u8]) -> bool
    ensures { result ≡ bytes_eq proc.now.name name.now }
{
    same_bytes(name_of(proc), name)
}

// Whether the name is one of the two.
fn is_either(first: &[u8], second: &[u8], name: &[u8]) -> bool
    ensures { result ≡ (bytes_eq first.now name.now || bytes_eq second.now name.now) }
{
    same_bytes(first, name) || same_bytes(second, name)
}

// Whether the name is that of the procedure or of its implementation.
fn names_it(alloc: Global, proc: &Proc, name: &[u8]) -> Result<bool, AllocError>
    ensures { IfOk result (λ b. b ≡ (bytes_eq proc.now.name name.now || bytes_eq (codes "implementation " ++ proc.now.name) name.now)) }
{
    let called = name_of(proc);
    let own = own_name(alloc, called)?;
    Ok(is_either(called, own.as_slice(), name))
}

// The same. The name of the implementation is made only where the name may be that of one.
fn is_owned(alloc: Global, proc: &Proc, name: &[u8]) -> Result<bool, AllocError>
    ensures { IfOk result (λ b. b ≡ (bytes_eq proc.now.name name.now || bytes_eq (codes "implementation " ++ proc.now.name) name.now)) }
{
    if is_plain(name) {
        return Ok(is_called(proc, name));
    }
    names_it(alloc, proc, name)
}

// Whether the declaration is the procedure's, or its implementation.
fn is_own(alloc: Global, links: &Links<'_>, d: u64, proc: &Proc) -> Result<bool, AllocError>
    ensures { IfOk result (λ b. b ≡ is_own links.now d proc.now) }
{
    let own = is_owned(alloc, proc, name_at(texts_of(links), d))?;
    Ok(own)
}

fn is_at(i: usize, at: usize) -> bool
    ensures { result ≡ nat_eq i at }
{
    i == at
}

// Whether the declaration is the procedure's, and this isn't the one that has the body.
fn is_others(
    alloc: Global,
    links: &Links<'_>,
    body: ChangedBody,
    i: usize,
    proc: &Proc,
) -> Result<bool, AllocError>
    ensures { IfOk result (λ b. b ≡ false → nat_eq i body.proc_at ≡ false → is_own links.now body.decl_at proc.now ≡ false) }
{
    if is_at(i, body.proc_at) {
        return Ok(false);
    }
    let own = is_own(alloc, links, body.decl_at as u64, proc)?;
    Ok(own)
}

/// Whether the declaration is none of the other procedures'.
pub fn is_alone(
    alloc: Global,
    links: &Links<'_>,
    body: ChangedBody,
    procs: &[Proc],
) -> Result<bool, AllocError>
    ensures { IfOk result (λ b. b ≡ true → IsOwnAlone links.now body procs.now) }
{
    for i in 0..procs.len() {
        let proc = &procs[i];
        if is_others(alloc, links, body, i, proc)? {
            return Ok(false);
        }
    }
    Ok(true)
}
