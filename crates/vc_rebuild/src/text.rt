// Dependency texts.
ghost use Rattle.std.specs.Prelude.{◌≡◌, [], ◌∷◌, ◌++◌, ◌==◌, true, not, length, IfOk, OnOk, filter, flat_map};
ghost use Rattle.std.specs.List.{list_all};
ghost use Rattle.bpl_model.specs.Reach.{among, own_positions, reached_by};
ghost use Rattle.bpl_model.specs.Walk.{text_at};
ghost use Rattle.vc_build.specs.Depends.{depends};

use bpl_model::declarations::own_name;
use bpl_model::reach::{reached_by, reached_from};
use bpl_model::{DeclText, Links, Proc};
use std::alloc::{AllocError, Global};

/// The texts of the module's declarations.
pub(crate) fn texts_of<'a>(links: &'a Links<'_>) -> &'a [DeclText]
    ensures { result.now ≡ links.now.texts }
{
    links.parts().texts.as_slice()
}

/// Its procedures.
pub(crate) fn procs_of<'a>(links: &'a Links<'_>) -> &'a [Proc]
    ensures { result.now ≡ links.now.procs }
{
    links.parts().procs.as_slice()
}

// The canonical text of the declaration at a position; empty where there is none.
fn text_of(texts: &[DeclText], d: u64) -> &[u8]
    ensures { result.now ≡ (text_at texts.now d).text }
{
    match texts.get(d as usize) {
        Some(text) => text.text.as_slice(),
        None => &[],
    }
}

// The same without a body.
fn contract_of(texts: &[DeclText], d: u64) -> &[u8]
    ensures { result.now ≡ (text_at texts.now d).contract }
{
    match texts.get(d as usize) {
        Some(text) => text.contract.as_slice(),
        None => &[],
    }
}

// The positions that the declaration's names stand for.
fn leads_of(texts: &[DeclText], d: u64) -> &[u64]
    ensures { result.now ≡ (text_at texts.now d).leads }
{
    match texts.get(d as usize) {
        Some(text) => text.leads.as_slice(),
        None => &[],
    }
}

// The positions of the procedure's own declarations: its declaration and its implementation.
fn own_positions(alloc: Global, links: &Links<'_>, proc: &Proc) -> Result<Vec<u64>, AllocError>
    ensures { IfOk result (λ v. v.items ≡ own_positions links.now proc.now) }
{
    let name = proc.name.as_bytes();
    let implementation = own_name(alloc, name)?;
    let mut own = Vec::from_slice(alloc, links.named(name))?;
    own.extend_from_slice(links.named(implementation.as_slice()))?;
    Ok(own)
}

// The texts of the declarations at these positions come behind.
fn push_texts(bytes: &mut Vec<u8>, texts: &[DeclText], positions: &[u64]) -> Result<(), AllocError>
    ensures { OnOk result (bytes.new.items ≡ bytes.old.items ++ flat_map (λ d. (text_at texts.now d).text) positions.now) }
{
    for d in positions {
        bytes.extend_from_slice(text_of(texts, *d))?;
    }
    Ok(())
}

fn is_among(positions: &[u64], d: u64) -> bool
    ensures { result ≡ among positions.now d }
{
    positions.iter().any(|e| *e == d)
}

// The text without a body comes behind, unless the declaration is one of the procedure's own.
fn push_contract(
    bytes: &mut Vec<u8>,
    texts: &[DeclText],
    own: &[u64],
    d: u64,
) -> Result<(), AllocError>
    ensures { OnOk result (bytes.new.items ≡ bytes.old.items ++ flat_map (λ e. (text_at texts.now e).contract) (filter (λ e. not (among own.now e)) (d ∷ []))) }
{
    if !is_among(own, d) {
        bytes.extend_from_slice(contract_of(texts, d))?;
    }
    Ok(())
}

// The texts without bodies of the declarations that are reached come behind, but for its own.
fn push_contracts(
    bytes: &mut Vec<u8>,
    texts: &[DeclText],
    own: &[u64],
    reached: &[u64],
) -> Result<(), AllocError>
    ensures { OnOk result (bytes.new.items ≡ bytes.old.items ++ flat_map (λ d. (text_at texts.now d).contract) (filter (λ d. not (among own.now d)) reached.now)) }
{
    for d in reached {
        push_contract(bytes, texts, own, *d)?;
    }
    Ok(())
}

// Whether the declaration's names stand for none.
fn leads_nowhere(texts: &[DeclText], d: u64) -> bool
    ensures { result ≡ (length (text_at texts.now d).leads == 0) }
{
    leads_of(texts, d).len() == 0
}

// Whether those of the declarations at these positions stand for none.
fn lead_nowhere(texts: &[DeclText], positions: &[u64]) -> bool
    ensures { result ≡ list_all (λ d. length (text_at texts.now d).leads == 0) positions.now }
{
    positions.iter().all(|d| leads_nowhere(texts, *d))
}

// What is always reached, for a procedure whose own declarations lead nowhere.
fn reached_always(
    alloc: Global,
    links: &Links<'_>,
    proc: &Proc,
    own: &[u64],
) -> Result<Vec<u64>, AllocError>
    requires own { own.now ≡ own_positions links.now proc.now }
    requires nowhere { list_all (λ d. length (text_at links.now.texts d).leads == 0) own.now ≡ true }
    ensures { IfOk result (λ v. v.items ≡ reached_by links.now proc.now) }
{
    let found = reached_from(alloc, links, &[])?;
    Ok(found)
}

// What the procedure's names reach, by the positions of its own declarations.
fn reached_by_own(
    alloc: Global,
    links: &Links<'_>,
    proc: &Proc,
    own: &[u64],
) -> Result<Vec<u64>, AllocError>
    requires { own.now ≡ own_positions links.now proc.now }
    ensures { IfOk result (λ v. v.items ≡ reached_by links.now proc.now) }
{
    if lead_nowhere(texts_of(links), own) {
        reached_always(alloc, links, proc, own)
    } else {
        reached_by(alloc, links, proc)
    }
}

/// The texts of the procedure's own declarations, and then those without bodies of the others that
/// its names reach.
pub fn depends(alloc: Global, links: &Links<'_>, proc: &Proc) -> Result<Vec<u8>, AllocError>
    ensures { IfOk result (λ v. v.items ≡ depends links.now proc.now) }
{
    let own = own_positions(alloc, links, proc)?;
    let reached = reached_by_own(alloc, links, proc, &own)?;
    let texts = links.parts().texts.as_slice();
    let mut bytes = Vec::new(alloc);
    push_texts(&mut bytes, texts, own.as_slice())?;
    push_contracts(&mut bytes, texts, own.as_slice(), reached.as_slice())?;
    Ok(bytes)
}
