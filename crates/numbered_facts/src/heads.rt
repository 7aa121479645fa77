// Definitions without their bodies.
ghost use Rattle.std.specs.Prelude.{◌≡◌, map, IfOk};
ghost use Rattle.numbered_facts.specs.Alike.{head_of};
ghost use Rattle.numbered_facts.specs.Heads.{same_head, same_heads};

use logic_core::copy::copy_sorts;
use logic_core::same::equal_sorts;
use logic_core::{Def, Node, Sequence, Term};
use std::alloc::{AllocError, Global};

// The definition with the body True.
fn head(alloc: Global, def: &Def) -> Result<Def, AllocError>
    ensures { IfOk result (λ d. head_of d ≡ head_of def.now) }
{
    Ok(Def {
        params: Sequence::of(copy_sorts(alloc, def.params.as_slice())?),
        sort: def.sort.copy(alloc)?,
        logical: false,
        body: Term::new(Node::Truth(true)),
    })
}

/// The definitions, each with the body True.
pub(crate) fn heads(alloc: Global, defs: &[Def]) -> Result<Vec<Def>, AllocError>
    ensures { IfOk result (λ v. map head_of v.items ≡ map head_of defs.now) }
{
    let mut found = Vec::new(alloc);
    for def in defs {
        found.push(head(alloc, def)?)?;
    }
    Ok(found)
}

// Whether two definitions have the same parameters and the same sort.
fn same_head(mine: &Def, theirs: &Def) -> bool
    ensures { result ≡ same_head mine.now theirs.now }
{
    mine.sort.equals(&theirs.sort) && equal_sorts(mine.params.as_slice(), theirs.params.as_slice())
}

/// Whether definitions have the same parameters and the same sorts, one after another.
pub(crate) fn same_heads(mine: &[Def], theirs: &[Def]) -> bool
    ensures { result ≡ same_heads mine.now theirs.now }
{
    let shared = mine.len().min(theirs.len());
    for i in 0..shared {
        if !same_head(&mine[i], &theirs[i]) {
            return false;
        }
    }
    mine.len() == theirs.len()
}
