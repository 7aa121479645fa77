// That a number is below, at and above zero, and where a Read stands from a Write, by number.
ghost use Rattle.std.specs.Prelude.{◌≡◌, ◌<◌, pos, negsuc, [], ◌∷◌, length, IfOk};
ghost use Rattle.logic_core.specs.Tree.{num, linear, at_most, part, no_parts};
ghost use Rattle.proof_core.specs.Maps.{below_zero, at_zero, above_zero};
ghost use Rattle.term_bank.specs.Numbered.{at};
ghost use Rattle.numbered_terms.specs.At.{IsAt};
ghost use Rattle.numbered_terms.specs.Stored.{Grows};

use numbered_facts::Store;
use std::alloc::{AllocError, Global};
use term_bank::{Node, TermId};

// One part.
fn one_part(alloc: Global, k: i128, id: TermId) -> Result<Vec<(i128, TermId)>, AllocError>
    ensures { IfOk result (λ v. v.items ≡ (k, id) ∷ []) }
{
    let mut parts = Vec::new(alloc);
    parts.push((k, id))?;
    Ok(parts)
}

// Le(0, k * d - 1), not in normal form.
fn is_above(store: &mut Store, k: i128, d: TermId) -> Result<TermId, AllocError>
    requires { d < length store.old.terms }
    ensures grows { Grows store.old store.new }
    ensures is { IfOk result (λ i. IsAt store.new.terms i (at_most (num (pos 0)) (linear (part k (at store.old.terms d) no_parts) (negsuc 0)))) }
{
    let parts = one_part(store.alloc(), k, d)?;
    let sum = store.make(Node::Sum(parts, -1))?;
    let zero = store.make(Node::Num(0))?;
    store.make(Node::Le(zero, sum))
}

/// Le(0, -d - 1), not in normal form.
pub fn below_zero(store: &mut Store, d: TermId) -> Result<TermId, AllocError>
    requires { d < length store.old.terms }
    ensures grows { Grows store.old store.new }
    ensures is { IfOk result (λ i. IsAt store.new.terms i (below_zero (at store.old.terms d))) }
{
    is_above(store, -1, d)
}

/// Le(0, d - 1), not in normal form.
pub fn above_zero(store: &mut Store, d: TermId) -> Result<TermId, AllocError>
    requires { d < length store.old.terms }
    ensures grows { Grows store.old store.new }
    ensures is { IfOk result (λ i. IsAt store.new.terms i (above_zero (at store.old.terms d))) }
{
    is_above(store, 1, d)
}

/// Eq(d, 0), not in normal form.
pub fn at_zero(store: &mut Store, d: TermId) -> Result<TermId, AllocError>
    requires { d < length store.old.terms }
    ensures grows { Grows store.old store.new }
    ensures is { IfOk result (λ i. IsAt store.new.terms i (at_zero (at store.old.terms d))) }
{
    let zero = store.make(Node::Num(0))?;
    store.make(Node::Eq(d, zero))
}

// Two parts.
fn two_parts(
    alloc: Global,
    first: (i128, TermId),
    second: (i128, TermId),
) -> Result<Vec<(i128, TermId)>, AllocError>
    ensures { IfOk result (λ v. v.items ≡ first ∷ second ∷ []) }
{
    let mut parts = Vec::new(alloc);
    parts.push(first)?;
    parts.push(second)?;
    Ok(parts)
}

/// a - b, not in normal form.
pub fn less(store: &mut Store, a: TermId, b: TermId) -> Result<TermId, AllocError>
    requires a { a < length store.old.terms }
    requires b { b < length store.old.terms }
    ensures grows { Grows store.old store.new }
    ensures is { IfOk result (λ i. IsAt store.new.terms i (linear (part (pos 1) (at store.old.terms a) (part (negsuc 0) (at store.old.terms b) no_parts)) (pos 0))) }
{
    let parts = two_parts(store.alloc(), (1, a), (-1, b))?;
    store.make(Node::Sum(parts, 0))
}
