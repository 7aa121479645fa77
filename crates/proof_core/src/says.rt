// What a fact says that a term is equal to.
ghost use Rattle.std.specs.Prelude.{◌≡◌, pos, negsuc, option_map, IfOk};
ghost use Rattle.logic_core.specs.Tree.{truth};
ghost use Rattle.logic_core.specs.View.{parts_of};
ghost use Rattle.logic_core.specs.Sum.{affine};
ghost use Rattle.logic_core.specs.Junction.{is_zero};
ghost use Rattle.logic_core.specs.Combine.{sum_of};
ghost use Rattle.proof_core.specs.Says.{coefficient, without, rest_of, solved, other_side, by_equation, by_truth, says};

use logic_core::fault::NormalFault;
use logic_core::sum::{Linear, affine};
use logic_core::term::{Node, Term};
use std::alloc::{AllocError, Global};

/// Whether the term is the number zero.
pub fn is_zero(t: &Term) -> bool
    ensures { result ≡ is_zero t.now }
{
    match &t.node {
        Node::Num(n) => *n == 0,
        _ => false,
    }
}

// The coefficient of the atom t.
fn coefficient(t: &Term, parts: &[(i128, Term)]) -> Option<i128>
    ensures { result ≡ coefficient t.now (parts_of parts.now) }
{
    for part in parts {
        if t.equals(&part.1) {
            return Some(part.0);
        }
    }
    None
}

// The parts but for the one with the atom t.
fn without(alloc: Global, t: &Term, parts: &[(i128, Term)]) -> Result<Vec<(i128, Term)>, AllocError>
    ensures { IfOk result (λ v. parts_of v.items ≡ without t.now (parts_of parts.now)) }
{
    let mut others = Vec::new(alloc);
    let mut found = false;
    for part in parts {
        if !found && t.equals(&part.1) {
            found = true;
        } else {
            others.push((part.0, part.1.copy(alloc)?))?;
        }
    }
    Ok(others)
}

// The rest of the sum beside the atom t.
fn rest_of(alloc: Global, parts: &[(i128, Term)], rest: i128, t: &Term) -> Result<Term, AllocError>
    ensures { IfOk result (λ u. u ≡ rest_of (record { parts = parts_of parts.now; rest = rest }) t.now) }
{
    let parts = without(alloc, t, parts)?;
    Ok(Linear { parts, rest }.into_term())
}

// -t, and None where a number leaves 128 bits.
fn opposite(alloc: Global, t: Term) -> Result<Option<Term>, AllocError>
    ensures { IfOk result (λ o. o ≡ affine (negsuc 0) t (pos 0)) }
{
    match affine(alloc, -1, t, 0) {
        Ok(sum) => Ok(Some(sum)),
        Err(NormalFault::Wide) => Ok(None),
        Err(NormalFault::Memory) => Err(AllocError),
    }
}

// The term to which `sum = 0` makes the atom t equal.
fn solved_sum(
    alloc: Global,
    parts: &[(i128, Term)],
    rest: i128,
    t: &Term,
) -> Result<Option<Term>, AllocError>
    ensures { IfOk result (λ o. o ≡ solved (record { parts = parts_of parts.now; rest = rest }) t.now) }
{
    match coefficient(t, parts) {
        Some(1) => opposite(alloc, rest_of(alloc, parts, rest, t)?),
        Some(-1) => Ok(Some(rest_of(alloc, parts, rest, t)?)),
        _ => Ok(None),
    }
}

// The term to which `d = 0` makes the atom t equal. Where t is d, that is zero.
fn solved(alloc: Global, d: &Term, t: &Term) -> Result<Option<Term>, AllocError>
    ensures { IfOk result (λ o. o ≡ solved (sum_of d.now) t.now) }
{
    match &d.node {
        Node::Num(_) => Ok(None),
        Node::Sum(parts, rest) => solved_sum(alloc, parts, *rest, t),
        _ => {
            if t.equals(d) {
                Ok(Some(Term::new(Node::Num(0))))
            } else {
                Ok(None)
            }
        }
    }
}

// Where the Eq of a and b has t as a side, the other one.
fn other_side(alloc: Global, a: &Term, b: &Term, t: &Term) -> Result<Option<Term>, AllocError>
    ensures { IfOk result (λ o. o ≡ other_side a.now b.now t.now) }
{
    if a.equals(t) {
        Ok(Some(b.copy(alloc)?))
    } else if b.equals(t) {
        Ok(Some(a.copy(alloc)?))
    } else {
        Ok(None)
    }
}

// Eq(d, 0) of Int speaks of the atoms of d, and another Eq of its sides.
fn by_equation(alloc: Global, fact: &Term, t: &Term) -> Result<Option<Term>, AllocError>
    ensures { IfOk result (λ o. o ≡ by_equation fact.now t.now) }
{
    match &fact.node {
        Node::Eq(d, z) => {
            if is_zero(z) {
                solved(alloc, d, t)
            } else {
                other_side(alloc, d, z, t)
            }
        }
        _ => Ok(None),
    }
}

// A fact says of itself that it is true, and Not t says of t that it is false.
fn by_truth(fact: &Term, t: &Term) -> Option<bool>
    ensures { option_map (λ b. truth b) result ≡ by_truth fact.now t.now }
{
    match &fact.node {
        Node::Not(u) => {
            if u.equals(t) {
                Some(false)
            } else if fact.equals(t) {
                Some(true)
            } else {
                None
            }
        }
        _ => { if fact.equals(t) { Some(true) } else { None } }
    }
}

/// What a normal fact says that the term is equal to, and None where it says nothing of it, or
/// where a number leaves 128 bits: of `Eq(d, 0)` and an atom of d with coefficient 1 or -1 the
/// rest, of another Eq and one of its sides the other side, of the fact itself true, and of the
/// term whose Not the fact is false.
pub fn says(alloc: Global, fact: &Term, t: &Term) -> Result<Option<Term>, AllocError>
    ensures { IfOk result (λ o. o ≡ says fact.now t.now) }
{
    match by_equation(alloc, fact, t)? {
        Some(said) => Ok(Some(said)),
        None => Ok(by_truth(fact, t).map(|b| Term::new(Node::Truth(b)))),
    }
}
