// What a fact says that a term is equal to, by number.
ghost use Rattle.std.specs.Prelude.{◌≡◌, ◌<◌, pos, negsuc, length, option_map, IfOk};
ghost use Rattle.logic_core.specs.Combine.{sum_of};
ghost use Rattle.logic_core.specs.Sum.{affine, term_of};
ghost use Rattle.logic_core.specs.Tree.{truth};
ghost use Rattle.proof_core.specs.Says.{solved, other_side, by_equation, by_truth, says};
ghost use Rattle.term_bank.specs.Numbered.{at, Begins};
ghost use Rattle.numbered_terms.specs.Lists.{AtomsBelow};
ghost use Rattle.numbered_forms.specs.Sums.{sum_at};
ghost use Rattle.numbered_facts.specs.Answers.{StandsFor};
ghost use Rattle.numbered_facts.specs.Saying.{coefficient_of, without, solved_by, solved_alone};

use logic_core::NormalFault;
use numbered_forms::arithmetic::affine;
use numbered_forms::negation::is_zero;
use numbered_forms::sum::NumberedSum;
use numbered_terms::Terms;
use std::alloc::{AllocError, Global};
use term_bank::{Node, TermId};

// The coefficient of an atom.
fn coefficient_of(id: TermId, parts: &[(i128, TermId)]) -> Option<i128>
    ensures { result ≡ coefficient_of id parts.now }
{
    for part in parts {
        if id == part.1 {
            return Some(part.0);
        }
    }
    None
}

// The sum of these atoms, but for the first of this number, and this constant.
fn rest_of(
    alloc: Global,
    id: TermId,
    parts: &[(i128, TermId)],
    c: i128,
) -> Result<NumberedSum, AllocError>
    ensures parts { IfOk result (λ s. s.parts.items ≡ without id parts.now) }
    ensures rest { IfOk result (λ s. s.rest ≡ c) }
{
    let mut others = Vec::new(alloc);
    let mut found = false;
    for part in parts {
        if !found && id == part.1 {
            found = true;
        } else {
            others.push((part.0, part.1))?;
        }
    }
    Ok(NumberedSum {
        parts: others,
        rest: c,
    })
}

// -t, and None where a number leaves 128 bits.
fn opposite(terms: &mut Terms, id: TermId) -> Result<Option<TermId>, AllocError>
    requires { id < length terms.old }
    ensures grows { Begins terms.old terms.new }
    ensures gives { IfOk result (λ o. StandsFor terms.new o (affine (negsuc 0) (at terms.old id) (pos 0))) }
{
    match affine(terms, -1, id, 0) {
        Ok(sum) => Ok(Some(sum)),
        Err(NormalFault::Wide) => Ok(None),
        Err(NormalFault::Memory) => Err(AllocError),
    }
}

// The term to which `k * t + rest = 0` makes t equal, where k is 1 or -1.
fn solved_by(terms: &mut Terms, k: i128, rest: NumberedSum) -> Result<Option<TermId>, AllocError>
    requires { AtomsBelow (length terms.old) rest.parts.items }
    ensures grows { Begins terms.old terms.new }
    ensures gives { IfOk result (λ o. StandsFor terms.new o (solved_by k (term_of (sum_at terms.old rest)))) }
{
    match k {
        1 => {
            let rest = rest.make(terms)?;
            opposite(terms, rest)
        }
        -1 => {
            let rest = rest.make(terms)?;
            Ok(Some(rest))
        }
        _ => Ok(None),
    }
}

// Zero, where d is t.
fn solved_alone(terms: &mut Terms, d: TermId, t: TermId) -> Result<Option<TermId>, AllocError>
    requires d { d < length terms.old }
    requires t { t < length terms.old }
    ensures grows { Begins terms.old terms.new }
    ensures gives { IfOk result (λ o. StandsFor terms.new o (solved_alone (at terms.old d) (at terms.old t))) }
{
    if terms.is_same(t, d) {
        let zero = terms.make(Node::Num(0))?;
        return Ok(Some(zero));
    }
    Ok(None)
}

// The term to which `d = 0` makes the atom t equal. Where t is d, that is zero.
fn solved(terms: &mut Terms, d: TermId, t: TermId) -> Result<Option<TermId>, AllocError>
    requires d { d < length terms.old }
    requires t { t < length terms.old }
    ensures grows { Begins terms.old terms.new }
    ensures gives { IfOk result (λ o. StandsFor terms.new o (solved (sum_of (at terms.old d)) (at terms.old t))) }
{
    terms.are_stored();
    match terms.node(d) {
        Node::Num(_) => Ok(None),
        Node::Sum(parts, c) => match coefficient_of(t, parts) {
            Some(k) => {
                let rest = rest_of(terms.alloc(), t, parts, *c)?;
                solved_by(terms, k, rest)
            }
            None => Ok(None),
        },
        _ => solved_alone(terms, d, t),
    }
}

// Where the Eq of a and b has t as a side, the other one.
fn other_side(terms: &Terms, a: TermId, b: TermId, t: TermId) -> Option<TermId>
    requires a { a < length terms.now }
    requires b { b < length terms.now }
    requires t { t < length terms.now }
    ensures { StandsFor terms.now result (other_side (at terms.now a) (at terms.now b) (at terms.now t)) }
{
    if terms.is_same(a, t) {
        return Some(b);
    }
    if terms.is_same(b, t) {
        return Some(a);
    }
    None
}

// Eq(d, 0) of Int speaks of the atoms of d, and another Eq of its sides.
fn by_equation(terms: &mut Terms, fact: TermId, t: TermId) -> Result<Option<TermId>, AllocError>
    requires fact { fact < length terms.old }
    requires t { t < length terms.old }
    ensures grows { Begins terms.old terms.new }
    ensures gives { IfOk result (λ o. StandsFor terms.new o (by_equation (at terms.old fact) (at terms.old t))) }
{
    match terms.node(fact) {
        Node::Eq(d, z) => {
            let d = *d;
            let z = *z;
            if is_zero(terms, z) {
                return solved(terms, d, t);
            }
            Ok(other_side(terms, d, z, t))
        }
        _ => Ok(None),
    }
}

// A fact says of itself that it is true, and Not t says of t that it is false.
fn by_truth(terms: &Terms, fact: TermId, t: TermId) -> Option<bool>
    requires fact { fact < length terms.now }
    requires t { t < length terms.now }
    ensures { option_map (λ b. truth b) result ≡ by_truth (at terms.now fact) (at terms.now t) }
{
    match terms.node(fact) {
        Node::Not(u) => {
            if terms.is_same(*u, t) {
                return Some(false);
            }
            if terms.is_same(fact, t) {
                return Some(true);
            }
            None
        }
        _ => {
            if terms.is_same(fact, t) {
                return Some(true);
            }
            None
        }
    }
}

// The truth value that a fact says that a term is.
fn said_truth(terms: &mut Terms, fact: TermId, t: TermId) -> Result<Option<TermId>, AllocError>
    requires fact { fact < length terms.old }
    requires t { t < length terms.old }
    ensures grows { Begins terms.old terms.new }
    ensures gives { IfOk result (λ o. StandsFor terms.new o (by_truth (at terms.old fact) (at terms.old t))) }
{
    match by_truth(terms, fact, t) {
        Some(b) => {
            let value = terms.make(Node::Truth(b))?;
            Ok(Some(value))
        }
        None => Ok(None),
    }
}

/// What a normal fact says that a term is equal to, and None where it says nothing of it, or where a
/// number leaves 128 bits.
pub(crate) fn says(terms: &mut Terms, fact: TermId, t: TermId) -> Result<Option<TermId>, AllocError>
    requires fact { fact < length terms.old }
    requires t { t < length terms.old }
    ensures grows { Begins terms.old terms.new }
    ensures gives { IfOk result (λ o. StandsFor terms.new o (says (at terms.old fact) (at terms.old t))) }
{
    match by_equation(terms, fact, t)? {
        Some(said) => Ok(Some(said)),
        None => said_truth(terms, fact, t),
    }
}
